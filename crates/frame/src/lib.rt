// Records of a message: the cutter, and the definitions of the verdict and of the reading by pieces for any field rules.
#![tactic(auto)]

ghost use Rattle.std.specs.Prelude.{◌≡◌, ◌≤◌, length};
ghost use Rattle.frame.specs.Records.{head_end, id_of, ended, is_foot};
ghost use Rattle.frame.specs.Places.{foot_at, later_at, record_at};

// What is found in an item: a bad letter in its text, the code of its first Ü fault and of its first T fault (0 where it
// has none), its amount, and whether its account is one of zeros.
#[derive(Clone, Copy)]
pub struct Found {
    pub letter: bool,
    // Kept: an Option is no plainer: 00 is a code of its own, that of no fault, and goes to the table and the verdict as it stands.
    pub fault: u8,
    pub code: u8,
    pub amount: u64,
    pub zero: bool,
}

// How many items, and the sum of their amounts.
#[derive(Clone, Copy)]
pub struct Totals {
    pub count: u64,
    pub sum: u64,
}

// What the head tells the rules of its items: the kind of message, and whether its bank is barred (02 #101, #105).
#[derive(Clone, Copy)]
pub struct Told {
    // Kept: refusal 5 is promised for a `judge::Session` whose kind is no kind's, and such a session must have a value.
    pub kind: u8,
    pub barred: bool,
}

// What was counted and found so far. Phase 0: in the head; 1: after it; 2: the foot is read; 3: broken; 4: overflow; 5: closed.
// What the head told is all that the rules of items may take from it. The code is the first fault of head, items and foot.
#[derive(Clone, Copy)]
pub struct Tally {
    // Kept: refusal 5 is promised for a `judge::Session` whose phase is over 5, and such a session must have a value.
    pub phase: u8,
    pub letter: bool,
    pub code: u8,
    pub told: Told,
    pub accepted: Totals,
    pub refused: Totals,
    pub zeros: u64,
    pub id: [u8; 25],
}

// What closing gives: the message code, the kind of message, accepted count and sum, refused count and sum, the zero watch, the identifier.
#[derive(Clone, Copy)]
pub struct Closing {
    pub code: u8,
    // Kept: the frame is proved for any field rules and stands below the crate that has the kinds; the C interface takes this as a number.
    pub kind: u32,
    pub accepted: Totals,
    pub refused: Totals,
    pub zeros: u64,
    pub id: [u8; 25],
}

// What a STATUS says: duplicate code, the order's positions 10-34, the reply's date, number and time, the message code,
// the four totals, and how many references there are.
#[derive(Clone, Copy)]
pub struct Status {
    pub duplicate: u8,
    pub id: [u8; 25],
    pub date: u32,
    pub number: u32,
    pub time: u32,
    pub code: u8,
    pub accepted: Totals,
    pub refused: Totals,
    pub references: usize,
}

// The identifier, positions 10-34, of what begins with a head; spaces where there are fewer than 34 bytes.
#[tactic(auto, using(std::proofs::lemmas::Bool::Decides::nat_tests), unfolding(crate::specs::Records::id_of))]
pub fn identifier(x: &[u8]) -> [u8; 25]
    ensures { result ≡ id_of x.now }
{
    let mut id = [b' '; 25];
    if x.len() >= 34 {
        id.copy_from_slice(&x[9..34]);
    }
    id
}

// The first n bytes are a record with its ending, 0Dh 0Ah, after it.
#[tactic(auto, using(crate::proofs::Starts::ends_so, crate::proofs::Starts::no_room))]
pub fn has_ending(x: &[u8], n: usize) -> bool
    ensures { result ≡ ended n x.now }
{
    n <= x.len() && x[n..].starts_with(b"\r\n")
}

// A record that begins 03 is the foot.
#[tactic(auto, using(crate::proofs::Starts::starts), unfolding(crate::specs::Records::is_foot))]
pub fn is_foot(x: &[u8]) -> bool
    ensures { result ≡ is_foot x.now }
{
    x.starts_with(b"03")
}

// What stands at a position of a message: a record, with its start and the next position; a break; or the end.
#[derive(Clone, Copy)]
pub enum Record {
    Head { start: usize, next: usize },
    Item { start: usize, next: usize },
    Foot { start: usize, next: usize },
    Break,
    End,
}

// The bytes of a head without its ending (002, 1.1).
pub const HEAD: usize = 174;

// The bytes of an item without its ending (002, 1.3).
pub const ITEM: usize = 249;

// The bytes of a foot without its ending (002, 1.2).
pub const FOOT: usize = 24;

// The bytes of a head with it.
pub const HEAD_ENDED: usize = HEAD + 2;

// The bytes of an item with it.
pub const ITEM_ENDED: usize = ITEM + 2;

// The bytes of a foot with it.
pub const FOOT_ENDED: usize = FOOT + 2;

// The foot stands at a position, with some item before it, and ends the message.
#[tactic(auto, using(std::proofs::lemmas::Bool::Decides::nat_tests, base::proofs::Parts::tail))]
fn foot_at(message: &[u8], at: usize) -> bool
    requires { (head_end ≤ at) × (at ≤ length message.now) }
    ensures { result ≡ foot_at message.now at }
{
    let x = &message[at..];
    (at > HEAD_ENDED) & is_foot(x) & has_ending(x, FOOT) & (x.len() == FOOT_ENDED)
}

// The record after the head that begins at a position.
#[tactic(auto, using(std::proofs::lemmas::Bool::Decides::nat_tests, base::proofs::Parts::tail), unfolding(crate::specs::Places::later_at))]
fn later_at(message: &[u8], at: usize) -> Record
    requires { (head_end ≤ at) × (at ≤ length message.now) }
    ensures { result ≡ later_at message.now at }
{
    if foot_at(message, at) {
        return Record::Foot {
            start: at,
            next: at + FOOT_ENDED,
        };
    }
    let x = &message[at..];
    if !is_foot(x) && has_ending(x, ITEM) {
        return Record::Item {
            start: at,
            next: at + ITEM_ENDED,
        };
    }
    Record::Break
}

// What stands at a position: the head at 0, a later record a head and k items on, the end after the foot; anything else
// is no place where a record begins, and a break.
#[tactic(auto, using(std::proofs::lemmas::Bool::Decides::nat_tests), unfolding(crate::specs::Places::record_at))]
pub fn record_at(message: &[u8], at: usize) -> Record
    ensures { result ≡ record_at message.now at }
{
    if at == 0 && has_ending(message, HEAD) {
        return Record::Head {
            start: 0,
            next: HEAD_ENDED,
        };
    }
    if at < HEAD_ENDED || at > message.len() {
        return Record::Break;
    }
    match (at - HEAD_ENDED) % ITEM_ENDED {
        0 => later_at(message, at),
        FOOT_ENDED if foot_at(message, at - FOOT_ENDED) => Record::End,
        _ => Record::Break,
    }
}
