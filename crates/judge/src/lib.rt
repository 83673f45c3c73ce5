// The judge by pieces: a session is a value; each piece of a message yields the session to use next, and closing gives the
// verdict. A session and the caller's table are all the memory that it needs, whatever the message's size.
#![tactic(auto)]

ghost use Rattle.std.specs.Prelude.{◌≡◌, cond, [], ◌+◌, ◌≤◌, ◌<◌, length, take, drop};
ghost use Rattle.lent.specs.Lent.{listed_in, lent_in};
ghost use Rattle.frame.specs.Verdict.{blank};
ghost use Rattle.frame.specs.Sound.{most_kind};
ghost use Rattle.frame.specs.Machine.{unread, phased, more, item_tally, size, head_tally, judged, run, closing};
ghost use Rattle.kinds.specs.Codes.{rules};
ghost use Rattle.judge.specs.Session.{
  most,
  longest,
  pad,
  state_with,
  tally_in_range,
  held_in_range,
  in_range,
  closed_session,
  opened,
  Took,
  parts_of,
  piece_refused,
  Stepped,
  closed_of,
  or_no_closing,
};
ghost use Rattle.judge.specs.Inner.{Ready, Countable, Summed, ItemRead, FootRead, Read, Fit, Partial, Became, EndedAs, WalkedOf};

use frame::{Closing, Tally, Told, Totals};
use lent::{Lists, Refusal};

// A session: the clearing day, the table's length, what was counted, and the bytes of the record begun with zeros after them.
#[derive(Clone, Copy)]
pub struct Session {
    pub day: u32,
    pub room: usize,
    pub tally: Tally,
    pub fill: usize,
    pub held: [u8; frame::ITEM_ENDED],
}

// What a call that takes or opens a session gives back.
#[derive(Clone, Copy)]
pub struct Taken {
    pub outcome: Result<(), Refusal>,
    pub next: Session,
}

// What taking a piece gives where the session is in parts.
#[derive(Clone, Copy)]
pub struct Step {
    pub tally: Tally,
    pub fill: usize,
    pub outcome: Result<(), Refusal>,
}

// What closing a session gives: the verdict or why there is none, and the session to use next.
#[derive(Clone, Copy)]
pub struct Closed {
    pub closing: Result<Closing, Refusal>,
    pub next: Session,
}

// The most that an amount of ten digits can be.
const AMOUNT: u64 = 9999999999;

// Kept: a number for the phase, here and below: a `Tally` has it so, and `in_range` refuses one over 4 (refusal 5).
// The length, with its ending, of the record that begins with x, or of the head.
fn size_of(phase: u8, x: &[u8]) -> usize
    ensures { result ≡ size phase x.now }
{
    if phase == 0 {
        return frame::HEAD_ENDED;
    }
    if frame::is_foot(x) {
        return frame::FOOT_ENDED;
    }
    frame::ITEM_ENDED
}

// One item more, if so.
fn more(yes: bool, amount: u64, t: Totals) -> Totals
    requires { (t.count < 1000000) × (t.sum + amount < 18446744073709551616) }
    ensures { result ≡ more yes amount t }
{
    if !yes {
        return t;
    }
    Totals {
        count: t.count + 1,
        sum: t.sum + amount,
    }
}

// One more, if so.
fn one_more(n: u64, yes: bool) -> u64
    requires { n < 1000000 }
    ensures { result ≡ n + cond yes 1 0 }
{
    if yes { n + 1 } else { n }
}

// Nothing is read yet; the phase says whether a session is open.
fn unread(phase: u8) -> Tally
    ensures { result ≡ phased phase unread }
{
    Tally {
        phase,
        told: Told {
            kind: 0,
            barred: false,
        },
        letter: false,
        code: 0,
        accepted: Totals { count: 0, sum: 0 },
        refused: Totals { count: 0, sum: 0 },
        zeros: 0,
        id: [b' '; 25],
    }
}

// At a phase, with what was counted.
fn phased(phase: u8, tally: Tally) -> Tally
    ensures { result ≡ phased phase tally }
{
    Tally { phase, ..tally }
}

// The most that a kind's number is; under a bar, of which only ATUTAL knows, it is ATUTAL's.
fn most_kind(barred: bool) -> u8
    ensures { result ≡ most_kind barred }
{
    if barred {
        return 0;
    }
    1
}

// Each number of a tally is in its range, for a table of so many bytes.
#[tactic(auto, unfolding(crate::specs::Session::tally_in_range))]
fn tally_in_range(room: usize, t: Tally) -> bool
    requires { room ≤ most }
    ensures { result ≡ tally_in_range room t }
{
    if t.phase > 4 {
        return false;
    }
    if t.told.kind > most_kind(t.told.barred) {
        return false;
    }
    if t.code > 99 {
        return false;
    }
    if t.accepted.count > Session::MOST as u64 {
        return false;
    }
    if t.refused.count > Session::MOST as u64 {
        return false;
    }
    if t.accepted.count + t.refused.count > room as u64 {
        return false;
    }
    if t.accepted.sum > AMOUNT * t.accepted.count {
        return false;
    }
    if t.refused.sum > AMOUNT * t.refused.count {
        return false;
    }
    t.zeros <= t.accepted.count
}

// The head is read, without the ending: the rules of its message say what is found in it and what it tells.
fn head_read(tally: Tally, r: &[u8], day: u32, lists: &Lists) -> Tally
    ensures { result ≡ head_tally (rules (lent_in day lists.now)) tally r.now }
{
    let f = heads::found_in(r, day, lists.banks, lists.known);
    Tally {
        phase: 1,
        told: heads::told_of(r, lists.barred),
        letter: f.letter,
        code: f.code,
        id: frame::identifier(r),
        ..tally
    }
}

// Kept: (a) a copy of the tally, and no new one: docs/FIGURES.md says so (What a piece costs).
// What is found in an item is counted.
fn counted(tally: Tally, f: frame::Found) -> Tally
    requires { Countable tally f }
    ensures { result ≡ item_tally tally f }
{
    let accepted = f.code == 0;
    let mut t = tally;
    t.phase = 1;
    t.letter = tally.letter | f.letter;
    t.code = findings::earlier(tally.code, f.fault);
    t.accepted = more(accepted, f.amount, tally.accepted);
    t.refused = more(!accepted, f.amount, tally.refused);
    t.zeros = one_more(tally.zeros, accepted & f.zero);
    t
}

// An item is read, without the ending, by its rules, which may use the day and what the head told. Its code goes to its own byte;
// where there is none, judging stops.
fn item_read(tally: Tally, r: &[u8], day: u32, banks: &[u32], table: &mut [u8]) -> Tally
    requires { Ready tally table.old }
    ensures { ItemRead day banks.now tally table.old r.now result table.new }
{
    let k = tally.accepted.count + tally.refused.count;
    let at = k as usize;
    if at >= table.len() {
        return phased(4, tally);
    }
    let f = items::item::found_in(r, k + 1, tally.told, day, banks);
    table[at] = f.code;
    counted(tally, f)
}

// The foot is read, without the ending. With no item before it, that is a break.
fn foot_read(tally: Tally, r: &[u8]) -> Tally
    requires { Summed tally }
    ensures { FootRead tally r.now result }
{
    let items = tally.accepted.count + tally.refused.count;
    if items == 0 {
        return phased(3, tally);
    }
    let sum = tally.accepted.sum + tally.refused.sum;
    Tally {
        phase: 2,
        code: findings::earlier(tally.code, items::foot::code_in(r, items, sum)),
        ..tally
    }
}

// A record of its whole length, with its ending, is judged.
fn record_read(tally: Tally, x: &[u8], day: u32, lists: &Lists, table: &mut [u8]) -> Tally
    requires ready { Ready tally table.old }
    requires x_len { length x.now ≡ size tally.phase x.now }
    ensures { Read (judged (rules (lent_in day lists.now))
        (state_with tally [] table.old) x.now) result table.new }
{
    if tally.phase == 0 {
        if frame::has_ending(x, Session::HEAD) {
            return head_read(tally, &x[0..Session::HEAD], day, lists);
        }
        return phased(3, tally);
    }
    if frame::is_foot(x) {
        if frame::has_ending(x, Session::FOOT) {
            return foot_read(tally, &x[0..Session::FOOT]);
        }
        return phased(3, tally);
    }
    if frame::has_ending(x, Session::ITEM) {
        return item_read(tally, &x[0..Session::ITEM], day, lists.banks, table);
    }
    phased(3, tally)
}

// A tally, and what is left of a piece after its whole records.
#[derive(Clone, Copy)]
pub struct Walked<'a> {
    pub tally: Tally,
    pub rest: &'a [u8],
}

// Whole records are judged straight out of the piece, one after the other.
fn walk<'a>(tally: Tally, piece: &'a [u8], day: u32, lists: &Lists, table: &mut [u8]) -> Walked<'a>
    requires { Ready tally table.old }
    ensures { WalkedOf (rules (lent_in day lists.now)) tally piece.now table.old result table.new }
{
    let mut t = tally;
    let mut rest = piece;
    while t.phase <= 1 {
        let Some((record, after)) = rest.split_at_checked(size_of(t.phase, rest)) else {
            break;
        };
        t = record_read(t, record, day, lists, table);
        rest = after;
    }
    Walked { tally: t, rest }
}

// What a piece leaves: the tally, and how many bytes are held of a record begun.
#[derive(Clone, Copy)]
struct Left {
    tally: Tally,
    fill: usize,
}

// Zeros from a place on.
fn cleared(held: &mut [u8; frame::ITEM_ENDED], from: usize)
    requires { from ≤ longest }
    ensures { held.new ≡ pad (take from held.old) }
{
    held[from..].fill(0);
}

// What is left of a piece after its whole records is held; after the foot it is a break.
fn ended(tally: Tally, held: &mut [u8; frame::ITEM_ENDED], x: &[u8]) -> Left
    requires { Partial tally x.now }
    ensures { EndedAs tally x.now result held.new }
{
    if tally.phase <= 1 {
        text::put(held, x);
        cleared(held, x.len());
        return Left {
            tally,
            fill: x.len(),
        };
    }
    cleared(held, 0);
    if tally.phase == 2 {
        if x.len() > 0 {
            return Left {
                tally: phased(3, tally),
                fill: 0,
            };
        }
    }
    Left { tally, fill: 0 }
}

// From a place of the piece on, with nothing held: whole records straight out of the piece, then what is left.
fn onward(
    tally: Tally,
    held: &mut [u8; frame::ITEM_ENDED],
    piece: &[u8],
    from: usize,
    day: u32,
    lists: &Lists,
    table: &mut [u8],
) -> Left
    requires ready { Ready tally table.old }
    requires from_in_bounds { from ≤ length piece.now }
    ensures { Became (run (rules (lent_in day lists.now)) (state_with tally [] table.old)
        (drop from piece.now)) result held.new table.new }
{
    let w = walk(tally, &piece[from..], day, lists, table);
    ended(w.tally, held, w.rest)
}

// A piece is read: the record begun, if one is, is completed where it stands and judged, and then what follows it.
fn fed(
    tally: Tally,
    fill: usize,
    held: &mut [u8; frame::ITEM_ENDED],
    piece: &[u8],
    day: u32,
    lists: &Lists,
    table: &mut [u8],
) -> Left
    requires { Fit tally fill held.old table.old }
    ensures { Became (run (rules (lent_in day lists.now))
        (state_with tally (take fill held.old) table.old) piece.now) result held.new table.new }
{
    if fill == 0 {
        return onward(tally, held, piece, 0, day, lists, table);
    }
    if piece.len() == 0 {
        cleared(held, fill);
        return Left { tally, fill };
    }
    // with a byte more at least two are held, and the kind of the record shows
    held[fill] = piece[0];
    let n = size_of(tally.phase, held) - fill;
    if piece.len() < n {
        text::put(&mut held[fill..], piece);
        let end = fill + piece.len();
        cleared(held, end);
        return Left { tally, fill: end };
    }
    text::put(&mut held[fill..], &piece[..n]);
    let t = record_read(tally, &held[..fill + n], day, lists, table);
    onward(t, held, piece, n, day, lists, table)
}

// The record begun isn't whole, and none is begun after the foot, a break or an overflow.
fn holds(phase: u8, fill: usize, held: &[u8; frame::ITEM_ENDED]) -> bool
    ensures { result ≡ held_in_range phase fill held.now }
{
    if phase > 1 {
        return fill == 0;
    }
    if fill >= frame::ITEM_ENDED {
        return false;
    }
    fill < size_of(phase, &held[..fill])
}

// The session is open, with every number in its range.
#[tactic(auto, unfolding(crate::specs::Session::in_range))]
fn in_range(
    day: u32,
    room: usize,
    tally: Tally,
    fill: usize,
    held: &[u8; frame::ITEM_ENDED],
) -> bool
    ensures { result ≡ in_range (parts_of day room tally fill held.now) }
{
    if !calendar::is_date(day) {
        return false;
    }
    if room > Session::MOST {
        return false;
    }
    if !tally_in_range(room, tally) {
        return false;
    }
    holds(tally.phase, fill, held)
}

// Whether a piece may be taken, beside a table of so many bytes: refusals 5, 2, 3, 15, 4.
#[tactic(auto, unfolding(crate::specs::Session::piece_refused))]
fn refusal_of(
    day: u32,
    room: usize,
    tally: Tally,
    fill: usize,
    held: &[u8; frame::ITEM_ENDED],
    lists: &Lists,
    len: usize,
) -> Result<(), Refusal>
    ensures { result ≡ piece_refused (parts_of day room tally fill held.now) (listed_in lists.now) len }
{
    if !in_range(day, room, tally, fill, held) {
        return Err(Refusal::Session);
    }
    lists.refused()?;
    if len != room {
        return Err(Refusal::Table);
    }
    Ok(())
}

// A piece is taken where the session is in parts, with as many bytes lent for those held as the longest record has: refusals 5, 2, 3, 15, 4.
// After a refusal all that is lent is as it was.
pub fn take_lent(
    day: u32,
    room: usize,
    tally: Tally,
    fill: usize,
    held: &mut [u8],
    piece: &[u8],
    lists: &Lists,
    table: &mut [u8],
) -> Step
    ensures { Stepped day room tally fill held.old piece.now
        (listed_in lists.now) table.old result held.new table.new }
{
    let Some(held) = held.as_mut_array::<{ frame::ITEM_ENDED }>() else {
        return Step {
            tally,
            fill,
            outcome: Err(Refusal::Session),
        };
    };
    match refusal_of(day, room, tally, fill, held, lists, table.len()) {
        Err(r) => Step {
            tally,
            fill,
            outcome: Err(r),
        },
        Ok(()) => {
            let l = fed(tally, fill, held, piece, day, lists, table);
            Step {
                tally: l.tally,
                fill: l.fill,
                outcome: Ok(()),
            }
        }
    }
}

impl Session {
    // The lengths of head, item and foot, without their ending.
    pub const HEAD: usize = frame::HEAD;

    pub const ITEM: usize = frame::ITEM;

    pub const FOOT: usize = frame::FOOT;

    // The most bytes that a code table may have.
    pub const MOST: usize = 10000;

    // No session, or one that was closed.
    fn closed() -> Session
        ensures { result ≡ closed_session }
    {
        Session {
            day: 0,
            room: 0,
            tally: unread(5),
            fill: 0,
            held: [0u8; frame::ITEM_ENDED],
        }
    }

    // A fresh session for a clearing day and a code table: refusals 1, 4.
    #[tactic(auto, using(crate::proofs::Held::pad_none), unfolding(crate::specs::Session::opened, crate::specs::Session::open_refused))]
    pub fn open(day: u32, table: &[u8]) -> Taken
        ensures { result ≡ opened day table.now }
    {
        if !calendar::is_date(day) {
            return Taken {
                outcome: Err(Refusal::NotADay),
                next: Session::closed(),
            };
        }
        if table.len() > Session::MOST {
            return Taken {
                outcome: Err(Refusal::Table),
                next: Session::closed(),
            };
        }
        Taken {
            outcome: Ok(()),
            next: Session {
                day,
                room: table.len(),
                tally: unread(0),
                fill: 0,
                held: [0u8; frame::ITEM_ENDED],
            },
        }
    }

    // The session is open, with every number in its range.
    fn in_range(self) -> bool
        ensures { result ≡ in_range self }
    {
        in_range(self.day, self.room, self.tally, self.fill, &self.held)
    }

    // A piece is taken: refusals 5, 2, 3, 15, 4.
    pub fn take(self, piece: &[u8], lists: &Lists, table: &mut [u8]) -> Taken
        ensures { Took self piece.now (listed_in lists.now) table.old result table.new }
    {
        let mut held = self.held;
        let step = take_lent(
            self.day, self.room, self.tally, self.fill, &mut held, piece, lists, table,
        );
        Taken {
            outcome: step.outcome,
            next: Session {
                tally: step.tally,
                fill: step.fill,
                held,
                ..self
            },
        }
    }

    // The message is over: refusals 5, 6. The verdict, and a closed session; the session as it was where it is none.
    #[tactic(auto, using(crate::proofs::Held::closing_early), unfolding(crate::specs::Session::closed_of, frame::specs::Machine::closing))]
    pub fn close(self) -> Closed
        ensures { result ≡ closed_of self }
    {
        if !self.in_range() {
            return Closed {
                closing: Err(Refusal::Session),
                next: self,
            };
        }
        if self.tally.phase == 4 {
            return Closed {
                closing: Err(Refusal::Overflow),
                next: Session::closed(),
            };
        }
        Closed {
            closing: Ok(closing_of(self.tally)),
            next: Session::closed(),
        }
    }
}

// The kind of message, a code with the five numbers at 0, and an identifier.
fn blank(kind: u32, code: u8, id: [u8; 25]) -> Closing
    ensures { result ≡ blank kind code id }
{
    Closing {
        code,
        kind,
        accepted: Totals { count: 0, sum: 0 },
        refused: Totals { count: 0, sum: 0 },
        zeros: 0,
        id,
    }
}

// What closing gives for a tally that is not overflown.
fn closing_of(t: Tally) -> Closing
    requires { t.phase ≤ 3 }
    ensures { result ≡ (closing t).closing }
{
    let id = t.id;
    let kind = t.told.kind as u32;
    if t.phase != 2 {
        return blank(kind, 26, id);
    }
    if t.letter {
        return blank(kind, 36, id);
    }
    if t.code != 0 {
        return blank(kind, t.code, id);
    }
    Closing {
        code: 0,
        kind,
        accepted: t.accepted,
        refused: t.refused,
        zeros: t.zeros,
        id,
    }
}

// A closing; where it was refused, what stands beside the refusal's number: kind 0, the five numbers at 0, and spaces (docs/DECISIONS.md, 36).
pub fn or_no_closing(closing: Result<Closing, Refusal>) -> Closing
    ensures { result ≡ or_no_closing closing }
{
    closing.unwrap_or(blank(0, 0, [b' '; 25]))
}
