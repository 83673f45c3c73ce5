// A FEDJEL's records, and the code of each of its items against the day's cover requests (02 #103; 002 sections 12.1 to 12.4).
#![tactic(auto)]

ghost use Rattle.std.specs.Prelude.{◌≡◌, ◌/◌, length, set, position};
ghost use Rattle.base.specs.Groups.{groups, all};
ghost use Rattle.base.specs.Tables.{first_given};
ghost use Rattle.frame.specs.Records.{ended};
ghost use Rattle.requests.specs.Requests.{requests_of};
ghost use Rattle.answers.specs.Fedjel.{item_count, item_bytes, items_in, items_of, is_fedjel};
ghost use Rattle.answers.specs.Answers.{together, rightly, fault_rows, item_code, WithCodes};

use requests::REQUEST;

// The bytes of a head with its ending (002 12.1).
pub const HEAD_ENDED: usize = 34;

// The bytes of an item without its ending (002 12.3, 12.4).
pub const ITEM: usize = 70;

// The bytes of an item with it.
pub const ITEM_ENDED: usize = 72;

// The bytes of a foot without its ending (002 12.2).
pub const FOOT: usize = 42;

// How many items a message of this length has.
pub fn count(message: &[u8]) -> usize
    ensures { result ≡ item_count message.now }
{
    message.len().saturating_sub(78) / ITEM_ENDED
}

// The items of a message, end to end, each with its ending.
pub fn items(message: &[u8]) -> &[u8]
    ensures { result.now ≡ item_bytes message.now }
{
    let n = count(message);
    if n == 0 {
        return &[];
    }
    &message[HEAD_ENDED..HEAD_ENDED + n * ITEM_ENDED]
}

// Whether each of the items has its ending.
fn all_ended(items: &[u8]) -> bool
    ensures { result ≡ all (ended 70) (groups 72 72 (length items.now / 72) items.now) }
{
    items
        .chunks_exact(ITEM_ENDED)
        .all(|i| frame::has_ending(i, ITEM))
}

// Whether the bytes pass as a FEDJEL: a head, one item at least and a foot by their lengths and endings (02 #103, refusal 12).
pub fn is_fedjel(message: &[u8]) -> bool
    ensures { result ≡ is_fedjel message.now }
{
    if message.len() < 150 {
        return false;
    }
    if (message.len() - 78) % ITEM_ENDED != 0 {
        return false;
    }
    let foot = HEAD_ENDED + count(message) * ITEM_ENDED;
    frame::has_ending(message, 32)
        && all_ended(items(message))
        && frame::has_ending(&message[foot..], FOOT)
}

// Whether type and answer go together (002 12.4.1, T525).
fn goes_together(item: &[u8; ITEM]) -> bool
    ensures { result ≡ together item.now }
{
    let t = item[1];
    let a = item[67];
    (item[0] == b'0')
        & ((t == b'2') & (a == b'1') | (t == b'3') & ((a == b'0') | ((a == b'9') | (a == b'5'))))
}

// Whether the item answers the request rightly: its positions 3-67 are the request, and type and answer go together.
fn is_right(item: &[u8; ITEM], request: &[u8]) -> bool
    ensures { result ≡ rightly request.now item.now }
{
    text::is_same(&item[2..67], request) && goes_together(item)
}

// The place of the first of the items that answers the request rightly.
fn first_right(items: &[u8], request: &[u8]) -> Option<usize>
    ensures { result ≡ position (rightly request.now) (items_in items.now) }
{
    items
        .chunks_exact(ITEM_ENDED)
        .position(|i| is_right(i.first_chunk().unwrap(), request))
}

// The place of the first item of the message that answers the request rightly.
pub fn answer_to(message: &[u8], request: &[u8]) -> Option<usize>
    ensures { result ≡ position (rightly request.now) (items_of message.now) }
{
    first_right(items(message), request)
}

// The code of an item beside its request: account 71, sum 89, type and answer 76, or 0 (002 12.4.1).
// Kept: (a) a number for none: 0 is the code that the standard gives an item without a fault, and what `first_given` says.
fn fault(item: &[u8; ITEM], request: &[u8; REQUEST]) -> u8
    ensures { result ≡ first_given (fault_rows request.now item.now) }
{
    if !text::is_same(&item[27..51], &request[25..49]) {
        return 71;
    }
    if !text::is_same(&item[51..67], &request[49..65]) {
        return 89;
    }
    if !goes_together(item) {
        return 76;
    }
    0
}

// The code of an item after earlier ones (002 12.4.1), which are looked through for a right answer to its request.
fn code_of(list: &[u8], earlier: &[u8], item: &[u8; ITEM]) -> u8
    ensures { result ≡ item_code (requests_of list.now) (items_in earlier.now) item.now }
{
    let Some(j) = requests::find(list, &item[2..27]) else {
        return 74;
    };
    let request = &list.as_chunks().0[j];
    if first_right(earlier, request).is_some() {
        return 75;
    }
    fault(item, request)
}

// A code at its place of the table, where the table has that place.
fn put_code(table: &mut [u8], k: usize, code: u8)
    ensures { table.new ≡ set table.old k code }
{
    // Kept: (c) with `if let Some(b) = table.get_mut(k)` no proof knows the table's bytes after the borrow (put_code's `returns`).
    if k < table.len() {
        table[k] = code;
    }
}

// The k-th item's code goes to byte k of the table, as far as the table reaches; the answer is whether some item has a code other than 0.
pub fn put_codes(message: &[u8], list: &[u8], table: &mut [u8]) -> bool
    ensures { WithCodes (requests_of list.now) (items_of message.now) table.old result table.new }
{
    let items = items(message);
    let mut faulty = false;
    for k in 0..count(message) {
        let (earlier, left) = items.split_at(k * ITEM_ENDED);
        let c = code_of(list, earlier, left.first_chunk().unwrap());
        put_code(table, k, c);
        faulty |= c != 0;
    }
    faulty
}
