// The calls of a host: the judge as functions over numbers and lent memory. `nshanvekh_c` gives each of them to C.
// A session is bytes that the host keeps, `packed::BYTES` of them. Buffers of a wrong size are refused with 99 before anything else.
#![tactic(auto)]

ghost use Rattle.std.specs.Prelude.{◌≡◌, [], length};
ghost use Rattle.single.specs.Single.{single_answer};
ghost use Rattle.lent.specs.Lent.{outcome_number, listed, lent};
ghost use Rattle.nshanvekh.specs.Session.{OpenedAs, PieceAs, ClosedAs, ClosingTold};
ghost use Rattle.nshanvekh.specs.Covers.{FedjelTold, FedjelAs, FedstaAs};
ghost use Rattle.nshanvekh.specs.Message.{JudgedNumbers, particulars_of, RepliedAs, StatusAs, StatusTold, ReplyTold};
ghost use Rattle.single.specs.Numbers.{single_number};

use cover::Judged;
use frame::{Closing, Status};
use judge::Session;
use lent::{Lists, Refusal};
use status::reply::Particulars;

// Kept: numbers for refusals, here and in each call below: the C interface.
// The number of what a call gives: 0, or the refusal's.
fn number_of<T: Copy>(given: Result<T, Refusal>) -> u32
    ensures { result ≡ outcome_number given }
{
    match given {
        Ok(_) => 0,
        Err(r) => u8::from(r) as u32,
    }
}

// What closing gives is written; a refusal writes nothing.
#[tactic(auto, unfolding(crate::specs::Session::closing_numbers))]
fn tell(closing: Result<Closing, Refusal>, numbers: &mut [u64], id: &mut [u8]) -> u32
    requires { (length numbers.old ≡ 7) × (length id.old ≡ 25) }
    ensures { ClosingTold closing numbers.old id.old result numbers.new id.new }
{
    if let Ok(k) = closing {
        numbers.copy_from_slice(&[
            k.code as u64,
            k.accepted.count,
            k.accepted.sum,
            k.refused.count,
            k.refused.sum,
            k.zeros,
            k.kind as u64,
        ]);
        id.copy_from_slice(&k.id);
    }
    number_of(closing)
}

// A session is opened for a clearing day and a code table: refusals 99, 1, 4. After 1 and 4 the buffer holds a closed session.
pub fn nsh_open(day: u32, table: &[u8], session: &mut [u8]) -> u32
    ensures { OpenedAs day table.now session.old result session.new }
{
    if session.len() != packed::BYTES {
        return 99;
    }
    let t = Session::open(day, table);
    packed::pack(t.next, session);
    number_of(t.outcome)
}

// A piece is taken: refusals 99, 5, 2, 3, 15, 4. A refusal leaves session and table as they were.
pub fn nsh_piece(
    session: &mut [u8],
    bytes: &[u8],
    banks: &[u32],
    known: &[u8],
    barred: &[u32],
    table: &mut [u8],
) -> u32
    ensures { PieceAs session.old bytes.now (listed banks.now known.now barred.now)
        table.old result session.new table.new }
{
    if session.len() != packed::BYTES {
        return 99;
    }
    let lists = Lists {
        banks,
        known,
        barred,
    };
    number_of(packed::take(session, bytes, &lists, table))
}

// The message is over: refusals 99, 5, 6. 5 leaves all that is lent as it was, 6 closes the session and writes nothing else.
pub fn nsh_close(session: &mut [u8], numbers: &mut [u64], id: &mut [u8]) -> u32
    ensures { ClosedAs session.old numbers.old id.old
        result session.new numbers.new id.new }
{
    if !((session.len() == packed::BYTES) & ((numbers.len() == 7) & (id.len() == 25))) {
        return 99;
    }
    let s = packed::unpack(session);
    let c = s.close();
    let n = number_of(c.closing);
    if n == 5 {
        return n;
    }
    packed::pack(c.next, session);
    tell(c.closing, numbers, id)
}

// A whole message is judged: refusals 99, 1, 4, 2, 3, 15, 6. Where it is refused, numbers and identifier stay as they were.
pub fn nsh_judge(
    message: &[u8],
    day: u32,
    banks: &[u32],
    known: &[u8],
    barred: &[u32],
    table: &mut [u8],
    numbers: &mut [u64],
    id: &mut [u8],
) -> u32
    ensures { JudgedNumbers message.now (lent day banks.now known.now barred.now)
        table.old numbers.old id.old result table.new numbers.new id.new }
{
    if !((numbers.len() == 7) & (id.len() == 25)) {
        return 99;
    }
    let lists = Lists {
        banks,
        known,
        barred,
    };
    tell(message::judge(day, &lists, table, message), numbers, id)
}

// A single head or item, without its ending, at place k of a message of a kind, 1 for BESZED and any other number for ATUTAL; a head tells its
// kind itself: 0, a refusal (1, 2, 3, 10), or the field and the kind of its fault.
pub fn nsh_single(x: &[u8], day: u32, banks: &[u32], known: &[u8], place: u32, kind: u32) -> u32
    ensures { result ≡ single_number (single_answer (lent day banks.now known.now []) kind place x.now) }
{
    single::number(single::answer(x, place as u64, kind, day, banks, known))
}

// What a caller says of a reply or a FEDSTA.
fn particulars(duplicate: u8, number: u32, time: u32) -> Particulars
    ensures { result ≡ particulars_of duplicate number time }
{
    Particulars {
        duplicate,
        number,
        time,
    }
}

// The reply's length is written; a refusal writes nothing.
fn tell_reply(written: Result<usize, Refusal>, numbers: &mut [u64]) -> u32
    requires { length numbers.old ≡ 1 }
    ensures { ReplyTold written numbers.old result numbers.new }
{
    if let Ok(n) = written {
        numbers[0] = n as u64;
    }
    number_of(written)
}

// The reply to a whole message goes to the front of the output: refusals 99, 1, 2, 3, 15, 6, 7, 8, 9.
pub fn nsh_reply(
    message: &[u8],
    day: u32,
    banks: &[u32],
    known: &[u8],
    barred: &[u32],
    duplicate: u8,
    number: u32,
    time: u32,
    out: &mut [u8],
    numbers: &mut [u64],
) -> u32
    ensures { RepliedAs message.now (lent day banks.now known.now barred.now)
        duplicate number time out.old numbers.old result out.new numbers.new }
{
    if numbers.len() != 1 {
        return 99;
    }
    let p = particulars(duplicate, number, time);
    let lists = Lists {
        banks,
        known,
        barred,
    };
    tell_reply(status::reply::write(day, &lists, message, p, out), numbers)
}

// What a STATUS says is written; a refusal writes nothing.
#[tactic(auto, unfolding(crate::specs::Message::status_numbers))]
fn tell_status(read: Result<Status, Refusal>, numbers: &mut [u64], id: &mut [u8]) -> u32
    requires { (length numbers.old ≡ 10) × (length id.old ≡ 25) }
    ensures { StatusTold read numbers.old id.old result numbers.new id.new }
{
    if let Ok(s) = read {
        numbers.copy_from_slice(&[
            s.duplicate as u64,
            s.date as u64,
            s.number as u64,
            s.time as u64,
            s.code as u64,
            s.accepted.count,
            s.accepted.sum,
            s.refused.count,
            s.refused.sum,
            s.references as u64,
        ]);
        id.copy_from_slice(&s.id);
    }
    number_of(read)
}

// A STATUS is read: refusals 99, 10, 9. The k-th reference's code goes to byte k of the table; a refusal alters nothing.
pub fn nsh_read_status(bytes: &[u8], table: &mut [u8], numbers: &mut [u64], id: &mut [u8]) -> u32
    ensures { StatusAs bytes.now table.old numbers.old id.old
        result table.new numbers.new id.new }
{
    if !((numbers.len() == 10) & (id.len() == 25)) {
        return 99;
    }
    tell_status(reading::read_status(bytes, table), numbers, id)
}

// What judging a FEDJEL gives is written; a refusal writes nothing.
fn tell_fedjel(judged: Result<Judged, Refusal>, numbers: &mut [u64]) -> u32
    requires { length numbers.old ≡ 2 }
    ensures { FedjelTold judged numbers.old result numbers.new }
{
    if let Ok(j) = judged {
        numbers.copy_from_slice(&[j.code as u64, j.items as u64]);
    }
    number_of(judged)
}

// A FEDJEL is judged, whole: refusals 99, 1, 11, 12, 9. The k-th item's code goes to byte k of the table; a refusal alters nothing (02 #103).
pub fn nsh_fedjel(
    message: &[u8],
    day: u32,
    requests: &[u8],
    table: &mut [u8],
    numbers: &mut [u64],
) -> u32
    ensures { FedjelAs message.now day requests.now table.old numbers.old
        result table.new numbers.new }
{
    if numbers.len() != 2 {
        return 99;
    }
    tell_fedjel(cover::judge(day, requests, message, table), numbers)
}

// The FEDSTA of a request goes to the front of the output: refusals 99, 1, 11, 12, 13, 8, 9. Cover is yes for 1 alone, so that a stray value
// pays nothing (02 #103).
pub fn nsh_fedsta(
    message: &[u8],
    day: u32,
    requests: &[u8],
    id: &[u8],
    cover: u8,
    duplicate: u8,
    number: u32,
    time: u32,
    count: u32,
    out: &mut [u8],
) -> u32
    ensures { FedstaAs message.now day requests.now id.now cover duplicate number time count out.old
        result out.new }
{
    if id.len() != 25 {
        return 99;
    }
    let p = particulars(duplicate, number, time);
    let mut own = [0u8; 25];
    own.copy_from_slice(id);
    number_of(status::fedsta::write(day, requests, message, own, cover == 1, p, count, out))
}
