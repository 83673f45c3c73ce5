// The reply to a message, each record straight into its place of the lent output (01, Calls and their answers).
ghost use Rattle.std.specs.Prelude.{◌≡◌, ◌+◌, ◌*◌, ◌^◌, ◌≤◌, ◌<◌, length, take};
ghost use Rattle.base.specs.Bytes.{over};
ghost use Rattle.frame.specs.Records.{lengths, items_of};
ghost use Rattle.lent.specs.Lent.{lent_in};
ghost use Rattle.judge.specs.Session.{most};
ghost use Rattle.status.specs.Records.{reference, references, written};
ghost use Rattle.status.specs.Reply.{has_address, is_time, are_particulars, saying, Replied};
ghost use Rattle.status.specs.Writing.{Writable, Referable};

use crate::records::{put_foot, put_head};
use crate::{FOOT, HEAD, REFERENCE};
use frame::Status;
use judge::Session;
use lent::{Lists, Refusal};

// What the caller says of a reply beside its date: duplicate code 0 or @, number to 9999, time hhmmss.
#[derive(Clone, Copy)]
pub struct Particulars {
    pub duplicate: u8,
    pub number: u32,
    pub time: u32,
}

// A reference, 63 bytes and its ending, at the front of what is lent.
fn put_reference(out: &mut [u8], place: u64, code: u8, item: &[u8])
    requires { (65 ≤ length out.old) × (length item.now ≡ lengths.item) × (place < 10 ^ 6) × (code < 10 ^ 2) }
    ensures { out.new ≡ over out.old 0 (reference place code item.now) }
{
    text::put_at(out, 0, b"02");
    digits::put_at(out, 2, 6, place);
    digits::put_at(out, 8, 2, code as u64);
    text::put_at(out, 10, &[b' '; 29]);
    text::put_at(out, 39, &item[50..74]);
    text::put_at(out, 63, b"\r\n");
}

// The references of the first n items, one after the other from the front of what is lent.
fn put_references(out: &mut [u8], message: &[u8], codes: &[u8], n: usize)
    requires referable { Referable message.now codes.now n }
    requires n_in_bounds { n * 65 ≤ length out.old }
    ensures { out.new ≡ over out.old 0 (references 1 codes.now (take n (items_of lengths message.now))) }
{
    for i in 0..n {
        let at = i * REFERENCE;
        let from = frame::HEAD_ENDED + i * frame::ITEM_ENDED;
        let item = &message[from..from + frame::ITEM];
        put_reference(&mut out[at..], i as u64 + 1, codes[i], item);
    }
}

// The whole reply: each record into its own part of the output.
fn put_reply(out: &mut [u8], s: Status, message: &[u8], codes: &[u8])
    requires writable { Writable s × Referable message.now codes.now s.references }
    requires references_in_bounds { 104 + s.references * 65 ≤ length out.old }
    ensures { out.new
        ≡ over out.old 0 (written s codes.now (take s.references (items_of lengths message.now))) }
{
    put_head(out, b"STATUS", s);
    put_references(&mut out[HEAD..], message, codes, s.references);
    put_foot(&mut out[HEAD + s.references * REFERENCE..], s);
}

// The message has an address for the reply.
#[tactic(auto, using(std::proofs::lemmas::Bool::Decides::nat_tests), unfolding(crate::specs::Reply::has_address))]
fn has_address(message: &[u8]) -> bool
    ensures { result ≡ has_address message.now }
{
    message.len() >= 34 && text::is_plain(&message[9..34])
}

// hhmmss by hours, minutes, seconds.
#[tactic(auto, unfolding(crate::specs::Reply::is_time))]
fn is_time(t: u32) -> bool
    ensures { result ≡ is_time t }
{
    (t / 10000 <= 23) & ((t / 100 % 100 <= 59) & (t % 100 <= 59))
}

// Duplicate code, number and time of a reply.
#[tactic(auto, unfolding(crate::specs::Reply::are_particulars))]
pub(crate) fn are_particulars(p: Particulars) -> bool
    ensures { result ≡ are_particulars p }
{
    fields::is_duplicate(p.duplicate) & ((p.number <= 9999) & is_time(p.time))
}

// What a reply says, with a reference for each item that the closing counts.
fn said(day: u32, id: [u8; 25], p: Particulars, c: frame::Closing) -> Status
    requires { c.accepted.count + c.refused.count ≤ most }
    ensures { result ≡ saying day id p c }
{
    Status {
        duplicate: p.duplicate,
        id,
        date: day,
        number: p.number,
        time: p.time,
        code: c.code,
        accepted: c.accepted,
        refused: c.refused,
        references: (c.accepted.count + c.refused.count) as usize,
    }
}

// The reply to the whole message goes to the front of the output: refusals 1, 2, 3, 15, 6, 7, 8, 9. What is given is its length.
pub fn write(
    day: u32,
    lists: &Lists,
    message: &[u8],
    particulars: Particulars,
    out: &mut [u8],
) -> Result<usize, Refusal>
    ensures { Replied (lent_in day lists.now) message.now particulars out.old result out.new }
{
    let mut codes = [0u8; Session::MOST];
    let closing = message::judge(day, lists, &mut codes, message)?;
    if !has_address(message) {
        return Err(Refusal::Address);
    }
    if !are_particulars(particulars) {
        return Err(Refusal::Particulars);
    }
    let s = said(day, frame::identifier(message), particulars, closing);
    let n = HEAD + FOOT + s.references * REFERENCE;
    if out.len() < n {
        return Err(Refusal::Room);
    }
    put_reply(out, s, message, &codes);
    Ok(n)
}
