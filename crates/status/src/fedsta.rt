// The answer on cover, a FEDSTA message: a head and a foot without references (002 4.1, 4.2; 02 #103).
ghost use Rattle.std.specs.Prelude.{◌≡◌, ◌≤◌, length};
ghost use Rattle.base.specs.Bytes.{over};
ghost use Rattle.status.specs.CoverStatus.{fedsta_bytes, state_of, only_if, cover_said, are_cover_particulars, WroteAs};
ghost use Rattle.status.specs.Writing.{Writable};

use crate::records::{put_foot, put_head};
use crate::reply::{Particulars, are_particulars};
use crate::{FOOT, HEAD};
use frame::{Status, Totals};
use lent::Refusal;

// The bytes of a FEDSTA: a head and a foot.
pub const BYTES: usize = HEAD + FOOT;

// The whole answer, 104 bytes, at the front of what is lent.
fn put_fedsta(out: &mut [u8], s: Status)
    requires { (104 ≤ length out.old) × Writable s }
    ensures { out.new ≡ over out.old 0 (fedsta_bytes s) }
{
    put_head(out, b"FEDSTA", s);
    put_foot(&mut out[HEAD..], s);
}

// The state that a standing answer gives (002 4.1).
#[tactic(auto, using(std::proofs::lemmas::Bool::Decides::nat_tests), unfolding(crate::specs::CoverStatus::state_of))]
fn state(answer: u8) -> u8
    ensures { result ≡ state_of answer }
{
    match answer {
        b'1' => 0,
        b'0' => 98,
        b'9' => 97,
        _ => 50,
    }
}

// A count and a sum where they belong, else zeros.
#[tactic(auto, unfolding(crate::specs::CoverStatus::only_if))]
fn only_if(own: bool, count: u32, sum: u64) -> Totals
    ensures { result ≡ only_if own count sum }
{
    if own {
        Totals {
            count: count as u64,
            sum,
        }
    } else {
        Totals { count: 0, sum: 0 }
    }
}

// What a FEDSTA says: the count given and the request's sum are accepted where the answer is 1, else refused.
#[tactic(auto, unfolding(crate::specs::CoverStatus::cover_said))]
fn said(day: u32, id: [u8; 25], p: Particulars, count: u32, answer: u8, sum: u64) -> Status
    ensures { result ≡ cover_said day id p count answer sum }
{
    let covered = answer == b'1';
    Status {
        duplicate: p.duplicate,
        id,
        date: day,
        number: p.number,
        time: p.time,
        code: state(answer),
        accepted: only_if(covered, count, sum),
        refused: only_if(!covered, count, sum),
        references: 0,
    }
}

// Duplicate code, number and time as in a reply, and a count of six digits (02 #103, refusal 8).
#[tactic(auto, unfolding(crate::specs::CoverStatus::are_cover_particulars))]
fn are_cover_particulars(p: Particulars, count: u32) -> bool
    ensures { result ≡ are_cover_particulars p count }
{
    are_particulars(p) & (count <= 999999)
}

// The FEDSTA of the request with an identifier goes to the front of the output: refusals 1, 11, 12, 13, 8, 9. `covers` says whether the
// bank itself has cover; it is looked at only where the standing answer is 1. `count` is the count of the order's accepted items.
pub fn write(
    day: u32,
    list: &[u8],
    message: &[u8],
    id: [u8; 25],
    covers: bool,
    particulars: Particulars,
    count: u32,
    out: &mut [u8],
) -> Result<(), Refusal>
    ensures { WroteAs day list.now message.now id covers particulars count out.old result out.new }
{
    let stood = cover::standing_to(day, list, message, &id)?;
    if (stood.answer == b'1') & !covers {
        return Err(Refusal::Standing);
    }
    if !are_cover_particulars(particulars, count) {
        return Err(Refusal::Particulars);
    }
    if out.len() < BYTES {
        return Err(Refusal::Room);
    }
    put_fedsta(
        out,
        said(day, id, particulars, count, stood.answer, stood.sum),
    );
    Ok(())
}
