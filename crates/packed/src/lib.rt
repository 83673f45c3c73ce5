// A session as bytes, for a host that keeps it in memory of its own (docs/SESSION.md, The session as bytes).
#![tactic(auto)]

ghost use Rattle.std.specs.Prelude.{◌≡◌, ◌+◌, ◌*◌, ◌≤◌, length, take, drop};
ghost use Rattle.base.specs.Bytes.{over};
ghost use Rattle.lent.specs.Lent.{listed_in};
ghost use Rattle.judge.specs.Session.{longest};
ghost use Rattle.packed.specs.Packed.{
  packed_bytes,
  little,
  value_at,
  totals_at,
  eights,
  is_packed,
  tally_in,
  session_in,
  unpacked,
  PackedAs,
  TakenIn,
  CountsPut,
  Named,
  TallyPut,
  SteppedIn,
};

use frame::{Tally, Told, Totals};
use judge::{Session, Step};
use lent::{Lists, Refusal};

// The bytes of a packed session: the bytes held come last.
pub const BYTES: usize = 93 + frame::ITEM_ENDED;

// Numbers in eight bytes each, the least first, one after the other from a place on.
fn put_eights(out: &mut [u8], at: usize, numbers: &[u64])
    requires { at + length numbers.now * 8 ≤ length out.old }
    ensures { out.new ≡ over out.old at (eights numbers.now) }
{
    for (i, n) in numbers.iter().enumerate() {
        text::put_at(out, at + i * 8, &n.to_le_bytes());
    }
}

// A tally's numbers and how many bytes are held, in their places.
fn put_counts(t: Tally, fill: usize, out: &mut [u8; BYTES])
    ensures { CountsPut t fill out.old out.new }
{
    let a = t.accepted;
    let r = t.refused;
    text::put_at(out, 1, &[t.phase, t.letter as u8, t.code]);
    text::put_at(out, 8, &[t.told.kind, t.told.barred as u8, 0, 0]);
    let numbers = [a.count, a.sum, r.count, r.sum, t.zeros, fill as u64];
    put_eights(out, 20, &numbers);
}

// A tally over the one before it, whose phase byte 1 tells: once the head was read, the identifier stands in its place already.
fn put_tally(t: Tally, fill: usize, out: &mut [u8; BYTES])
    requires { Named t out.old }
    ensures { TallyPut t fill out.old out.new }
{
    let read = out[1] != 0;
    put_counts(t, fill, out);
    if !read {
        text::put_at(out, 68, &t.id);
    }
}

// The bytes of a session, in place of all that is lent. Where that has another size, the answer is false and nothing is written.
pub fn pack(s: Session, out: &mut [u8]) -> bool
    ensures { PackedAs s out.old result out.new }
{
    let Some(out) = out.as_mut_array::<BYTES>() else {
        return false;
    };
    text::put_at(out, 0, &[1]);
    text::put_at(out, 4, &s.day.to_le_bytes());
    text::put_at(out, 12, &s.room.to_le_bytes());
    put_counts(s.tally, s.fill, out);
    text::put_at(out, 68, &s.tally.id);
    text::put_at(out, 93, &s.held);
    true
}

// The N bytes from a place on.
fn bytes_at<const N: usize>(x: &[u8], at: usize) -> [u8; N]
    requires { at + N ≤ length x.now }
    ensures { result ≡ take N (drop at x.now) }
{
    let mut bytes = [0u8; N];
    bytes.copy_from_slice(&x[at..at + N]);
    bytes
}

// The number in eight bytes at a place, the least first.
#[tactic(auto, using(crate::proofs::Little::eight_read))]
fn number_at(x: &[u8], at: usize) -> u64
    requires { at + 8 ≤ length x.now }
    ensures { result ≡ value_at 8 at x.now }
{
    u64::from_le_bytes(bytes_at(x, at))
}

// The day, in four bytes.
fn day_in(x: &[u8; BYTES]) -> u32
    ensures { result ≡ value_at 4 4 x.now }
{
    u32::from_le_bytes(bytes_at(x, 4))
}

// So many bytes are those of a session: the mark, a letter and a bar that are 0 or 1, and the two zeros.
#[tactic(auto, using(std::proofs::lemmas::Bool::Decides::nat_tests), unfolding(crate::specs::Packed::is_packed))]
fn is_packed(x: &[u8; BYTES]) -> bool
    ensures { result ≡ is_packed x.now }
{
    (x[0] == 1) & (x[2] <= 1) & (x[9] <= 1) & (x[10] == 0) & (x[11] == 0)
}

// A count and a sum from a place on.
fn totals_at(x: &[u8], at: usize) -> Totals
    requires { at + 16 ≤ length x.now }
    ensures { result ≡ totals_at at x.now }
{
    Totals {
        count: number_at(x, at),
        sum: number_at(x, at + 8),
    }
}

// The tally that bytes stand for. In line where it is called: a piece of one byte would cost more (docs/FIGURES.md).
#[inline(always)]
#[tactic(auto, unfolding(crate::specs::Packed::tally_in))]
fn tally_in(x: &[u8; BYTES]) -> Tally
    ensures { result ≡ tally_in x.now }
{
    Tally {
        phase: x[1],
        told: Told {
            kind: x[8],
            barred: x[9] == 1,
        },
        letter: x[2] == 1,
        code: x[3],
        accepted: totals_at(x, 20),
        refused: totals_at(x, 36),
        zeros: number_at(x, 52),
        id: bytes_at(x, 68),
    }
}

// The session that bytes stand for.
#[tactic(auto, unfolding(crate::specs::Packed::session_in))]
fn session_in(x: &[u8; BYTES]) -> Session
    ensures { result ≡ session_in x.now }
{
    Session {
        day: day_in(x),
        room: number_at(x, 12) as usize,
        tally: tally_in(x),
        fill: number_at(x, 60) as usize,
        held: bytes_at(x, 93),
    }
}

// The session that was packed; bytes that are those of none give the closed one, which each call refuses with 5.
#[tactic(auto, using(crate::proofs::Fields::long, crate::proofs::Fields::packed, crate::proofs::Fields::no_session))]
pub fn unpack(x: &[u8]) -> Session
    ensures { result ≡ unpacked x.now }
{
    if let Ok(packed) = <&[u8; BYTES]>::try_from(x) {
        if is_packed(packed) {
            return session_in(packed);
        }
    }
    // No day is 0, so that this opening gives the closed session.
    Session::open(0, x).next
}

// The session in the bytes takes a piece. The bytes held are worked on where they stand; nothing else of it is written.
fn step_in(session: &mut [u8; BYTES], bytes: &[u8], lists: &Lists, table: &mut [u8]) -> Step
    ensures { SteppedIn session.old bytes.now (listed_in lists.now) table.old result session.new table.new }
{
    let day = day_in(session);
    let room = number_at(session, 12) as usize;
    let tally = tally_in(session);
    let fill = number_at(session, 60) as usize;
    let held = &mut session[93..];
    judge::take_lent(day, room, tally, fill, held, bytes, lists, table)
}

// A piece is taken where the session stands as bytes: refusals 5, 2, 3, 15, 4. A refusal leaves session and table as they were.
pub fn take(
    session: &mut [u8],
    bytes: &[u8],
    lists: &Lists,
    table: &mut [u8],
) -> Result<(), Refusal>
    ensures { TakenIn session.old bytes.now (listed_in lists.now) table.old result session.new table.new }
{
    let Some(session) = session.as_mut_array::<BYTES>() else {
        return Err(Refusal::Session);
    };
    if !is_packed(session) {
        return Err(Refusal::Session);
    }
    let step = step_in(session, bytes, lists, table);
    step.outcome?;
    put_tally(step.tally, step.fill, session);
    Ok(())
}
