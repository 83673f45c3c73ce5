// The head and the foot that STATUS and FEDSTA share, each at the front of what is lent (002 3.1, 3.2; 4.1, 4.2).
ghost use Rattle.std.specs.Prelude.{◌≡◌, ◌≤◌, length};
ghost use Rattle.base.specs.Bytes.{over};
ghost use Rattle.status.specs.Records.{head_record, foot_record};
ghost use Rattle.status.specs.Writing.{address, own, totals, Countable, Writable};

use frame::{Status, Totals};

// Positions 1-34 of the head: its type, the message type, the duplicate code and the order's address.
fn put_address(out: &mut [u8], kind: &[u8], duplicate: u8, id: &[u8])
    requires { (34 ≤ length out.old) × (length kind.now ≡ 6) × (length id.now ≡ 25) }
    ensures { out.new ≡ over out.old 0 (address kind.now duplicate id.now) }
{
    text::put_at(out, 0, b"01");
    text::put_at(out, 2, kind);
    text::put_at(out, 8, &[duplicate]);
    text::put_at(out, 9, id);
}

// Positions 35-54 of the head and its ending, at the front of what is lent.
fn put_own(out: &mut [u8], s: Status)
    requires { (22 ≤ length out.old) × Writable s }
    ensures { out.new ≡ over out.old 0 (own s) }
{
    digits::put_at(out, 0, 8, s.date as u64);
    digits::put_at(out, 8, 4, s.number as u64);
    digits::put_at(out, 12, 6, s.time as u64);
    digits::put_at(out, 18, 2, s.code as u64);
    text::put_at(out, 20, b"\r\n");
}

// The head, 54 bytes and its ending, at the front of what is lent.
pub(crate) fn put_head(out: &mut [u8], kind: &[u8], s: Status)
    requires { (56 ≤ length out.old) × (length kind.now ≡ 6) × Writable s }
    ensures { out.new ≡ over out.old 0 (head_record kind.now s) }
{
    put_address(out, kind, s.duplicate, &s.id);
    put_own(&mut out[34..], s);
}

// The four totals of a foot, 44 bytes, at the front of what is lent.
fn put_totals(out: &mut [u8], accepted: Totals, refused: Totals)
    requires { (44 ≤ length out.old) × Countable accepted × Countable refused }
    ensures { out.new ≡ over out.old 0 (totals accepted refused) }
{
    digits::put_at(out, 0, 6, accepted.count);
    digits::put_at(out, 6, 16, accepted.sum);
    digits::put_at(out, 22, 6, refused.count);
    digits::put_at(out, 28, 16, refused.sum);
}

// The foot, 46 bytes and its ending, at the front of what is lent.
pub(crate) fn put_foot(out: &mut [u8], s: Status)
    requires { (48 ≤ length out.old) × Writable s }
    ensures { out.new ≡ over out.old 0 (foot_record s) }
{
    text::put_at(out, 0, b"03");
    put_totals(&mut out[2..], s.accepted, s.refused);
    text::put_at(out, 46, b"\r\n");
}
