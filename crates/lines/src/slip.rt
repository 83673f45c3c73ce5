// What the slip program prints: the five lines of a closing, or a refusal's number (01, Examples; 02, #101).
ghost use Rattle.std.specs.Prelude.{◌≡◌, ◌+◌, ◌^◌, ◌≤◌, ◌<◌, length};
ghost use Rattle.base.specs.Put.{Written, Put};
ghost use Rattle.lines.specs.Slip.{places, code_width, line, totals_line, kind_line, front_lines, slip_of, refusal_line};

use frame::{Closing, Totals};
use lent::Refusal;

// How many digits a number has, 1 for 0.
pub(crate) fn places(n: u64) -> usize
    ensures { (result ≡ places n) × (result ≤ 20) × (n < 10 ^ result) }
{
    match n.checked_ilog10() {
        Some(k) => k as usize + 1,
        None => 1,
    }
}

// How many digits a message code has.
fn code_width(code: u8) -> usize
    ensures { (result ≡ code_width code) × (result ≤ 3) × (code < 10 ^ result) }
{
    if code < 100 { 2 } else { 3 }
}

// Kept: bytes put by hand and no Display, here and wherever lines are put: `Written` says that an output that is too short stays as it was,
// where a `write!` that fails has written a part, so that the length is found before in either form.
// A word, a number of so many digits, 0Ah.
pub(crate) fn put_line(out: &mut [u8], at: usize, word: &[u8], w: usize, n: u64) -> usize
    requires { (at + length (line word.now w n) ≤ length out.old) × (n < 10 ^ w) }
    ensures { Put out.old at (line word.now w n) result out.new }
{
    let i = text::put_at(out, at, word);
    let i = digits::put_at(out, i, w, n);
    text::put_at(out, i, b"\n")
}

// A word, how many items, their sum, 0Ah.
pub(crate) fn put_totals(out: &mut [u8], at: usize, word: &[u8], t: Totals) -> usize
    requires { at + length (totals_line word.now t) ≤ length out.old }
    ensures { Put out.old at (totals_line word.now t) result out.new }
{
    let i = text::put_at(out, at, word);
    let i = digits::put_at(out, i, places(t.count), t.count);
    put_line(out, i, b" ", places(t.sum), t.sum)
}

// Kept: a number, here and in `put_front`: `Closing` has it so, and it is looked at once.
// The line of the kind that the head told: 1 is BESZED, any other number ATUTAL.
fn kind_line(kind: u32) -> [u8; 12]
    ensures { result ≡ kind_line kind }
{
    if kind == kinds::BESZED {
        *b"KIND BESZED\n"
    } else {
        *b"KIND ATUTAL\n"
    }
}

// The lines of the kind and of the message code, at the front of the output.
fn put_front(out: &mut [u8], kind: u32, code: u8) -> usize
    requires { length (front_lines kind code) ≤ length out.old }
    ensures { Put out.old 0 (front_lines kind code) result out.new }
{
    let i = text::put_at(out, 0, &kind_line(kind));
    put_line(out, i, b"MESSAGE ", code_width(code), code as u64)
}

// How long a closing's slip is.
fn slip_length(k: Closing) -> usize
    ensures { result ≡ length (slip_of k) }
{
    let accepted = places(k.accepted.count) + places(k.accepted.sum);
    let refused = places(k.refused.count) + places(k.refused.sum);
    48 + code_width(k.code) + accepted + refused + places(k.zeros)
}

// Kept: a length of 0 where the output is too short, and not an Option, here and at what is put "likewise": no text is empty, and each
// caller prints so many bytes, so that an Option would be taken apart at each for the same 0; no plainer.
// The five lines of a closing, at the front of the output; their length, or 0 where it is too short, and then it stays as it was.
pub fn put_closing(out: &mut [u8], k: Closing) -> usize
    ensures { Written (slip_of k) out.old result out.new }
{
    if out.len() < slip_length(k) {
        return 0;
    }
    let i = put_front(out, k.kind, k.code);
    let i = put_totals(out, i, b"ACCEPTED ", k.accepted);
    let i = put_totals(out, i, b"REFUSED ", k.refused);
    put_line(out, i, b"ZERO ", places(k.zeros), k.zeros)
}

// The line of a refusal, likewise.
pub fn put_refusal(out: &mut [u8], r: Refusal) -> usize
    ensures { Written (refusal_line r) out.old result out.new }
{
    let n = u64::from(u8::from(r));
    let w = places(n);
    if out.len() < 9 + w {
        return 0;
    }
    put_line(out, 0, b"REFUSAL ", w, n)
}
