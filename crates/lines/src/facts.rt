// What a STATUS says, a fact a line: the lines of its head and foot, and the line of a reference (01, Records).
ghost use Rattle.std.specs.Prelude.{◌≡◌, ◌+◌, ◌^◌, ◌≤◌, ◌<◌, ◌++◌, length};
ghost use Rattle.base.specs.Put.{Written, Put};
ghost use Rattle.lines.specs.Facts.{
  wide,
  fact,
  order_line,
  address_lines,
  own_lines,
  count_lines,
  status_text,
  item_line,
};

use crate::slip::{places, put_line, put_totals};
use frame::Status;

// How many digits a number gets that is to have at least so many.
pub(crate) fn width(least: usize, n: u64) -> usize
    ensures { (result ≡ wide least n) × (result ≤ least + 20) × (n < 10 ^ result) }
{
    places(n).max(least)
}

// A word, a number of at least so many digits, 0Ah.
pub(crate) fn put_fact(out: &mut [u8], at: usize, word: &[u8], least: usize, n: u64) -> usize
    requires { at + length (fact word.now least n) ≤ length out.old }
    ensures { Put out.old at (fact word.now least n) result out.new }
{
    put_line(out, at, word, width(least, n), n)
}

// Three texts, one after the other.
pub(crate) fn put_three(out: &mut [u8], at: usize, a: &[u8], b: &[u8], c: &[u8]) -> usize
    requires { at + length (a.now ++ b.now ++ c.now) ≤ length out.old }
    ensures { Put out.old at (a.now ++ b.now ++ c.now) result out.new }
{
    let i = text::put_at(out, at, a);
    let i = text::put_at(out, i, b);
    text::put_at(out, i, c)
}

// The order's positions 10-34: initiator, date and number.
fn put_order(out: &mut [u8], at: usize, id: &[u8]) -> usize
    requires { (length id.now ≡ 25) × (at + length (order_line id.now) ≤ length out.old) }
    ensures { Put out.old at (order_line id.now) result out.new }
{
    let i = put_three(out, at, b"ORDER ", &id[0..13], b" ");
    let i = put_three(out, i, &id[13..21], b" ", &id[21..25]);
    text::put_at(out, i, b"\n")
}

// The lines of positions 9-34 of the head.
fn put_address(out: &mut [u8], at: usize, s: Status) -> usize
    requires { at + length (address_lines s) ≤ length out.old }
    ensures { Put out.old at (address_lines s) result out.new }
{
    let i = put_order(out, at, &s.id);
    put_three(out, i, b"DUPLICATE ", &[s.duplicate], b"\n")
}

// The lines of positions 35-54 of the head.
fn put_own(out: &mut [u8], at: usize, s: Status) -> usize
    requires { at + length (own_lines s) ≤ length out.old }
    ensures { Put out.old at (own_lines s) result out.new }
{
    let i = put_fact(out, at, b"DATE ", 8, s.date as u64);
    let i = put_fact(out, i, b"NUMBER ", 1, s.number as u64);
    let i = put_fact(out, i, b"TIME ", 6, s.time as u64);
    put_fact(out, i, b"CODE ", 2, s.code as u64)
}

// The lines of the foot, and how many references there are.
fn put_counts(out: &mut [u8], at: usize, s: Status) -> usize
    requires { at + length (count_lines s) ≤ length out.old }
    ensures { Put out.old at (count_lines s) result out.new }
{
    let i = put_totals(out, at, b"ACCEPTED ", s.accepted);
    let i = put_totals(out, i, b"REFUSED ", s.refused);
    put_fact(out, i, b"REFERENCES ", 1, s.references as u64)
}

// How long the line of the order's positions 10-34 is.
fn order_length(id: &[u8]) -> usize
    requires { length id.now ≡ 25 }
    ensures { (result ≡ length (order_line id.now)) × (result ≡ 34) }
{
    9 + id.len()
}

// How long the lines of the head are.
fn head_length(s: Status) -> usize
    ensures { (result ≡ length (address_lines s ++ own_lines s)) × (result ≤ 200) }
{
    let n = width(8, s.date as u64) + width(1, s.number as u64);
    38 + order_length(&s.id) + n + width(6, s.time as u64) + width(2, s.code as u64)
}

// How long the lines of the foot are.
fn counts_length(s: Status) -> usize
    ensures { (result ≡ length (count_lines s)) × (result ≤ 200) }
{
    let accepted = places(s.accepted.count) + places(s.accepted.sum);
    let refused = places(s.refused.count) + places(s.refused.sum);
    33 + accepted + refused + width(1, s.references as u64)
}

// What a STATUS says, without its references, at the front of the output; the length, or 0 where it is too short, and then it
// stays as it was.
pub fn put_status(out: &mut [u8], s: Status) -> usize
    ensures { Written (status_text s) out.old result out.new }
{
    if out.len() < head_length(s) + counts_length(s) {
        return 0;
    }
    let i = put_address(out, 0, s);
    let i = put_own(out, i, s);
    put_counts(out, i, s)
}

// The line of the reference at a place, likewise.
pub fn put_item(out: &mut [u8], place: u64, code: u8) -> usize
    ensures { Written (item_line place code) out.old result out.new }
{
    let w = places(place);
    if out.len() < 7 + w + width(2, code as u64) {
        return 0;
    }
    let i = text::put_at(out, 0, b"ITEM ");
    let i = digits::put_at(out, i, w, place);
    put_fact(out, i, b" ", 2, code as u64)
}
