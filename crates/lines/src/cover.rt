// What is found of a FEDJEL: its code and how many items it has, and a line an item with the mark of a standing answer (02 #103).
ghost use Rattle.base.specs.Put.{Written};
ghost use Rattle.lines.specs.Cover.{verdict_lines, standing_line, answer_line};

use crate::facts::{put_fact, put_item, put_three, width};
use crate::slip::places;

// The message code and the number of items, at the front of the output; the length, or 0 where it is too short, and then it stays
// as it was.
pub fn put_verdict(out: &mut [u8], code: u8, items: u64) -> usize
    ensures { Written (verdict_lines code items) out.old result out.new }
{
    if out.len() < 16 + width(2, code as u64) + width(1, items) {
        return 0;
    }
    let i = put_fact(out, 0, b"MESSAGE ", 2, code as u64);
    put_fact(out, i, b"ITEMS ", 1, items)
}

// The line of the standing answer at a place, likewise.
fn put_standing(out: &mut [u8], place: u64, answer: u8) -> usize
    ensures { Written (standing_line place answer) out.old result out.new }
{
    let w = places(place);
    if out.len() < 18 + w {
        return 0;
    }
    let i = text::put_at(out, 0, b"ITEM ");
    let i = digits::put_at(out, i, w, place);
    put_three(out, i, b" 00 STANDS ", &[answer], b"\n")
}

// The line of the item at a place, likewise, by the message code, the item's own code and its answer. It stands where both codes are 0.
pub fn put_answer(out: &mut [u8], message: u8, place: u64, code: u8, answer: u8) -> usize
    ensures { Written (answer_line message place code answer) out.old result out.new }
{
    if (message == 0) & (code == 0) {
        return put_standing(out, place, answer);
    }
    put_item(out, place, code)
}
