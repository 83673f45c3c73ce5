// The message code of a FEDJEL: the first fault of head, items and foot (002 12.1.1, 12.2.1, 12.4.1; 02 #103).
ghost use Rattle.std.specs.Prelude.{◌≡◌, true, eqb};
ghost use Rattle.base.specs.Groups.{all};
ghost use Rattle.base.specs.Tables.{first_given};
ghost use Rattle.text.specs.Text.{is_plain};
ghost use Rattle.requests.specs.Requests.{requests_of};
ghost use Rattle.answers.specs.Fedjel.{items_in, items_of};
ghost use Rattle.cover.specs.Codes.{is_plain_message, is_typed, whole_rows, whole_rows_of_all, last_rows, code_with, message_code};

use crate::fedjel::Fedjel;
use crate::foot::{foot_code, totals};
use crate::head::{head_code, unless};
use answers::{ITEM, ITEM_ENDED};
use frame::Totals;

// Whether each byte of the items is 20h to 7Eh.
fn all_plain(items: &[u8]) -> bool
    ensures { result ≡ all is_plain (items_in items.now) }
{
    items
        .chunks_exact(ITEM_ENDED)
        .all(|i| text::is_plain(&i[..ITEM]))
}

// Whether each byte of each record is 20h to 7Eh (002 12, the last note before 12.1).
fn is_plain(f: &Fedjel) -> bool
    ensures { result ≡ is_plain_message f.now.message.now }
{
    text::is_plain(f.head()) && all_plain(f.items()) && text::is_plain(f.foot())
}

// The code of an item's first Ü fault, 0 if it has none: its type, its sum (002 12.4.1).
fn item_code(item: &[u8; ITEM]) -> u8
    ensures { result ≡ first_given (whole_rows item.now) }
{
    let t = &item[0..2];
    let c = unless(digits::is_digits(&item[51..67]), 34, 0);
    unless(text::is_same(t, b"02") | text::is_same(t, b"03"), 46, c)
}

// The code of the first of the items that has an Ü fault, 0 if none has.
fn items_code(items: &[u8]) -> u8
    ensures { result ≡ first_given (whole_rows_of_all (items_in items.now)) }
{
    for i in items.chunks_exact(ITEM_ENDED) {
        let c = item_code(i.first_chunk().unwrap());
        if c != 0 {
            return c;
        }
    }
    0
}

// The code of the foot of a message whose items have no Ü fault.
fn last_code(f: &Fedjel, faulty: bool) -> u8
    requires { all is_typed (items_of f.now.message.now) ≡ true }
    ensures { result ≡ first_given (last_rows faulty f.now.message.now) }
{
    let items = f.items();
    let a = totals(items, b'2');
    let b = totals(items, b'3');
    let all = Totals {
        count: answers::count(f.message) as u64,
        sum: a.sum + b.sum,
    };
    foot_code(f.foot(), a, b, all, faulty)
}

// The message code, told whether some item is faulty.
// Kept: (d) day, list and FEDJEL one by one: the two public calls take them so, and a struct would be made there only to be taken apart here.
pub(crate) fn code_with(day: u32, list: &[u8], f: &Fedjel, faulty: bool) -> u8
    ensures { result ≡ code_with faulty day (requests_of list.now) f.now.message.now }
{
    if !is_plain(f) {
        return 36;
    }
    let h = head_code(f.head(), day, list);
    if h != 0 {
        return h;
    }
    let i = items_code(f.items());
    if i != 0 {
        return i;
    }
    last_code(f, faulty)
}

// Whether the message code is 00. Which items are faulty is looked at only where it decides: where the foot's totals are right together
// and not by types.
pub(crate) fn is_good(day: u32, list: &[u8], f: &Fedjel) -> bool
    ensures { result ≡ eqb (message_code day (requests_of list.now) f.now.message.now) 0 }
{
    if code_with(day, list, f, false) == 0 {
        return true;
    }
    if code_with(day, list, f, true) != 0 {
        return false;
    }
    answers::put_codes(f.message, list, &mut [])
}
