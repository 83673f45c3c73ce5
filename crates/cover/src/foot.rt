// The foot of a FEDJEL and what it says of the items (002 12.2.1).
ghost use Rattle.std.specs.Prelude.{◌≡◌, ◌+◌, ◌≤◌};
ghost use Rattle.base.specs.Tables.{first_given};
ghost use Rattle.answers.specs.Fedjel.{items_in};
ghost use Rattle.cover.specs.Foot.{are_together, typed_rows, joint_rows, foot_rows};
ghost use Rattle.cover.specs.Sums.{limit, capped, totals_in, totals_to};

use crate::head::{is_number, unless};
use answers::{FOOT, ITEM, ITEM_ENDED};
use frame::Totals;

// No two fields of sixteen digits make as much together: a sum is counted up to here and no further, so that none wraps.
const LIMIT: u64 = 20000000000000000;

// The sum of two, up to the limit.
fn added(a: u64, b: u64) -> u64
    requires { (a ≤ limit) × (b ≤ limit) }
    ensures { result ≡ capped (a + b) }
{
    (a + b).min(LIMIT)
}

// What an item adds to the totals of a type, by the type's last digit: nothing where it is of another type.
fn totals_in(item: &[u8; ITEM], last: u8) -> Totals
    ensures { result ≡ totals_in last item.now }
{
    if (item[0] == b'0') & (item[1] == last) {
        return Totals {
            count: 1,
            sum: digits::number(&item[51..67]),
        };
    }
    Totals { count: 0, sum: 0 }
}

// How many of the items are of a type, and the sum of theirs up to the limit.
pub(crate) fn totals(items: &[u8], last: u8) -> Totals
    ensures { result ≡ totals_to last (items_in items.now) }
{
    let mut count: u64 = 0;
    let mut sum: u64 = 0;
    for i in items.chunks_exact(ITEM_ENDED) {
        let t = totals_in(i.first_chunk().unwrap(), last);
        count += t.count;
        sum = added(sum, t.sum);
    }
    Totals { count, sum }
}

// Whether the two fields are digits and their numbers together n.
fn are_together(s: &[u8], t: &[u8], n: u64) -> bool
    ensures { result ≡ are_together n s.now t.now }
{
    let sum = digits::number(s) + digits::number(t);
    digits::is_digits(s) & (digits::is_digits(t) & (sum == n))
}

// The code of the four totals where no item is faulty: count and sum of the 02 items, then of the 03 items.
fn typed_code(foot: &[u8; FOOT], a: Totals, b: Totals) -> u8
    ensures { result ≡ first_given (typed_rows a b foot.now) }
{
    let c = unless(is_number(&foot[26..42], b.sum), 19, 0);
    let c = unless(is_number(&foot[22..26], b.count), 18, c);
    let c = unless(is_number(&foot[6..22], a.sum), 19, c);
    unless(is_number(&foot[2..6], a.count), 18, c)
}

// The code of the four totals where some item is faulty: the two counts together, then the two sums.
fn joint_code(foot: &[u8; FOOT], count: u64, sum: u64) -> u8
    ensures { result ≡ first_given (joint_rows count sum foot.now) }
{
    let c = unless(are_together(&foot[6..22], &foot[26..42], sum), 19, 0);
    unless(are_together(&foot[2..6], &foot[22..26], count), 18, c)
}

// The code of the foot's first fault, 0 if it has none: by the totals of each type and of all items.
pub(crate) fn foot_code(foot: &[u8; FOOT], a: Totals, b: Totals, all: Totals, faulty: bool) -> u8
    ensures { result ≡ first_given (foot_rows faulty a b all foot.now) }
{
    if !text::is_same(&foot[..2], b"04") {
        return 47;
    }
    if faulty {
        return joint_code(foot, all.count, all.sum);
    }
    typed_code(foot, a, b)
}
