// The head of a FEDJEL (002 12.1.1).
ghost use Rattle.std.specs.Prelude.{◌≡◌, cond};
ghost use Rattle.base.specs.Tables.{first_given};
ghost use Rattle.calendar.specs.DateField.{date_field};
ghost use Rattle.requests.specs.Requests.{requests_of};
ghost use Rattle.cover.specs.Head.{days_back, sent_on, is_number, head_rows};

use crate::fedjel::HEAD;

// The code where the test fails, else the other.
// Kept: (a) here and in each `_code`, a number for none: 0 is the standard's own code of a message without a fault, and what `first_given` says.
pub(crate) fn unless(ok: bool, code: u8, other: u8) -> u8
    ensures { result ≡ cond ok other code }
{
    if ok {
        return other;
    }
    code
}

// Whether the field is digits and their number is n.
pub(crate) fn is_number(s: &[u8], n: u64) -> bool
    ensures { result ≡ is_number n s.now }
{
    digits::is_digits(s) & (digits::number(s) == n)
}

// The days from the last workday before a day to it: by what is left of the day number by seven, 0 Sunday to 6 Saturday.
fn days_back(n: u32) -> u32
    ensures { result ≡ days_back n }
{
    match n % 7 {
        0 => 2,
        1 => 3,
        _ => 1,
    }
}

// Whether the field is a date from the last workday before E to E (F523.2).
fn is_sent(day: u32, s: &[u8]) -> bool
    ensures { result ≡ sent_on day (date_field s.now) }
{
    match calendar::read_date(s) {
        Err(_) => false,
        Ok(d) => {
            let e = calendar::day_number(day);
            let n = calendar::day_number(d);
            if n > e {
                return false;
            }
            e - n <= days_back(e)
        }
    }
}

// The code of the head's first fault, 0 if it has none.
pub(crate) fn head_code(h: &[u8; HEAD], day: u32, list: &[u8]) -> u8
    ensures { result ≡ first_given (head_rows day (requests_of list.now) h.now) }
{
    let c = unless(is_number(&h[24..32], day as u64), 7, 0);
    let c = unless(digits::is_digits(&h[20..24]), 2, c);
    let c = unless(is_sent(day, &h[12..20]), 44, c);
    let bank = &h[9..12];
    let c = unless(
        digits::is_digits(bank) & requests::has_bank(list, bank),
        43,
        c,
    );
    let c = unless(digits::is_digits(&h[8..9]), 42, c);
    let c = unless(text::is_same(&h[2..8], b"FEDJEL"), 9, c);
    unless(text::is_same(&h[0..2], b"01"), 41, c)
}
