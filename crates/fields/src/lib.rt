// Marks and numbers: what is found in a record's type, an item's number, an amount and a total; and whether a byte is the duplicate code
// of a STATUS.
#![tactic(auto)]

ghost use Rattle.std.specs.Prelude.{◌≡◌, [], ◌∷◌};
ghost use Rattle.digits.specs.Digits.{number_of};
ghost use Rattle.fields.specs.Fields.{
  digits_of,
  mark_found,
  is_duplicate,
  place_found,
  amount_found,
  amount_of,
  total_code,
};

use findings::{Finding, Kind, found};

// An amount's number, and what is found in its field.
// Kept: the number stands beside what is found, since what may not change is that `amount_found` gives the number of a field of another length too.
#[derive(Clone, Copy)]
pub struct Amount {
    pub value: u64,
    pub found: Finding,
}

// The type of a record: '0' and its last byte.
#[tactic(auto, using(crate::proofs::Byte::two))]
pub fn type_found(s: &[u8], last: u8) -> Finding
    ensures { result ≡ mark_found (48 ∷ last ∷ []) s.now }
{
    found(
        (s.len() == 2) && (s[0] == b'0') && (s[1] == last),
        Kind::Mark,
    )
}

// The duplicate code of a STATUS: 0 or @.
#[tactic(auto, unfolding(crate::specs::Fields::is_duplicate))]
pub fn is_duplicate(b: u8) -> bool
    ensures { result ≡ is_duplicate b }
{
    (b == b'0') | (b == b'@')
}

// Whether a field whose number is v has n digits. A number above 0 shows that they are digits, so the bytes are most often not read again.
#[tactic(auto, using(crate::proofs::Numbers::above_zero))]
fn is_number(s: &[u8], n: usize, v: u64) -> bool
    requires { v ≡ number_of s.now }
    ensures { result ≡ digits_of n s.now }
{
    if s.len() != n {
        return false;
    }
    if v > 0 {
        return true;
    }
    digits::is_digits(s)
}

// An item's number: six digits, and its place k (01, Item rules).
#[tactic(auto, unfolding(crate::specs::Fields::place_found))]
pub fn place_found(s: &[u8], k: u64) -> Finding
    ensures { result ≡ place_found k s.now }
{
    let v = digits::number(s);
    if !is_number(s, 6, v) {
        return Err(Kind::NotDigits);
    }
    found(v == k, Kind::OutOfOrder)
}

// An amount whose number is v: ten digits, not all zero (01, Item rules).
#[tactic(auto, unfolding(crate::specs::Fields::amount_found))]
fn amount_of(s: &[u8], v: u64) -> Finding
    requires { v ≡ number_of s.now }
    ensures { result ≡ amount_found s.now }
{
    if !is_number(s, 10, v) {
        return Err(Kind::NotDigits);
    }
    found(v != 0, Kind::BlankOrZero)
}

// An amount, read once: its number, 0 where it isn't digits, and what is found in it.
pub fn amount_found(s: &[u8]) -> Amount
    ensures { result ≡ amount_of s.now }
{
    let v = digits::number(s);
    Amount {
        value: v,
        found: amount_of(s, v),
    }
}

// A total of n digits: its code where it isn't digits or not what the items give (002 section 1.2.1).
pub fn total_code(s: &[u8], n: usize, want: u64, code: u8) -> u8
    ensures { result ≡ total_code n want code s.now }
{
    let v = digits::number(s);
    if !is_number(s, n, v) {
        return code;
    }
    if v == want { 0 } else { code }
}
