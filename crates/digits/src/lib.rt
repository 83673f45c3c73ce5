// Decimal fields: their digits, their numbers, and writing a number.
#![tactic(auto)]

ghost use Rattle.std.specs.Prelude.{◌≡◌, ◌≤◌, ◌<◌, ◌^◌, length, ltb};
ghost use Rattle.base.specs.Bytes.{over};
ghost use Rattle.digits.specs.Digits.{
  digit,
  is_digits,
  number_of,
  figures,
  has_room,
  with_number,
  with_number_at,
  after_number,
};

// A byte is one of '0' to '9'.
pub fn is_digit(b: u8) -> bool
    ensures { result ≡ digit b }
{
    (b >= b'0') & (b <= b'9')
}

// Each byte is a digit. No branch on a byte, so that the compiler takes many at a time.
pub fn is_digits(s: &[u8]) -> bool
    ensures { result ≡ is_digits s.now }
{
    let mut ok = true;
    for b in s {
        ok &= is_digit(*b);
    }
    ok
}

// The number that up to sixteen digits stand for; 0 where the field is longer or holds another byte.
pub fn number(s: &[u8]) -> u64
    ensures { result ≡ number_of s.now }
{
    if s.len() > 16 {
        return 0;
    }
    let mut n: u64 = 0;
    for b in s {
        if !is_digit(*b) {
            return 0;
        }
        n = n * 10 + (*b - b'0') as u64;
    }
    n
}

// The number has no more than w digits.
fn fits(n: u64, w: usize) -> bool
    ensures { result ≡ ltb n (10 ^ w) }
{
    let mut left = n;
    for _ in 0..w {
        if left == 0 {
            return true;
        }
        left /= 10;
    }
    left == 0
}

// The last w digits of a number, at the front of what is lent, from the right.
fn put_figures(out: &mut [u8], w: usize, n: u64)
    requires { w ≤ length out.old }
    ensures { out.new ≡ over out.old 0 (figures w n) }
{
    let mut left = n;
    for i in (0..w).rev() {
        out[i] = b'0' + (left % 10) as u8;
        left /= 10;
    }
}

// The number with leading zeros in the first w bytes of what is lent. Where it has more digits or the part is
// shorter, the answer is false and nothing is written.
#[tactic(auto, unfolding(crate::specs::Digits::with_number))]
pub fn put_number(out: &mut [u8], w: usize, n: u64) -> bool
    ensures answer { result ≡ has_room out.old w n }
    ensures bytes { out.new ≡ with_number out.old w n }
{
    if w > out.len() {
        return false;
    }
    if !fits(n, w) {
        return false;
    }
    put_figures(out, w, n);
    true
}

// Kept: a place, and no Option: what may not change is that it can't fail (`after_number`); each writer goes on from the place, where it is right.
// The number with leading zeros in w bytes at a place of what is lent, and the place after it. Where it has more digits or the
// bytes aren't there, the answer is the place itself and nothing is written.
#[tactic(auto, unfolding(crate::specs::Digits::with_number, crate::specs::Digits::with_number_at, crate::specs::Digits::after_number))]
pub fn put_at(out: &mut [u8], at: usize, w: usize, n: u64) -> usize
    ensures place { result ≡ after_number out.old at w n }
    ensures bytes { out.new ≡ with_number_at out.old at w n }
{
    if at > out.len() {
        return at;
    }
    if !put_number(&mut out[at..], w, n) {
        return at;
    }
    at + w
}
