// Check digits: annex 6 over any number of digits, and EAN-13. Their sums are formed by additions alone (02 #104).
#![tactic(auto)]

ghost use Rattle.std.specs.Prelude.{◌≡◌, true, ◌+◌, ◌*◌, ◌%◌, ◌<◌, ◌≤◌, eqb, length, get_or, drop};
ghost use Rattle.digits.specs.Digits.{is_digits};
ghost use Rattle.cdv.specs.Check.{weighed, cdv, satisfies, gs1, is_ean13};

// The byte at a place; behind the end '0', which weighs nothing.
fn at(s: &[u8], i: usize) -> u32
    ensures { (result ≡ get_or s.now i 48) × (result < 256) }
{
    s.get(i).copied().map_or(48, u32::from)
}

// 9, 7, 3 and 1 of four sums of bytes, by doubling.
fn weigh(a: u32, b: u32, c: u32, d: u32) -> u32
    requires { (a < 512) × (b < 512) × (c < 512) × (d < 512) }
    ensures { result ≡ a * 9 + b * 7 + c * 3 + d }
{
    let double = a + a + b;
    let again = double + double + b + c;
    again + again + a + b + c + d
}

// What the eight digits from place i on weigh, those at the four places of the cycle added up first. As bytes eight zeros weigh 1,920.
fn eight(s: &[u8], i: usize) -> u32
    requires { (is_digits s.now ≡ true) × (i % 4 ≡ 0) × (i ≤ length s.now) }
    ensures { (weighed cdv i (drop i s.now) ≡ result + weighed cdv (i + 8) (drop (i + 8) s.now)) × (result ≤ 360) }
{
    let a = at(s, i) + at(s, i + 4);
    let b = at(s, i + 1) + at(s, i + 5);
    let c = at(s, i + 2) + at(s, i + 6);
    let d = at(s, i + 3) + at(s, i + 7);
    weigh(a, b, c, d) - 1920
}

// What the two digits from place i on weigh: 1 and 3 of them.
fn two(s: &[u8], i: usize) -> u32
    requires { (is_digits s.now ≡ true) × (i % 2 ≡ 0) × (i ≤ length s.now) }
    ensures { (weighed gs1 i (drop i s.now) ≡ result + weighed gs1 (i + 2) (drop (i + 2) s.now)) × (result ≤ 36) }
{
    let a = at(s, i) - 48;
    let b = at(s, i + 1) - 48;
    a + b + b + b
}

// The sum less a multiple of ten, unless it is below it.
fn less(sum: u32, tens: u32) -> u32
    requires { (tens % 10 ≡ 0) × (sum < tens + tens) }
    ensures { (result % 10 ≡ sum % 10) × (result < tens) }
{
    if sum < tens { sum } else { sum - tens }
}

// The sum is a multiple of ten: brought down below ten, it is 0.
fn is_tens(sum: u32) -> bool
    requires { sum < 1280 }
    ensures { result ≡ eqb (sum % 10) 0 }
{
    let sum = less(sum, 640);
    let sum = less(sum, 320);
    let sum = less(sum, 160);
    let sum = less(sum, 80);
    let sum = less(sum, 40);
    let sum = less(sum, 20);
    less(sum, 10) == 0
}

// Any number of digits, eight at a time. The sum is brought down as it grows, so it stays below 720.
fn any(s: &[u8]) -> bool
    requires { is_digits s.now ≡ true }
    ensures { result ≡ satisfies s.now }
{
    let mut sum: u32 = 0;
    for i in (0..s.len()).step_by(8) {
        sum = less(sum, 360) + eight(s, i);
    }
    is_tens(sum)
}

// The digits satisfy the check digit of annex 6: weights 9, 7, 3, 1 repeated from the left, a sum that is a multiple of
// ten. Banks and accounts have eight digits or sixteen: straight on, by the same step, the sum brought down once.
#[tactic(auto, unfolding(crate::specs::Check::satisfies))]
pub fn satisfies(s: &[u8]) -> bool
    ensures { result ≡ satisfies s.now }
{
    if !digits::is_digits(s) {
        return false;
    }
    if s.len() == 8 {
        return is_tens(eight(s, 0));
    }
    if s.len() == 16 {
        return is_tens(eight(s, 0) + eight(s, 8));
    }
    any(s)
}

// Thirteen digits with weights 1 and 3 in turn, a sum that is a multiple of ten (01, Initiator; GS1). There is no
// fourteenth: behind the end is '0'.
#[tactic(auto, unfolding(crate::specs::Check::is_ean13))]
pub fn is_ean13(s: &[u8]) -> bool
    ensures { result ≡ is_ean13 s.now }
{
    if s.len() != 13 {
        return false;
    }
    if !digits::is_digits(s) {
        return false;
    }
    let mut sum: u32 = 0;
    for i in (0..13).step_by(2) {
        sum = sum + two(s, i);
    }
    is_tens(sum)
}
