// Text fields: the letters of code page 852 that a message may hold, fields of spaces, fields of spaces and zeros; comparing and putting text.
#![tactic(auto)]

ghost use Rattle.std.specs.Prelude.{◌≡◌, leb, length};
ghost use Rattle.base.specs.Bytes.{same};
ghost use Rattle.text.specs.Text.{
  letter,
  is_plain,
  is_text,
  is_blank,
  is_blank_or_zero,
  with_bytes,
  with_bytes_at,
  after_bytes,
};

// Each byte is 20h to 7Eh (01, refusal 7). No branch on a byte, so that the compiler takes many at a time.
pub fn is_plain(s: &[u8]) -> bool
    ensures { result ≡ is_plain s.now }
{
    let mut ok = true;
    for b in s {
        ok &= (*b >= 0x20) & (*b <= 0x7e);
    }
    ok
}

// A byte may stand in text. Comparisons and no table: a table is stored anew where it is named.
fn is_letter(b: u8) -> bool
    ensures { result ≡ letter b }
{
    (b >= 0x20) & (b <= 0x7e)
        | (b == 0x81)
        | (b == 0x82)
        | (b == 0x8a)
        | (b == 0x8b)
        | (b == 0x90)
        | (b == 0x94)
        | (b == 0x99)
        | (b == 0x9a)
        | (b == 0xa0)
        | (b == 0xa1)
        | (b == 0xa2)
        | (b == 0xa3)
        | (b == 0xb5)
        | (b == 0xd6)
        | (b == 0xe0)
        | (b == 0xe9)
        | (b == 0xeb)
        | (b == 0xfb)
}

// Each byte may stand in text, with no branch on a byte.
fn all_letters(s: &[u8]) -> bool
    ensures { result ≡ is_text s.now }
{
    let mut ok = true;
    for b in s {
        ok &= is_letter(*b);
    }
    ok
}

// Each byte may stand in text (01, fault 2). The letters above 7Eh are looked for only where the quick pass fails.
pub fn is_text(s: &[u8]) -> bool
    ensures { result ≡ is_text s.now }
{
    if is_plain(s) {
        return true;
    }
    all_letters(s)
}

// Each byte is a space (01, the head's name). A field that is not blank shows it by its first byte, most often.
pub fn is_blank(s: &[u8]) -> bool
    ensures { result ≡ is_blank s.now }
{
    s.iter().all(|b| *b == b' ')
}

// Each byte is a space or a zero (002 section 1.3.1, customer id and owner).
pub fn is_blank_or_zero(s: &[u8]) -> bool
    ensures { result ≡ is_blank_or_zero s.now }
{
    s.iter().all(|b| (*b == b' ') | (*b == b'0'))
}

// Whether the two are the same. No branch on a byte, so that the compiler takes many at a time.
// Kept: (b) `s == t` compares four bytes and calls for the rest: 7.5 ns for each request of a list whose identifiers begin alike, this 2.2.
pub fn is_same(s: &[u8], t: &[u8]) -> bool
    ensures { result ≡ same s.now t.now }
{
    if s.len() != t.len() {
        return false;
    }
    let mut ok = true;
    for (i, b) in s.iter().enumerate() {
        ok &= *b == t[i];
    }
    ok
}

// Kept: a loop, and no `copy_from_slice`: that makes the library ask its host for memmove (a: include/nshanvekh.h promises memcpy and memset).
// The bytes at the front of what is lent. Where it is shorter, the answer is false and nothing is written.
#[tactic(auto, unfolding(crate::specs::Text::with_bytes, base::specs::Bytes::over))]
pub fn put(out: &mut [u8], s: &[u8]) -> bool
    ensures answer { result ≡ leb (length s.now) (length out.old) }
    ensures bytes { out.new ≡ with_bytes out.old s.now }
{
    if out.len() < s.len() {
        return false;
    }
    for (i, b) in s.iter().enumerate() {
        out[i] = *b;
    }
    true
}

// Kept: a place, and no Option: what may not change is that it can't fail (`after_bytes`); each writer goes on from the place, where it is right.
// The bytes at a place of what is lent, and the place after them. Where they don't fit, the answer is the place itself and
// nothing is written.
#[tactic(auto, unfolding(crate::specs::Text::with_bytes, crate::specs::Text::with_bytes_at, crate::specs::Text::after_bytes, base::specs::Bytes::over))]
pub fn put_at(out: &mut [u8], at: usize, s: &[u8]) -> usize
    ensures place { result ≡ after_bytes out.old at s.now }
    ensures bytes { out.new ≡ with_bytes_at out.old at s.now }
{
    if at > out.len() {
        return at;
    }
    if !put(&mut out[at..], s) {
        return at;
    }
    at + s.len()
}
