// Fields of a message shown in UTF-8: the letters of code page 852 that are text (01, fault 2), and a mark for any other byte.
#![tactic(auto)]

ghost use Rattle.std.specs.Prelude.{◌≡◌, [], ◌∷◌, ◌+◌, ◌≤◌, ◌<◌, length, leb};
ghost use Rattle.base.specs.Bytes.{every};
ghost use Rattle.base.specs.Put.{Written, Put};
ghost use Rattle.letters.specs.Letters.{hungarian, number_in, unicode, letter, hex, mark, utf8, own, shown_byte, shown};

// The Unicode number of one of the eighteen Hungarian letters.
fn hungarian(b: u8) -> Option<u16>
    ensures { result ≡ number_in hungarian b }
{
    match b {
        0x81 => Some(0xfc),
        0x82 => Some(0xe9),
        0x8a => Some(0x150),
        0x8b => Some(0x151),
        0x90 => Some(0xc9),
        0x94 => Some(0xf6),
        0x99 => Some(0xd6),
        0x9a => Some(0xdc),
        0xa0 => Some(0xe1),
        0xa1 => Some(0xed),
        0xa2 => Some(0xf3),
        0xa3 => Some(0xfa),
        0xb5 => Some(0xc1),
        0xd6 => Some(0xcd),
        0xe0 => Some(0xd3),
        0xe9 => Some(0xda),
        0xeb => Some(0x170),
        0xfb => Some(0x171),
        _ => None,
    }
}

// The Unicode number of a byte of code page 852 that may stand in text.
#[tactic(auto, unfolding(crate::specs::Letters::unicode))]
fn unicode(b: u8) -> Option<u16>
    ensures { result ≡ unicode b }
{
    if (b >= 0x20) & (b <= 0x7e) {
        return Some(b as u16);
    }
    hungarian(b)
}

// The Unicode number of a byte that isn't shown as a mark.
fn letter(b: u8) -> Option<u16>
    ensures { result ≡ letter b }
{
    if b == b'\\' { None } else { unicode(b) }
}

// How many bytes a byte is shown by.
fn width(b: u8) -> usize
    ensures { (result ≡ length (shown_byte b)) × (result ≤ 4) }
{
    match letter(b) {
        None => 4,
        Some(n) => { if n < 0x80 { 1 } else { 2 } }
    }
}

// A field is shown by at most so many bytes.
fn fits(s: &[u8], room: usize) -> bool
    ensures { result ≡ leb (length (shown s.now)) room }
{
    let mut left = room;
    for b in s {
        let w = width(*b);
        if left < w {
            return false;
        }
        left -= w;
    }
    true
}

// A digit of a number in base 16.
fn hex(d: u8) -> u8
    requires { d < 16 }
    ensures { result ≡ hex d }
{
    if d < 10 { b'0' + d } else { 0x37 + d }
}

// A byte at a place of the output; the place after it.
fn put_one(out: &mut [u8], at: usize, b: u8) -> usize
    requires { at < length out.old }
    ensures { Put out.old at (b ∷ []) result out.new }
{
    out[at] = b;
    at + 1
}

// The mark of a byte at a place of the output.
fn put_mark(out: &mut [u8], at: usize, b: u8) -> usize
    requires { at + 4 ≤ length out.old }
    ensures { Put out.old at (mark b) result out.new }
{
    let i = put_one(out, at, b'\\');
    let i = put_one(out, i, b'x');
    let i = put_one(out, i, hex(b / 16));
    put_one(out, i, hex(b % 16))
}

// Kept: UTF-8 by hand: `char::encode_utf8` takes a char, which a number is only after a test, and gives a str; no plainer for two bytes.
// A number below 800h in UTF-8 at a place of the output.
fn put_utf8(out: &mut [u8], at: usize, n: u16) -> usize
    requires { (at + length (utf8 n) ≤ length out.old) × (n < 0x800) }
    ensures { Put out.old at (utf8 n) result out.new }
{
    if n < 0x80 {
        return put_one(out, at, n as u8);
    }
    let i = put_one(out, at, (0xc0 + n / 64) as u8);
    put_one(out, i, (0x80 + n % 64) as u8)
}

// A byte as it is shown at a place of the output.
fn put_byte(out: &mut [u8], at: usize, b: u8) -> usize
    requires { at + length (shown_byte b) ≤ length out.old }
    ensures { Put out.old at (shown_byte b) result out.new }
{
    match letter(b) {
        None => put_mark(out, at, b),
        Some(n) => put_utf8(out, at, n),
    }
}

// A field byte by byte, as it is shown, at the front of the output, and its length; where the output is too short, 0, and it stays as it was.
fn put_each(out: &mut [u8], s: &[u8]) -> usize
    ensures { Written (shown s.now) out.old result out.new }
{
    if !fits(s, out.len()) {
        return 0;
    }
    let mut at = 0;
    for b in s {
        at = put_byte(out, at, *b);
    }
    at
}

// Each byte is shown as itself. No branch on a byte, so that the compiler takes many at a time.
fn is_own(s: &[u8]) -> bool
    ensures { result ≡ every own s.now }
{
    let mut ok = true;
    for b in s {
        ok &= (*b >= 0x20) & (*b <= 0x7e) & (*b != b'\\');
    }
    ok
}

// Kept: a length of 0 where the output is too short, and not an Option: the caller goes on from the place after what was put, where 0 is right
// as it stands; no plainer.
// A field as it is shown at the front of the output, and its length; where the output is too short, 0, and it stays as it was. Most
// fields are shown as they are, which a quick pass finds.
pub fn put(out: &mut [u8], s: &[u8]) -> usize
    ensures { Written (shown s.now) out.old result out.new }
{
    if !is_own(s) {
        return put_each(out, s);
    }
    if !text::put(out, s) {
        return 0;
    }
    s.len()
}
