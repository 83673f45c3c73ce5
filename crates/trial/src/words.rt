// The words of a script: sizes, and texts, built by lines or made of a base text; and the case that a line is.
ghost use Rattle.std.specs.Prelude.{◌+◌, ◌-◌, ◌≤◌, length};
ghost use Rattle.base.specs.Counts.{IsPrefixLen};

use lent::Lists;
use script::field;
use text::put_at;

// What the script has set: the clearing day, the lines of the lists, the length of the base text, how the sizes of session, numbers and
// identifier lie to the right ones, as three digits, and a reply's particulars and output.
#[derive(Clone, Copy)]
pub(crate) struct Given<'a> {
    pub(crate) day: u32,
    pub(crate) banks: &'a [u8],
    pub(crate) known: &'a [u8],
    pub(crate) barred: &'a [u8],
    pub(crate) base: usize,
    pub(crate) sizes: u32,
    pub(crate) duplicate: u8,
    pub(crate) number: u32,
    pub(crate) time: u32,
    pub(crate) room: usize,
}

// A case: its text and its own words, what is given, and the lists.
#[derive(Clone, Copy)]
pub(crate) struct Case<'a> {
    pub(crate) text: &'a [u8],
    pub(crate) words: &'a [u8],
    pub(crate) given: Given<'a>,
    pub(crate) lists: Lists<'a>,
}

impl<'a> Case<'a> {
    // The same with another text.
    pub(crate) fn with(self, text: &'a [u8]) -> Case<'a> {
        Case { text, ..self }
    }

    // The number in a field of its words.
    pub(crate) fn field(self, from: usize, end: usize) -> u32 {
        field(self.words, from, end)
    }

    // Its text in two: so many bytes as a field of its words says, and the rest.
    pub(crate) fn halves(self, from: usize, end: usize) -> (&'a [u8], &'a [u8]) {
        cut(self.text, u64::from(self.field(from, end)))
    }

    // Its words from a place on.
    pub(crate) fn onward(self, from: usize) -> &'a [u8] {
        self.words.get(from..).unwrap_or(&[])
    }
}

// The size of a buffer that is to have so many elements, by the last digit of a number: 0 one too few, 2 one too many, else right.
pub(crate) fn size(right: usize, sign: u32) -> usize
    requires { (1 ≤ right) × (right ≤ 1000) }
    ensures { result ≤ right + 1 }
{
    match sign % 10 {
        0 => right - 1,
        2 => right + 1,
        _ => right,
    }
}

// The first so many bytes, all of fewer, and the rest.
pub(crate) fn cut(s: &[u8], n: u64) -> (&[u8], &[u8]) {
    s.split_at((n as usize).min(s.len()))
}

// So many bytes after a place, or at the end.
pub(crate) fn ahead(at: usize, n: usize, len: usize) -> usize
    requires { at ≤ len }
    ensures { (at ≤ result) × (result ≤ len) × (at + n ≤ result + (at + n - len)) }
{
    at + n.min(len - at)
}

// The bytes of a line and its ending: 0Ah after /, 0Dh 0Ah after +, else none.
pub(crate) fn add(memory: &mut [u8], at: usize, kind: u8, r: &[u8]) -> usize {
    let end = put_at(memory, at, r);
    match kind {
        b'/' => put_at(memory, end, b"\n"),
        b'+' => put_at(memory, end, b"\r\n"),
        _ => end,
    }
}

// Bytes and an ending so many times, each time with its own number over them.
fn repeated(
    memory: &mut [u8],
    mut at: usize,
    count: u64,
    shift: usize,
    w: usize,
    kind: u8,
    r: &[u8],
) -> usize {
    for k in 1..=count {
        let end = add(memory, at, kind, r);
        digits::put_at(memory, at.saturating_add(shift), w, k);
        at = end;
    }
    at
}

// A line of many: six digits count, a digit where the number stands, a digit how many digits it has, the kind of ending, the bytes.
pub(crate) fn add_many(memory: &mut [u8], at: usize, r: &[u8]) -> usize {
    if r.len() < 9 {
        return at;
    }
    let shift = field(r, 6, 7) as usize;
    let w = field(r, 7, 8) as usize;
    repeated(memory, at, field(r, 0, 6) as u64, shift, w, r[8], &r[9..])
}

// Kept: no `to_digit`: another byte has to stand for the number that it always stood for (a).
// A hexadecimal digit, 0 to 9 and a to f; of another byte a number that means nothing.
fn nibble(b: u8) -> usize
    ensures { result ≤ 42 }
{
    (b % 16 + b / 64 * 9) as usize
}

// The bytes that a text spells, two hexadecimal digits each, are put into the text from a place on, as far as there is room: the place
// after them.
fn put_hex(text: &mut [u8], mut at: usize, r: &[u8]) -> usize {
    for [high, low] in r.as_chunks::<2>().0 {
        if at >= text.len() {
            break;
        }
        text[at] = ((nibble(*high) * 16 + nibble(*low)) % 256) as u8;
        at += 1;
    }
    at
}

// The base text with the changes of a line, in ascending order, each a space, four digits k, four digits n and the bytes that stand in place
// of the n after the base's first k: the length of the text. The digits of a change that is too short are read on into the next.
pub(crate) fn changed(text: &mut [u8], base: &[u8], r: &[u8]) -> usize
    ensures { IsPrefixLen result text.new }
{
    let mut at = 0;
    let mut from = 0;
    let list = r.get(1..).unwrap_or(&[]);
    let mut left = list;
    for change in list.split(|b| *b == b' ') {
        let first = (field(left, 0, 4) as usize).clamp(from, base.len());
        at = put_at(text, at, &base[from..first]);
        at = put_hex(text, at, change.get(8..).unwrap_or(&[]));
        from = ahead(first, field(left, 4, 8) as usize, base.len());
        left = left.get(change.len() + 1..).unwrap_or(&[]);
    }
    put_at(text, at, &base[from..]).min(text.len())
}
