// What is shown, put at the end of what a page holds. What doesn't fit would be left out: a page has room for any record (main.rt).
ghost use Rattle.std.specs.Prelude.{◌≤◌, length};

use console::put;

// A space that is lent, and how much of it is filled.
#[derive(Drop)]
pub(crate) struct Page<'a> {
    pub(crate) space: &'a mut [u8],
    pub(crate) filled: usize,
}

// How long a field is without the spaces at its end.
fn filled(s: &[u8]) -> usize
    ensures { result ≤ length s.now }
{
    s.iter()
        .rposition(|b| *b != b' ')
        .map_or(0, |last| last + 1)
}

impl Page<'_> {
    pub(crate) fn put(&mut self, s: &[u8]) {
        self.filled = text::put_at(self.space, self.filled, s);
    }

    // A number in so many digits.
    fn put_digits(&mut self, width: usize, n: u64) {
        self.filled = digits::put_at(self.space, self.filled, width, n);
    }

    // A text and a number.
    pub(crate) fn put_counted(&mut self, s: &[u8], n: u64) {
        self.put(s);
        self.put_digits(n.checked_ilog10().unwrap_or(0) as usize + 1, n);
    }

    // A text and the number of the byte that stands so many after a place, from 1.
    pub(crate) fn put_position(&mut self, s: &[u8], place: usize, after: usize) {
        self.put_counted(s, (place as u64).wrapping_add(after as u64));
    }

    // A code, two digits.
    pub(crate) fn put_code(&mut self, code: u8) {
        self.put_digits(2, u64::from(code));
    }

    // The name of a field, by its number.
    pub(crate) fn put_name(&mut self, number: usize) {
        self.filled = words::put_field(self.space, self.filled, number);
    }

    // A kind of fault, by its number.
    pub(crate) fn put_kind(&mut self, kind: usize) {
        self.filled = words::put_kind(self.space, self.filled, kind);
    }

    // What a code is given for.
    pub(crate) fn put_meaning(&mut self, code: u8) {
        self.filled = words::put_meaning(self.space, self.filled, code);
    }

    // A field's letters in UTF-8.
    fn put_letters(&mut self, s: &[u8]) {
        let at = self.filled;
        if let Some(rest) = self.space.get_mut(at..) {
            self.filled = at.wrapping_add(letters::put(rest, s));
        }
    }

    // A field's text, with the spaces at its end counted, and a line end.
    pub(crate) fn put_text(&mut self, s: &[u8]) {
        let n = filled(s);
        if n == 0 {
            self.put(b"blank\n");
            return;
        }
        self.put(b"\"");
        self.put_letters(&s[..n]);
        self.put(b"\"");
        if n < s.len() {
            self.put_counted(b" and ", (s.len() - n) as u64);
            self.put(b" spaces");
        }
        self.put(b"\n");
    }

    // What the page holds is written, and it holds nothing.
    pub(crate) fn write(&mut self, rt: &impl Print) {
        let n = self.filled;
        if let Some(held) = self.space.get(..n) {
            put(rt, held);
        }
        self.filled = 0;
    }
}
