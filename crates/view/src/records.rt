// Records and their fields, put onto a page (01, Records). With `only`, a record that has nothing to tell is left out.
use crate::parts::Page;
use judge::Session;
use lent::Lists;

// The records' bytes with their endings.
pub(crate) const HEAD: usize = Session::HEAD + 2;

pub(crate) const ITEM: usize = Session::ITEM + 2;

pub(crate) const FOOT: usize = Session::FOOT + 2;

// What is asked for, of each record: whether it is left out where it has nothing to tell; the clearing day and the lists, with no bank
// barred (02 #105).
#[derive(Clone, Copy)]
pub(crate) struct Asked<'a> {
    pub(crate) only: bool,
    pub(crate) day: u32,
    pub(crate) lists: Lists<'a>,
}

impl Asked<'_> {
    // The answer on a single head or item in a message of a kind.
    pub(crate) fn answer(self, r: &[u8], k: usize, kind: u32) -> usize {
        let l = self.lists;
        let a = single::answer(r, k as u64, kind, self.day, l.banks, l.known);
        single::number(a) as usize
    }
}

// A record: its bytes without the ending, how many records stand before it, and where it begins.
#[derive(Clone, Copy)]
pub(crate) struct Shown<'a> {
    pub(crate) bytes: &'a [u8],
    pub(crate) k: usize,
    pub(crate) start: usize,
}

impl<'a> Shown<'a> {
    // The record from one place of a message to the next.
    pub(crate) fn new(message: &'a [u8], k: usize, start: usize, next: usize) -> Shown<'a> {
        Shown {
            bytes: message.get(start..next.saturating_sub(2)).unwrap_or(&[]),
            k,
            start,
        }
    }
}

// The fields of a head: of each the number of its name, and the last of its positions. Each begins after the one before it.
const HEAD_FIELDS: &[(usize, usize)] = &[
    (1, 2),
    (2, 8),
    (3, 9),
    (4, 22),
    (6, 30),
    (7, 34),
    (8, 42),
    (9, 58),
    (10, 66),
    (11, 69),
    (12, 104),
    (13, Session::HEAD),
];

// The fields of an item.
const ITEM_FIELDS: &[(usize, usize)] = &[
    (1, 2),
    (14, 8),
    (20, 16),
    (15, 26),
    (8, 34),
    (9, 50),
    (16, 74),
    (12, 109),
    (17, 144),
    (18, 179),
    (13, Session::ITEM),
];

// The fields of a foot.
const FOOT_FIELDS: &[(usize, usize)] = &[(1, 2), (21, 8), (22, Session::FOOT)];

// Kept: a number for the kind, here and below: it comes from `frame::Told`, and is looked at once.
// The number of a field's name in a message of a kind: BESZED has a notification date for the debit date, a due date for the credit date
// (002, 2.1 and 2.3).
fn number_in(kind: u32, number: usize) -> usize {
    if kind != kinds::BESZED {
        return number;
    }
    match number {
        10 => 23,
        20 => 19,
        _ => number,
    }
}

impl Page<'_> {
    // A record's number and its place in the file, both shown from 1.
    pub(crate) fn put_place(&mut self, k: usize, start: usize) {
        self.put_position(b"RECORD ", k, 1);
        self.put_position(b" at byte ", start, 1);
        self.put(b": ");
    }

    // The positions from after one place up to another.
    fn put_positions(&mut self, from: usize, last: usize) {
        let first = from.wrapping_add(1);
        self.put_counted(b" (", first as u64);
        if first < last {
            self.put_counted(b"-", last as u64);
        }
        self.put(b"): ");
    }

    // Each field of a record of a message of a kind, by its name, with its positions and its text.
    fn put_fields(&mut self, r: &[u8], kind: u32, fields: &[(usize, usize)]) {
        let mut from = 0;
        for (number, last) in fields {
            self.put(b"  ");
            self.put_name(number_in(kind, *number));
            self.put_positions(from, *last);
            if let Some(text) = r.get(from..*last) {
                self.put_text(text);
            }
            from = *last;
        }
    }

    // The head, with the kind that it tells: its fields, and its answer.
    pub(crate) fn put_head(&mut self, r: &[u8], kind: u32, asked: Asked<'_>) {
        let answer = asked.answer(r, 0, kind);
        if asked.only & (answer < 100) {
            return;
        }
        let h = heads::found_in(r, asked.day, asked.lists.banks, asked.lists.known);
        self.put_place(0, 0);
        self.put(b"head\n");
        self.put_fields(r, kind, HEAD_FIELDS);
        self.put_head_answer(answer, h.code);
    }

    // The item of a message of a kind: its fields, its answer, and the zero watch.
    pub(crate) fn put_item(&mut self, s: Shown<'_>, kind: u32, asked: Asked<'_>, f: frame::Found) {
        let answer = asked.answer(s.bytes, s.k, kind);
        let watch = f.zero & (f.code == 0);
        if asked.only & (answer < 100) & !watch {
            return;
        }
        self.put_place(s.k, s.start);
        self.put_counted(b"item ", s.k as u64);
        self.put(b"\n");
        self.put_fields(s.bytes, kind, ITEM_FIELDS);
        self.put_item_answer(answer, f.fault, f.code);
        if watch {
            self.put(b"  WATCH account is all zeros\n");
        }
    }

    // A foot's code in words.
    fn put_foot_answer(&mut self, code: u8) {
        match code {
            0 => self.put(b"  no fault\n"),
            18 => self.put(
                b"  FAULT item count: not what the items give (code 18, the message is refused)\n",
            ),
            _ => self.put(
                b"  FAULT sum: not what the items give (code 19, the message is refused)\n",
            ),
        }
    }

    // The foot: its fields, what the items give, and its answer. Its names are the same in both kinds.
    pub(crate) fn put_foot(&mut self, s: Shown<'_>, only: bool, count: u64, sum: u64) {
        let code = items::foot::code_in(s.bytes, count, sum);
        if only & (code == 0) {
            return;
        }
        self.put_place(s.k, s.start);
        self.put(b"foot\n");
        self.put_fields(s.bytes, kinds::ATUTAL, FOOT_FIELDS);
        self.put_counted(b"  the items give count ", count);
        self.put_counted(b" and sum ", sum);
        self.put(b"\n");
        self.put_foot_answer(code);
    }
}
