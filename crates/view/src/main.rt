// Shows the message on standard input record by record, for the support desk: each field by name, what is wrong with the record, and at
// the end the verdict or the first break. With the word `faults` the records without a fault, a watch or a break are left out. The
// clearing day and the lists stand in the files `day`, `banks` and `known` of the folder where it runs, as for the slip (01, Examples);
// its barred list is empty (02 #105). No contract can say what is written to a stream, so the functions have none.
#![tactic(auto)]

mod breaks;
mod parts;
mod records;
mod told;

use crate::parts::Page;
use crate::records::{Asked, Shown};
use console::{argument_count, read_argument, read_files, read_full, refuse, say};
use files::SPACE;
use frame::{Closing, Record, Told, Totals};
use judge::Session;
use lent::Lists;
use std::rt::Env;

// A message with as many items as a table has codes.
const LONGEST: usize = records::HEAD + records::ITEM * Session::MOST + records::FOOT;

// One byte more, so that a longer message shows.
const HELD: usize = LONGEST + 1;

// The output is written when so many of its bytes are filled.
const FULL: usize = 61440;

// It has room for one record more: fewer than 2,000 bytes, where each byte of an item is shown by four.
const ROOM: usize = FULL + 4096;

// A walk: what the head told, ATUTAL and no bar before it, and what the items so far give.
#[derive(Clone, Copy)]
struct Walk {
    told: Told,
    count: u64,
    sum: u64,
}

impl Page<'_> {
    fn put_totals(&mut self, word: &[u8], t: Totals) {
        self.put_counted(word, t.count);
        self.put_counted(b", sum ", t.sum);
        self.put(b"\n");
    }

    // A message's code, and what it means.
    fn put_message_code(&mut self, code: u8) {
        self.put(b"VERDICT code ");
        self.put_code(code);
        self.put(b": ");
        self.put_meaning(code);
        self.put(if code == 0 {
            b", the message is accepted\n"
        } else {
            b", the message is refused\n"
        });
    }

    fn put_closing(&mut self, k: Closing) {
        self.put_message_code(k.code);
        self.put_totals(b"  accepted items: ", k.accepted);
        self.put_totals(b"  refused items: ", k.refused);
        self.put_counted(b"  zero watch: ", k.zeros);
        self.put(b"\n");
    }
}

impl Walk {
    // The head is shown, and tells its kind; no bank is barred (02 #105).
    fn head(page: &mut Page<'_>, r: &[u8], asked: Asked<'_>) -> Walk {
        let told = heads::told_of(r, &[]);
        page.put_head(r, told.kind as u32, asked);
        Walk {
            told,
            count: 0,
            sum: 0,
        }
    }

    // The next item is shown, and counted.
    fn item(self, page: &mut Page<'_>, s: Shown<'_>, asked: Asked<'_>) -> Walk {
        let f = items::item::found_in(s.bytes, s.k as u64, self.told, asked.day, asked.lists.banks);
        page.put_item(s, self.told.kind as u32, asked, f);
        Walk {
            told: self.told,
            count: s.k as u64,
            sum: self.sum.wrapping_add(f.amount),
        }
    }

    // The k-th record, from 0, which stands at a place of the message, is shown; the end isn't. The walk where it goes on, after a head or
    // an item.
    fn step(
        self,
        page: &mut Page<'_>,
        message: &[u8],
        k: usize,
        at: usize,
        asked: Asked<'_>,
    ) -> Option<Walk> {
        match viewer::met_at(message, at) {
            Record::Head { start, next } => {
                let s = Shown::new(message, k, start, next);
                Some(Walk::head(page, s.bytes, asked))
            }
            Record::Item { start, next } => {
                Some(self.item(page, Shown::new(message, k, start, next), asked))
            }
            Record::Foot { start, next } => {
                let s = Shown::new(message, k, start, next);
                page.put_foot(s, asked.only, self.count, self.sum);
                None
            }
            Record::Break => {
                page.put_place(k, at);
                page.put(b"break\n");
                breaks::put_break(page, message, at, self.count);
                None
            }
            Record::End => None,
        }
    }
}

// Each record of the message, to the foot or the first break; the page is written where it is nearly full. A record has bytes, so there are
// fewer records than turns.
fn put_records(rt: &impl Print, page: &mut Page<'_>, message: &[u8], asked: Asked<'_>) {
    let mut walk = Walk {
        told: Told {
            kind: 0,
            barred: false,
        },
        count: 0,
        sum: 0,
    };
    let mut at = 0;
    for k in 0..=message.len() {
        let Some(next) = walk.step(page, message, k, at, asked) else {
            break;
        };
        walk = next;
        if page.filled >= FULL {
            page.write(rt);
        }
        at = viewer::moved_from(message, at);
    }
}

// The records and the verdict are shown.
fn put_message(rt: &impl Print, page: &mut Page<'_>, message: &[u8], asked: Asked<'_>) {
    put_records(rt, page, message, asked);
    let mut table = [0u8; Session::MOST];
    match message::judge(asked.day, &asked.lists, &mut table, message) {
        Ok(closing) => {
            page.put_closing(closing);
            page.write(rt)
        }
        Err(r) => {
            page.write(rt);
            refuse(rt, r)
        }
    }
}

// The message is read into the space, which has one byte more than can be shown, and shown, if it is held as a whole, by way of the output
// that is lent. Of a longer message nothing is shown.
fn answer(rt: &HostRuntime, space: &mut [u8; HELD], out: &mut [u8; ROOM], asked: Asked<'_>) {
    let n = read_full(&mut rt.stdin(), space);
    if n > LONGEST {
        let _ = println!(rt;
            "MESSAGE TOO LONG: over {LONGEST} bytes, the length of {} items; nothing is shown",
            Session::MOST
        );
        return;
    }
    let mut page = Page {
        space: out,
        filled: 0,
    };
    put_message(rt, &mut page, &space[..n], asked);
}

// The message is shown with what the files say.
fn given(rt: &HostRuntime, asked: Asked<'_>) {
    let mut space = [0u8; HELD];
    let mut out = [0u8; ROOM];
    answer(rt, &mut space, &mut out, asked);
}

// The files are judged before a byte of the message is read.
fn answered(rt: &HostRuntime, only: bool, day: &[u8], banks: &[u8], known: &[u8]) {
    let mut list = [0u32; files::BANKS];
    match files::read(day, banks, known, &mut list) {
        Ok(said) => {
            let lists = Lists {
                banks: &list[..said.banks],
                known,
                barred: &[],
            };
            let asked = Asked {
                only,
                day: said.day,
                lists,
            };
            given(rt, asked)
        }
        Err(r) => refuse(rt, r),
    }
}

// What the three files hold is read. All is shown; or, with `only`, no more than the records with a fault, a watch or a break, and the
// verdict.
fn run(rt: &HostRuntime, only: bool) {
    let mut day = [0u8; SPACE];
    let mut banks = [0u8; SPACE];
    let mut known = [0u8; SPACE];
    let n = read_files(rt, &mut day, &mut banks, &mut known);
    answered(
        rt,
        only,
        &day[..n.day],
        &banks[..n.banks],
        &known[..n.known],
    );
}

// What one argument asks for: the word `faults`. One that is longer than its space counts as empty.
fn asks_faults(rt: &impl Env) -> bool {
    let mut word = [0u8; 8];
    let n = read_argument(rt, 1, &mut word);
    matches!(&word[..n], b"faults")
}

fn main(rt: HostRuntime) {
    match argument_count(&rt) {
        1 => run(&rt, false),
        2 if asks_faults(&rt) => run(&rt, true),
        _ => say(
            &rt,
            b"Usage: view [faults], the message on standard input\n",
        ),
    }
}
