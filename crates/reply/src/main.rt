// Writes the STATUS reply to the message on standard input: reply DUPLICATE NUMBER TIME. The clearing day and the lists stand in the
// files `day`, `banks` and `known` of the folder where it runs; its barred list is empty (02 #105). Refusals and wrong arguments go to
// standard error (01, Calls and their answers; Examples).
#![tactic(auto)]

use console::{argument_count, number_of, put, read_argument, read_files, read_full, refuse, say};
use files::SPACE;
use judge::Session;
use lent::Lists;
use status::reply::Particulars;

// A head, one item more than a reply is for, each with its ending, and a byte: what follows can't change the answer. With so many complete
// items before a break it is refusal 6; otherwise a break or the foot stands before this, and so does a byte after the foot.
const MESSAGE: usize = Session::HEAD + 2 + (Session::ITEM + 2) * (Session::MOST + 1) + 1;

// The longest reply: 104 bytes of head and foot, and 65 for each of as many references as a table has codes.
const REPLY: usize = 104 + 65 * Session::MOST;

// What a reply is written by: the clearing day, the lists, with no bank barred, and the particulars.
#[derive(Clone, Copy)]
struct Told<'a> {
    day: u32,
    lists: Lists<'a>,
    particulars: Particulars,
}

impl Told<'_> {
    // The message is read, and the reply written.
    fn answer(self, rt: &HostRuntime, message: &mut [u8; MESSAGE], out: &mut [u8; REPLY]) {
        let n = read_full(&mut rt.stdin(), message);
        let message = &message[..n];
        match status::reply::write(self.day, &self.lists, message, self.particulars, out) {
            Ok(n) => put(rt, &out[..n]),
            Err(r) => refuse(&rt.stderr(), r),
        }
    }

    // In memory of its own.
    fn judged(self, rt: &HostRuntime) {
        let mut message = [0u8; MESSAGE];
        let mut out = [0u8; REPLY];
        self.answer(rt, &mut message, &mut out);
    }
}

// The files are judged before the message is read.
fn given(rt: &HostRuntime, day: &[u8], banks: &[u8], known: &[u8], particulars: Particulars) {
    let mut list = [0u32; files::BANKS];
    match files::read(day, banks, known, &mut list) {
        Ok(given) => {
            let lists = Lists {
                banks: &list[..given.banks],
                known,
                barred: &[],
            };
            let told = Told {
                day: given.day,
                lists,
                particulars,
            };
            told.judged(rt)
        }
        Err(r) => refuse(&rt.stderr(), r),
    }
}

// What the three files hold is read.
fn with_files(rt: &HostRuntime, particulars: Particulars) {
    let mut day = [0u8; SPACE];
    let mut banks = [0u8; SPACE];
    let mut known = [0u8; SPACE];
    let n = read_files(rt, &mut day, &mut banks, &mut known);
    given(
        rt,
        &day[..n.day],
        &banks[..n.banks],
        &known[..n.known],
        particulars,
    );
}

// The arguments, as text: one character; one to four digits; six digits; or what is wrong with one. What they say is judged with the
// message (refusal 8).
fn asked(duplicate: &[u8], number: &[u8], time: &[u8]) -> Result<Particulars, &'static str> {
    let [duplicate] = duplicate else {
        return Err("DUPLICATE is one character, 0 or @");
    };
    Ok(Particulars {
        duplicate: *duplicate,
        number: number_of(number, 1, 4).ok_or("NUMBER is one to four digits")?,
        time: number_of(time, 6, 6).ok_or("TIME is six digits, hhmmss")?,
    })
}

fn main(rt: HostRuntime) {
    if argument_count(&rt) != 4 {
        say(
            &rt,
            b"Usage: reply DUPLICATE NUMBER TIME (0 or @; one to four digits; hhmmss), the message on standard input\n",
        );
        return;
    }
    // An argument that is longer than its space counts as empty.
    let mut duplicate = [0u8; 8];
    let mut number = [0u8; 8];
    let mut time = [0u8; 8];
    let d = read_argument(&rt, 1, &mut duplicate);
    let n = read_argument(&rt, 2, &mut number);
    let t = read_argument(&rt, 3, &mut time);
    match asked(&duplicate[..d], &number[..n], &time[..t]) {
        Ok(particulars) => with_files(&rt, particulars),
        Err(wrong) => {
            let _ = eprintln!(rt; "reply: {wrong}. Usage: reply DUPLICATE NUMBER TIME");
        }
    }
}
