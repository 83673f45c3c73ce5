// Tries the cases of the script on standard input through the calls that a host in C links (include/nshanvekh.h): messages, judged
// whole and by pieces, with the reply written and read back; single records; STATUS messages; a session, call by call; cover answers; and
// what the slip program prints. reference/cases.py prints the script; reference/trial.py gives the expected output and says what a line is.
#![tactic(auto)]

mod calls;
mod covers;
mod cuts;
mod pieces;
mod reply;
mod show;
mod slip;
mod words;

use crate::calls::{Memory, SESSION};
use crate::words::{Case, Given, add, add_many, changed};
use console::{put, put_next, read_full};
use lent::Lists;
use script::{field, fill};

// Room for test data: the script; a base text, of 10,001 items and more; a text with changes; a reply to 10,000 items, and bytes after it.
const SCRIPT: usize = 1310720;

const BASE: usize = 2560000;

const TEXT: usize = 8192;

const REPLY: usize = 650200;

// Room for a barred list: each code (02 #105), and one number more.
const BARRED: usize = 1001;

impl Case<'_> {
    // The text is tried.
    fn tried(self, rt: &impl Print, command: u8, out: &mut [u8], session: &mut Memory) {
        match command {
            b'j' => {
                let mut own = [0u8; SESSION];
                self.called(rt, b'j', &mut own);
                put(rt, b" p");
                self.called(rt, b'p', &mut own);
                self.replied(rt, out, &mut own);
            }
            b'w' => self.replied(rt, out, session),
            b'r' => self.called(rt, command, session),
            b'a' => self.each_cut(rt),
            b's' => self.single(rt),
            b'f' => slip::print(rt, self),
            b'd' => self.cover_judged(rt),
            b'q' => self.cover_written(rt, out),
            _ => self.stepped(rt, command, session),
        }
    }

    // The text is a single record: ten digits its place, ten the kind of its message.
    fn single(self, rt: &impl Print) {
        let n = nshanvekh::nsh_single(
            self.text,
            self.given.day,
            self.lists.banks,
            self.lists.known,
            self.field(0, 10),
            self.field(11, 21),
        );
        put_next(rt, u64::from(n));
    }
}

// The text is tried with what is given; a line of its own says what that gave.
fn answered(
    rt: &impl Print,
    given: Given<'_>,
    command: u8,
    text: &[u8],
    words: &[u8],
    out: &mut [u8],
    session: &mut Memory,
) {
    let mut list = [0u32; 40];
    let mut codes = [0u32; BARRED];
    let banks = fill(&mut list, given.banks);
    let barred = fill(&mut codes, given.barred);
    let lists = Lists {
        banks: &list[..banks],
        known: given.known,
        barred: &codes[..barred],
    };
    let case = Case {
        text,
        words,
        given,
        lists,
    };
    put(rt, &[command]);
    case.tried(rt, command, out, session);
    put(rt, b"\n");
}

// A case: its own words, and after | the changes of the base text. Where there are none the base text itself is tried.
fn case(
    rt: &impl Print,
    given: Given<'_>,
    command: u8,
    words: &[u8],
    base: &[u8],
    out: &mut [u8],
    session: &mut Memory,
) {
    let base = &base[..given.base.min(base.len())];
    let Some(own) = words.iter().position(|b| *b == b'|') else {
        answered(rt, given, command, base, words, out, session);
        return;
    };
    let mut text = [0u8; TEXT];
    let n = changed(&mut text, base, &words[own + 1..]);
    answered(rt, given, command, &text[..n], &words[..own], out, session);
}

// A line that sets the clearing day, a list, sizes or a reply's particulars, or builds the base text.
fn set<'a>(command: u8, words: &'a [u8], mut given: Given<'a>, base: &mut [u8]) -> Given<'a> {
    match command {
        b'E' => given.day = field(words, 0, 8),
        b'B' => given.banks = words,
        b'K' => given.known = words,
        b'A' => given.barred = words,
        b'P' => {
            if let [duplicate, ..] = words {
                given.duplicate = *duplicate;
            }
            given.number = field(words, 2, 12);
            given.time = field(words, 13, 23);
            given.room = field(words, 24, 30) as usize;
        }
        b'Z' => given.sizes = field(words, 0, 3),
        b'M' => given.base = 0,
        b'*' => given.base = add_many(base, given.base, words),
        _ => given.base = add(base, given.base, command, words),
    }
    given
}

// A line is a case, a comment, puts a byte into the session, or sets something. Only cases have small letters.
fn line<'a>(
    rt: &impl Print,
    s: &'a [u8],
    given: Given<'a>,
    base: &mut [u8],
    out: &mut [u8],
    session: &mut Memory,
) -> Given<'a> {
    let [command, _, words @ ..] = s else {
        return given;
    };
    match *command {
        b'a'.. => case(rt, given, *command, words, base, out, session),
        b'#' => {
            put(rt, s);
            put(rt, b"\n");
        }
        b'X' => calls::put_byte(words, session),
        _ => return set(*command, words, given, base),
    }
    given
}

// The script is run: at first there are empty lists, right sizes and no output.
fn lines(rt: &impl Print, s: &[u8], base: &mut [u8], out: &mut [u8], session: &mut Memory) {
    let mut given = Given {
        day: 0,
        banks: &[],
        known: &[],
        barred: &[],
        base: 0,
        sizes: 111,
        duplicate: 0,
        number: 0,
        time: 0,
        room: 0,
    };
    for piece in s.split_inclusive(|b| *b == b'\n') {
        let own = piece.strip_suffix(b"\n").unwrap_or(piece);
        given = line(rt, own, given, base, out, session);
    }
}

// The script is read into the space and run.
fn run(
    rt: &HostRuntime,
    space: &mut [u8; SCRIPT],
    base: &mut [u8; BASE],
    out: &mut [u8; REPLY],
    session: &mut Memory,
) {
    let n = read_full(&mut rt.stdin(), space);
    lines(rt, &space[..n], base, out, session);
}

fn main(rt: HostRuntime) {
    let mut space = [0u8; SCRIPT];
    let mut base = [0u8; BASE];
    let mut out = [0u8; REPLY];
    let mut session = [0u8; SESSION];
    run(&rt, &mut space, &mut base, &mut out, &mut session);
}
