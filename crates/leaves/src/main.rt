// Runs the lines of standard input through every public function of text, digits, cdv, account, calendar, lists and purposes, and through
// the foot's rules. A line is a command letter, a space and bytes; each is printed again with a tab and the answers (reference/leaves.py
// says which).
#![tactic(auto)]

use account::AccountFault;
use calendar::DateFault;
use console::{put, put_next, read_full};
use script::field;

// Room for the numbers of a list: each barred code (02 #105), and one number more.
const LIST: usize = 1001;

fn put_flag(rt: &impl Print, yes: bool) {
    put_next(rt, u64::from(yes));
}

fn decimal(rt: &impl Print, s: &[u8]) {
    put_flag(rt, digits::is_digits(s));
    put_next(rt, digits::number(s));
}

fn account(rt: &impl Print, s: &[u8]) {
    put_next(
        rt,
        match account::read(s) {
            Ok(()) => 0,
            Err(AccountFault::FormOfFirstEight) => 1,
            Err(AccountFault::FormOfLastEight) => 2,
            Err(AccountFault::CheckDigitOverEight) => 3,
            Err(AccountFault::CheckDigitOverSixteen) => 4,
        },
    );
    put_flag(rt, account::is_zero(s));
}

// Kept: 0 is printed for a number that doesn't fit, so an Option would be turned back at once.
// The number that the twenty digits after the first two bytes stand for, 0 where it is 2^64 or more.
fn large(s: &[u8]) -> u64 {
    let Some(low) = s.get(6..22) else {
        return 0;
    };
    u64::from(field(s, 2, 6))
        .checked_mul(10000000000000000)
        .and_then(|high| high.checked_add(digits::number(low)))
        .unwrap_or(0)
}

// A number written into the bytes after its width and its digits.
fn written(rt: &impl Print, space: &mut [u8], s: &[u8]) {
    let Some(bytes) = s.get(22..) else {
        return;
    };
    let Some(out) = space.get_mut(..bytes.len()) else {
        return;
    };
    text::put(out, bytes);
    put_flag(
        rt,
        digits::put_number(out, field(s, 0, 2) as usize, large(s)),
    );
    put(rt, b" ");
    put(rt, out);
}

// Bytes put over the front of those after them; two digits say how many.
fn put_over(rt: &impl Print, space: &mut [u8], s: &[u8]) {
    let end = 2 + field(s, 0, 2) as usize;
    let Some(bytes) = s.get(end..) else {
        return;
    };
    let Some(out) = space.get_mut(..bytes.len()) else {
        return;
    };
    text::put(out, bytes);
    put_flag(rt, text::put(out, &s[2..end]));
    put(rt, b" ");
    put(rt, out);
}

fn text_field(rt: &impl Print, s: &[u8]) {
    put_flag(rt, text::is_text(s));
    put_flag(rt, text::is_plain(s));
    put_flag(rt, text::is_blank(s));
    put_flag(rt, text::is_blank_or_zero(s));
}

fn every_byte(rt: &impl Print) {
    for b in 0..=u8::MAX {
        put_flag(rt, text::is_text(&[b]));
    }
}

fn date_field(rt: &impl Print, s: &[u8]) {
    match calendar::read_date(s) {
        Ok(n) => {
            put_flag(rt, calendar::is_date(n));
            put_next(rt, calendar::day_number(n) as u64);
        }
        Err(DateFault::NotDigits) => put_next(rt, 2),
        Err(DateFault::NoDate) => put_next(rt, 3),
    }
}

fn window(rt: &impl Print, s: &[u8]) {
    let first = field(s, 0, 8);
    let later = field(s, 8, 16);
    put_flag(rt, calendar::is_within(first, later, field(s, 16, 21)));
    put_flag(rt, calendar::is_before(first, later));
    put_flag(rt, calendar::is_due(first, later));
}

// Each number is above the one before it.
fn rises(list: &[u32]) -> bool {
    list.is_sorted_by(|a, b| a < b)
}

// The answers on a list and a code; where the list doesn't rise, being listed isn't promised.
fn listed(rt: &impl Print, list: &[u32], code: u32) {
    put_flag(rt, lists::is_bank_list(list));
    if rises(list) {
        put_flag(rt, lists::is_listed(list, code));
    } else {
        put(rt, b" -");
    }
}

// A code, and the numbers of a bank list, ten digits each.
fn banks(rt: &impl Print, space: &mut [u32], s: &[u8]) {
    let Some(numbers) = s.get(10..) else {
        return;
    };
    let count = script::fill(space, numbers);
    listed(rt, &space[..count], field(s, 0, 10));
}

// The numbers of a barred list, ten digits each.
fn barred(rt: &impl Print, space: &mut [u32], s: &[u8]) {
    let count = script::fill(space, s);
    put_flag(rt, lists::is_barred_list(&space[..count]));
}

// An identifier, and a known list.
fn known(rt: &impl Print, s: &[u8]) {
    let Some((id, list)) = s.split_first_chunk() else {
        return;
    };
    put_flag(rt, lists::is_known_list(list));
    put_flag(rt, lists::is_known(list, *id));
}

// Ten digits count, sixteen digits sum, and a foot.
fn foot(rt: &impl Print, s: &[u8]) {
    let Some(foot) = s.get(26..) else {
        return;
    };
    let count = digits::number(&s[..10]);
    let sum = digits::number(&s[10..26]);
    put_next(rt, u64::from(items::foot::code_in(foot, count, sum)));
}

fn answer(rt: &impl Print, command: u8, s: &[u8]) {
    let mut bytes = [0u8; 128];
    let mut numbers = [0u32; LIST];
    match command {
        b'd' => decimal(rt, s),
        b'c' => put_flag(rt, cdv::satisfies(s)),
        b'e' => put_flag(rt, cdv::is_ean13(s)),
        b'a' => account(rt, s),
        b'n' => written(rt, &mut bytes, s),
        b'x' => put_over(rt, &mut bytes, s),
        b't' => text_field(rt, s),
        b'T' => every_byte(rt),
        b'f' => date_field(rt, s),
        b'w' => window(rt, s),
        b'b' => banks(rt, &mut numbers, s),
        b'A' => barred(rt, &mut numbers, s),
        b'k' => known(rt, s),
        b'p' => put_flag(rt, purposes::is_purpose(s)),
        b'z' => foot(rt, s),
        _ => put(rt, b"?"),
    }
}

fn line(rt: &impl Print, s: &[u8]) {
    put(rt, s);
    put(rt, b"\t");
    if let [command, _, bytes @ ..] = s {
        answer(rt, *command, bytes);
    }
    put(rt, b"\n");
}

fn lines(rt: &impl Print, s: &[u8]) {
    for piece in s.split_inclusive(|b| *b == b'\n') {
        line(rt, piece.strip_suffix(b"\n").unwrap_or(piece));
    }
}

fn main(rt: HostRuntime) {
    let mut space = [0u8; 65536];
    let n = read_full(&mut rt.stdin(), &mut space);
    lines(&rt, &space[..n]);
}
