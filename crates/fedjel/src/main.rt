// Judges the FEDJEL on standard input by the cover requests of the day and prints its message code, how many items it has, and a line for
// each: its place, its code and, where it is a standing answer, STANDS and the answer. The clearing day and the requests stand in the files
// `day` and `requests` of the folder where it runs. A refusal is the answer, as on the slip (02 #103).
#![tactic(auto)]

ghost use Rattle.std.specs.Prelude.{◌≡◌, [], ◌<◌, length, get_or};
ghost use Rattle.answers.specs.Fedjel.{item_count, items_of};
ghost use Rattle.answers.specs.Answers.{answer_of};

use answers::{HEAD_ENDED, ITEM_ENDED};
use console::fedjel::{ITEMS, LONGEST, MESSAGE, REQUESTS};
use console::{put, read_file, read_full, refuse};
use cover::Judged;
use lent::Refusal;

// The message code and the number of items.
fn put_verdict(rt: &impl Print, code: u8, items: usize) {
    let mut out = [0u8; 64];
    let n = lines::cover::put_verdict(&mut out, code, items as u64);
    put(rt, &out[..n]);
}

// The line of an item.
fn put_item(rt: &impl Print, message: u8, place: usize, code: u8, answer: u8) {
    let mut out = [0u8; 64];
    let n = lines::cover::put_answer(&mut out, message, place as u64, code, answer);
    put(rt, &out[..n]);
}

// The answer of the k-th item, counted from 0: its position 68 (002 12.3, 12.4).
fn answer_of(message: &[u8], k: usize) -> u8
    requires { k < item_count message.now }
    ensures { result ≡ answer_of (get_or (items_of message.now) k []) }
{
    message[HEAD_ENDED + k * ITEM_ENDED + 67]
}

// The lines of the items, each of which has its code.
fn put_items(rt: &impl Print, code: u8, message: &[u8], codes: &[u8])
    requires { length codes.now ≡ item_count message.now }
{
    for (k, own) in codes.iter().enumerate() {
        put_item(rt, code, k + 1, *own, answer_of(message, k));
    }
}

// The message is judged on a day, and what is found of it printed.
fn judged(rt: &impl Print, day: u32, requests: &[u8], message: &[u8], table: &mut [u8]) {
    match cover::judge(day, requests, message, table) {
        Ok(Judged { code, items }) => {
            put_verdict(rt, code, items);
            put_items(rt, code, message, &table[..items])
        }
        Err(r) => refuse(rt, r),
    }
}

// The requests and the message are read; a longer message than is held isn't judged.
fn answer(
    rt: &HostRuntime,
    requests: &mut [u8; REQUESTS],
    message: &mut [u8; MESSAGE],
    table: &mut [u8; ITEMS],
) {
    let day = console::fedjel::day(rt);
    let r = read_file(rt, "requests", requests);
    let n = read_full(&mut rt.stdin(), message);
    if n > LONGEST {
        console::fedjel::too_long(rt, b"fedjel");
        return;
    }
    match day {
        Some(day) => judged(rt, day, &requests[..r], &message[..n], table),
        None => refuse(rt, Refusal::NotADay),
    }
}

fn main(rt: HostRuntime) {
    let mut requests = [0u8; REQUESTS];
    let mut message = [0u8; MESSAGE];
    let mut table = [0u8; ITEMS];
    answer(&rt, &mut requests, &mut message, &mut table);
}
