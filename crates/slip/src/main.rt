// Prints the slip of the message on standard input. The clearing day and the lists stand in the files `day`, `banks` and `known` of
// the folder where it runs (01, Examples); its barred list is empty (02 #105).
#![tactic(auto)]

ghost use Rattle.std.specs.Prelude.{[], take};
ghost use Rattle.base.specs.Counts.{IsPrefixLen};
ghost use Rattle.lent.specs.Lent.{listed, listed_in};
ghost use Rattle.slips.specs.Message.{FedAs, FedBy, answer_by, zeros, slip_by, TextFor};

use console::{put, read_files, read_full};
use files::SPACE;
use judge::{Session, Taken};
use lent::Lists;
use std::io::Read;

// The space for what is printed.
const OUTPUT: usize = 256;

// A piece that was read: its length, and the session to use next.
#[derive(Clone, Copy)]
struct Fed {
    length: usize,
    next: Taken,
}

// The next piece of the message, as large as the space: what was read stands at the front of the space, and all of it is fed.
fn read_piece(
    input: &mut impl Read,
    t: Taken,
    space: &mut [u8],
    lists: &Lists,
    table: &mut [u8],
) -> Fed
    ensures { FedAs t (take result.length space.new) (listed_in lists.now)
        table.old result.next table.new }
{
    let n = read_full(input, space);
    Fed {
        length: n,
        next: slips::feed(t, &space[..n], lists, table),
    }
}

// The message, piece by piece; it is over where the input is, or where a read fails. A proved loop has to end: this one has more turns
// than any run uses up.
fn read_message(
    input: &mut impl Read,
    mut t: Taken,
    space: &mut [u8],
    lists: &Lists,
    table: &mut [u8],
) -> Taken
    ensures { FedBy t (listed_in lists.now) table.old result table.new }
{
    for _ in 0..u64::MAX {
        let f = read_piece(input, t, space, lists, table);
        t = f.next;
        if f.length == 0 {
            break;
        }
    }
    t
}

// The message is judged with what the files say; what is to be printed stands at the front of the output.
fn judged(
    input: &mut impl Read,
    out: &mut [u8; OUTPUT],
    day: u32,
    banks: &[u32],
    known: &[u8],
) -> usize
    ensures { TextFor (answer_by day zeros (listed banks.now known.now [])) out.old result out.new }
{
    let mut table = [0u8; Session::MOST];
    let mut space = [0u8; 65536];
    let lists = Lists {
        banks,
        known,
        barred: &[],
    };
    let start = Session::open(day, &table);
    let t = read_message(input, start, &mut space, &lists, &mut table);
    slips::answer(out, t)
}

// The slip, or the refusal of a file, at the front of the output.
fn answered(
    input: &mut impl Read,
    out: &mut [u8; OUTPUT],
    day: &[u8],
    banks: &[u8],
    known: &[u8],
) -> usize
    ensures prefix_len { IsPrefixLen result out.new }
    ensures text_for { TextFor (slip_by day.now banks.now known.now) out.old result out.new }
{
    let mut list = [0u32; files::BANKS];
    match files::read(day, banks, known, &mut list) {
        Ok(given) => judged(input, out, given.day, &list[..given.banks], known),
        Err(r) => lines::slip::put_refusal(out, r),
    }
}

fn main(rt: HostRuntime) {
    let mut day = [0u8; SPACE];
    let mut banks = [0u8; SPACE];
    let mut known = [0u8; SPACE];
    let mut out = [0u8; OUTPUT];
    let n = read_files(&rt, &mut day, &mut banks, &mut known);
    let n = answered(
        &mut rt.stdin(),
        &mut out,
        &day[..n.day],
        &banks[..n.banks],
        &known[..n.known],
    );
    put(&rt, &out[..n]);
}
