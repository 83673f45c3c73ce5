// What the slip program prints for files and a message, by the functions that it is made of (01, Examples).
ghost use Rattle.base.specs.Counts.{IsPrefixLen};

use crate::words::Case;
use console::put;
use judge::{Session, Taken};
use lent::Lists;

// The most bytes of a piece.
const PIECE: usize = 1000;

// The message is read by pieces.
fn fed(mut t: Taken, message: &[u8], lists: &Lists, table: &mut [u8]) -> Taken {
    for piece in message.chunks(PIECE) {
        t = slips::feed(t, piece, lists, table);
    }
    t
}

// The message is judged with what the files say; what is to be printed stands at the front of the output.
fn judged(out: &mut [u8], day: u32, lists: &Lists, message: &[u8]) -> usize
    ensures { IsPrefixLen result out.new }
{
    let mut table = [0u8; Session::MOST];
    let start = Session::open(day, &table);
    let t = fed(start, message, lists, &mut table);
    slips::answer(out, t)
}

// The slip, or the refusal of a file, at the front of the output.
fn answered(out: &mut [u8], day: &[u8], banks: &[u8], known: &[u8], message: &[u8]) -> usize
    ensures { IsPrefixLen result out.new }
{
    let mut list = [0u32; files::BANKS];
    match files::read(day, banks, known, &mut list) {
        Ok(given) => {
            let lists = Lists {
                banks: &list[..given.banks],
                known,
                barred: &[],
            };
            judged(out, given.day, &lists, message)
        }
        Err(r) => lines::slip::put_refusal(out, r),
    }
}

// What is printed for the files `day`, `banks` and `known`, whose lengths the line gives, and the message, which follow each other in the text.
pub(crate) fn print(rt: &impl Print, case: Case<'_>) {
    let mut out = [0u8; 256];
    let (day, rest) = case.halves(0, 5);
    let (banks, rest) = case.with(rest).halves(6, 11);
    let (known, message) = case.with(rest).halves(12, 17);
    let n = answered(&mut out, day, banks, known, message);
    put(rt, b"\n");
    put(rt, &out[..n]);
}
