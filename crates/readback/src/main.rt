// Prints what the STATUS on standard input says, a fact a line. Refusals go to standard error (01, Calls and their answers).
#![tactic(auto)]

ghost use Rattle.std.specs.Prelude.{◌≤◌, length};
ghost use Rattle.base.specs.Counts.{IsPrefixLen};

use console::{put, read_full, refuse};
use frame::Status;
use judge::Session;

// The longest STATUS that is held: 104 bytes of head and foot, and 65 for each of as many references as a table has codes.
const STATUS: usize = 104 + 65 * Session::MOST;

// One byte more, so that a longer one shows.
const SPACE: usize = STATUS + 1;

// Room for the lines of the head and foot, under 400 bytes, and for 15 bytes a reference.
const TEXT: usize = 400 + 15 * Session::MOST;

// The references' lines, from a place of the output on; the place after them.
fn put_items(out: &mut [u8], from: usize, codes: &[u8]) -> usize
    requires { from ≤ length out.old }
    ensures { IsPrefixLen result out.new }
{
    let mut at = from;
    for (i, code) in codes.iter().enumerate() {
        at += lines::facts::put_item(&mut out[at..], i as u64 + 1, *code);
    }
    at
}

// What the STATUS says, on standard output.
fn print(rt: &impl Print, s: Status, codes: &[u8]) {
    let mut out = [0u8; TEXT];
    let n = lines::facts::put_status(&mut out, s);
    let end = put_items(&mut out, n, codes);
    put(rt, &out[..end]);
}

// The STATUS is read, and printed or refused.
fn read(rt: &HostRuntime, bytes: &[u8]) {
    let mut codes = [0u8; Session::MOST];
    match reading::read_status(bytes, &mut codes) {
        Ok(s) => print(rt, s, &codes[..s.references]),
        Err(r) => refuse(&rt.stderr(), r),
    }
}

// Of a longer one nothing is read.
fn too_long(rt: &HostRuntime) {
    let _ = eprintln!(rt;
        "readback: over {STATUS} bytes, a STATUS with more than {} references isn't read",
        Session::MOST
    );
}

// The STATUS is read into the space.
fn answer(rt: &HostRuntime, space: &mut [u8; SPACE]) {
    let n = read_full(&mut rt.stdin(), space);
    if n > STATUS {
        too_long(rt);
        return;
    }
    read(rt, &space[..n]);
}

fn main(rt: HostRuntime) {
    let mut space = [0u8; SPACE];
    answer(&rt, &mut space);
}
