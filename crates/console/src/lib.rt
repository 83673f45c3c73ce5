// What the programs share of input and output: the bytes of a file, of standard input or of an argument into lent space, the number of an
// argument, standard output and standard error; and for those that take a FEDJEL what they hold (`fedjel`). No contract can say what is
// written to a stream, so the functions that only write have none; a write that fails is passed over.
#![tactic(auto)]

ghost use Rattle.std.specs.Prelude.{◌≡◌};
ghost use Rattle.base.specs.Counts.{IsPrefixLen};
ghost use Rattle.console.specs.Arguments.{number_of_word};

use lent::Refusal;
use std::env::FillError;
use std::fs::File;
use std::io::{ErrorKind, Read};
use std::rt::{Env, Files};

pub mod fedjel;

// Bytes of the input at the front of the space, and how many: until the space is full, the input ends or a read fails. A read that a signal
// interrupts is tried again. A proved loop has to end: this one has more turns than any run uses up.
pub fn read_full(input: &mut impl Read, space: &mut [u8]) -> usize
    ensures { IsPrefixLen result space.new }
{
    let mut done = 0;
    for _ in 0..u64::MAX {
        if done >= space.len() {
            break;
        }
        match input.read(&mut space[done..]) {
            Ok(0) => break,
            Ok(n) => done += n,
            Err(e) => {
                if e.kind() != ErrorKind::Interrupted {
                    break;
                }
            }
        }
    }
    done
}

// A file's bytes at the front of the space, and how many; none of a file that is missing or can't be read.
pub fn read_file(rt: &impl Files, path: &str, space: &mut [u8]) -> usize
    ensures { IsPrefixLen result space.new }
{
    let Ok(mut file) = File::open(rt, path) else {
        return 0;
    };
    read_full(&mut file, space)
}

// How many bytes each of the three files has that the clearing day and the lists come from.
#[derive(Clone, Copy)]
pub struct Lengths {
    pub day: usize,
    pub banks: usize,
    pub known: usize,
}

// The bytes of the files `day`, `banks` and `known`, each at the front of its space, and how many.
pub fn read_files(rt: &impl Files, day: &mut [u8], banks: &mut [u8], known: &mut [u8]) -> Lengths
    ensures day { IsPrefixLen result.day day.new }
    ensures banks { IsPrefixLen result.banks banks.new }
    ensures known { IsPrefixLen result.known known.new }
{
    Lengths {
        day: read_file(rt, "day", day),
        banks: read_file(rt, "banks", banks),
        known: read_file(rt, "known", known),
    }
}

// How many arguments the program was started with, its own name among them.
pub fn argument_count(rt: &impl Env) -> usize {
    let mut none = [0u8; 0];
    for i in 0..usize::MAX {
        if let Err(FillError::NotPresent) = rt.arg(i, &mut none) {
            return i;
        }
    }
    usize::MAX
}

// An argument's bytes at the front of the space, and how many; none of one that is missing or longer than the space.
pub fn read_argument(rt: &impl Env, i: usize, space: &mut [u8]) -> usize
    ensures { IsPrefixLen result space.new }
{
    rt.arg(i, space).unwrap_or(0)
}

// The number of so many digits at least and at most, and never more than nine, which a u32 holds.
#[tactic(auto, using(crate::proofs::Numbers::small), unfolding(crate::specs::Arguments::number_of_word))]
pub fn number_of(s: &[u8], least: usize, most: usize) -> Option<u32>
    ensures { result ≡ number_of_word least most s.now }
{
    if !(least..=most.min(9)).contains(&s.len()) {
        return None;
    }
    if !digits::is_digits(s) {
        return None;
    }
    Some(digits::number(s) as u32)
}

// Bytes on a stream: the runtime's own is standard output.
pub fn put(rt: &impl Print, s: &[u8]) {
    let _ = rt.write_all(s);
}

// A number on a stream.
pub fn put_number(rt: &impl Print, n: u64) {
    let _ = rt.print(n);
}

// A number after a space, on a stream.
pub fn put_next(rt: &impl Print, n: u64) {
    put(rt, b" ");
    put_number(rt, n);
}

// Bytes on standard error.
pub fn say(rt: &HostRuntime, s: &[u8]) {
    put(&rt.stderr(), s);
}

// The line of a refusal on a stream: standard error, or standard output where it is the answer.
pub fn refuse(rt: &impl Print, r: Refusal) {
    let mut line = [0u8; 32];
    let n = lines::slip::put_refusal(&mut line, r);
    put(rt, &line[..n]);
}
