// The reply to a message, written and read back.
use crate::calls::Memory;
use crate::show::{put_numbers, put_sums};
use crate::words::{Case, cut, size};
use console::{put, put_next};

// Kept: the number as the C interface gives it, here and in `pieces`: it is printed.
// What a writing told is shown: the length of the reply, 0 where it is refused.
fn told(rt: &impl Print, n: u32, numbers: &[u64]) -> u64 {
    put(rt, b" w");
    put_next(rt, u64::from(n));
    put_numbers(rt, numbers);
    if n != 0 {
        return 0;
    }
    numbers.first().copied().unwrap_or(0)
}

impl Case<'_> {
    // The reply to the message is written to the front of the output, by the particulars that are given.
    fn written(self, rt: &impl Print, out: &mut [u8], numbers: &mut [u64]) -> u64 {
        let g = self.given;
        let l = self.lists;
        out.fill(255);
        let n = nshanvekh::nsh_reply(
            self.text,
            g.day,
            l.banks,
            l.known,
            l.barred,
            g.duplicate,
            g.number,
            g.time,
            out,
            numbers,
        );
        told(rt, n, numbers)
    }

    // The reply of so many bytes, what follows it in the output, and what is read from it.
    fn read_back(self, rt: &impl Print, out: &[u8], n: u64, session: &mut Memory) {
        let (reply, after) = cut(out, n);
        put_sums(rt, reply);
        put_sums(rt, after);
        put(rt, b" r");
        self.with(reply).called(rt, b'r', session);
    }

    // The reply to the message is written and read back.
    pub(crate) fn replied(self, rt: &impl Print, out: &mut [u8], session: &mut Memory) {
        let mut numbers = [255u64; 2];
        let room = self.given.room.min(out.len());
        let out = &mut out[..room];
        let count = size(1, self.given.sizes / 10);
        let n = self.written(rt, out, &mut numbers[..count]);
        self.read_back(rt, out, n, session);
    }
}
