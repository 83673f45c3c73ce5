// The calls on cover answers (02 #103): a FEDJEL judged, a FEDSTA written. The list of requests stands before the message in the text.
use crate::show::{put_bytes, put_numbers, put_sums};
use crate::words::{Case, size};
use console::{put, put_next};

// The memory of a code table. Here a table may have more than 01's 10,000 bytes.
const TABLE: usize = 20000;

// How many bytes of a table are shown one by one.
const SHOWN: usize = 25;

// The bytes of a FEDSTA.
const FEDSTA: usize = 104;

// What a writing left: its number and the sums of the bytes after the FEDSTA, or of all where it is refused; then the FEDSTA.
fn left(rt: &impl Print, n: u32, out: &[u8]) {
    put_next(rt, u64::from(n));
    if n != 0 {
        put_sums(rt, out);
        return;
    }
    let (fedsta, after) = out.split_at(FEDSTA.min(out.len()));
    put_sums(rt, after);
    put(rt, b"\n");
    put(rt, fedsta);
}

impl Case<'_> {
    // A FEDJEL is judged, six digits the list's length, five the table's: its number, what stands in the numbers, the first bytes of the
    // table, and the table's sums.
    pub(crate) fn cover_judged(self, rt: &impl Print) {
        let mut table = [255u8; TABLE];
        let mut numbers = [255u64; 3];
        let (requests, message) = self.halves(0, 6);
        let length = (self.field(7, 12) as usize).min(TABLE);
        let count = size(2, self.given.sizes / 10);
        let table = &mut table[..length];
        let numbers = &mut numbers[..count];
        let n = nshanvekh::nsh_fedjel(message, self.given.day, requests, table, numbers);
        put_next(rt, u64::from(n));
        put_numbers(rt, numbers);
        put_bytes(rt, &table[..SHOWN.min(length)]);
        put_sums(rt, table);
    }

    // A FEDSTA is written to the front of the output, by the particulars that are given: six digits the list's length, three cover, ten the
    // count, and the identifier.
    pub(crate) fn cover_written(self, rt: &impl Print, out: &mut [u8]) {
        let g = self.given;
        let (requests, message) = self.halves(0, 6);
        let cover = (self.field(7, 10) % 256) as u8;
        let room = g.room.min(out.len());
        let out = &mut out[..room];
        out.fill(255);
        let n = nshanvekh::nsh_fedsta(
            message,
            g.day,
            requests,
            self.onward(22),
            cover,
            g.duplicate,
            g.number,
            g.time,
            self.field(11, 21),
            out,
        );
        left(rt, n, out);
    }
}
