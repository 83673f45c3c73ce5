// Answers on standard output, each number after a space.
use console::put_next;

pub(crate) fn put_numbers(rt: &impl Print, s: &[u64]) {
    for n in s {
        put_next(rt, *n);
    }
}

pub(crate) fn put_bytes(rt: &impl Print, s: &[u8]) {
    for b in s {
        put_next(rt, u64::from(*b));
    }
}

// The sum of the bytes, and the sum of the sums of all beginnings.
pub(crate) fn put_sums(rt: &impl Print, s: &[u8]) {
    let mut sum: u64 = 0;
    let mut all: u64 = 0;
    for b in s {
        sum = sum.wrapping_add(u64::from(*b));
        all = all.wrapping_add(sum);
    }
    put_next(rt, sum);
    put_next(rt, all);
}

// The number of a call, and what stands in the numbers, the identifier and the table that it was lent.
pub(crate) fn put_lent(rt: &impl Print, n: u32, numbers: &[u64], id: &[u8], table: &[u8]) {
    put_next(rt, u64::from(n));
    put_numbers(rt, numbers);
    put_sums(rt, id);
    put_sums(rt, table);
}
