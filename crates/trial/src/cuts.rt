// A message of at most 9,999 bytes in two pieces, cut at each place.
use crate::show::put_lent;
use crate::words::Case;
use console::put_next;

// What a judging gave: its number, and what stands in numbers, identifier and table.
#[derive(Clone, Copy, PartialEq)]
struct Left {
    number: u32,
    numbers: [u64; 7],
    id: [u8; 25],
    table: [u8; 25],
}

impl Case<'_> {
    // The message is judged in two pieces, with a table of so many bytes. Of the two lengths the last piece's comes first: 0 for what is left.
    fn in_two(self, cut: usize, length: usize) -> Left {
        let mut session = [0u8; packed::BYTES];
        let mut table = [255u8; 25];
        let mut numbers = [255u64; 7];
        let mut id = [255u8; 25];
        let mut lengths = [b'0'; 8];
        digits::put_at(&mut lengths, 4, 4, cut as u64);
        let number = self.by_pieces(
            &lengths,
            &mut session,
            &mut table[..length.min(25)],
            &mut numbers,
            &mut id,
        );
        Left {
            number,
            numbers,
            id,
            table,
        }
    }

    // The pieces of each cut give what is given first.
    fn agree(self, first: Left, length: usize) -> bool {
        (0..=self.text.len()).all(|cut| self.in_two(cut, length) == first)
    }

    // What the message gives by an empty piece and all of it, and 1 where each cut gives that. The table has the line's length, at most 25.
    pub(crate) fn each_cut(self, rt: &impl Print) {
        let length = self.field(0, 5) as usize;
        let first = self.in_two(0, length);
        let table = &first.table[..length.min(25)];
        put_lent(rt, first.number, &first.numbers, &first.id, table);
        put_next(rt, u64::from(self.agree(first, length)));
    }
}
