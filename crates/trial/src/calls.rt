// The calls on a message, a STATUS and a session, and what each leaves in the memory that it was lent; bytes put into a session.
ghost use Rattle.std.specs.Prelude.{◌≤◌};

use crate::show::put_lent;
use crate::words::{Case, size};
use console::put_next;
use judge::Session;
use script::field;

// A byte more than a session has, so that a buffer can be too long.
pub(crate) const SESSION: usize = packed::BYTES + 1;

// The memory of a code table: one byte more than 01 lets a table have.
const TABLE: usize = Session::MOST + 1;

// The memory of a session, with one byte too many.
pub(crate) type Memory = [u8; SESSION];

// How many numbers a call is lent.
fn numbers_of(command: u8, z: u32) -> usize
    ensures { result ≤ 11 }
{
    let right = if command == b'r' { 10 } else { 7 };
    size(right, z / 10)
}

impl Case<'_> {
    // The call of a letter on the text: j judges it whole, p by pieces of the line's lengths, r reads it, o, t and c are of the session.
    fn call(
        self,
        command: u8,
        session: &mut [u8],
        table: &mut [u8],
        numbers: &mut [u64],
        id: &mut [u8],
    ) -> u32 {
        let day = self.given.day;
        let l = self.lists;
        match command {
            b'j' => {
                nshanvekh::nsh_judge(
                    self.text, day, l.banks, l.known, l.barred, table, numbers, id,
                )
            }
            b'p' => self.by_pieces(self.onward(6), session, table, numbers, id),
            b'r' => nshanvekh::nsh_read_status(self.text, table, numbers, id),
            b'o' => nshanvekh::nsh_open(day, table, session),
            b't' => nshanvekh::nsh_piece(session, self.text, l.banks, l.known, l.barred, table),
            _ => nshanvekh::nsh_close(session, numbers, id),
        }
    }

    // The call of a letter, with a table of the length that the line begins with, and buffers of the sizes that are given: its number, and
    // what stands in the numbers, the identifier and the table that it was lent, are shown.
    pub(crate) fn called(self, rt: &impl Print, command: u8, session: &mut Memory) {
        let mut table = [255u8; TABLE];
        let mut numbers = [255u64; 11];
        let mut id = [255u8; 26];
        let z = self.given.sizes;
        let length = (self.field(0, 5) as usize).min(TABLE);
        let own = size(packed::BYTES, z / 100);
        let count = numbers_of(command, z);
        let end = size(25, z);
        let table = &mut table[..length];
        let numbers = &mut numbers[..count];
        let id = &mut id[..end];
        let n = self.call(command, &mut session[..own], table, numbers, id);
        put_lent(rt, n, numbers, id, table);
    }

    // A call on the session that stays from line to line: after the length four digits the piece's first place, four its last. At the end 1
    // where the session's bytes are those before the call.
    pub(crate) fn stepped(self, rt: &impl Print, command: u8, session: &mut Memory) {
        let before = *session;
        let last = (self.field(11, 15) as usize).min(self.text.len());
        let first = (self.field(6, 10) as usize).min(last);
        self.with(&self.text[first..last])
            .called(rt, command, session);
        put_next(rt, u64::from(*session == before));
    }
}

// A byte is put into the session: four digits its place, three the byte.
pub(crate) fn put_byte(r: &[u8], session: &mut Memory) {
    if let Some(place) = session.get_mut(field(r, 0, 4) as usize) {
        *place = (field(r, 5, 8) % 256) as u8;
    }
}
