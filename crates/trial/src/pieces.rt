// A message taken by a session in pieces.
ghost use Rattle.std.specs.Prelude.{◌+◌, ◌-◌, ◌<◌, ◌≤◌};

use crate::words::{Case, ahead};
use script::field;

// Where the i-th piece ends, which starts at a place of a message, by so many lengths of four digits. The first length is that of the last
// piece and of any after it, 0 for what is left; the pieces before have the others in turn. A piece of the first length has a byte.
fn piece_end(lengths: &[u8], count: usize, i: usize, at: usize, len: usize) -> usize
    requires { (at ≤ len) × (i ≤ count) × (count < 4611686018427387904) × (at + i < len + count) }
    ensures { (at ≤ result) × (result ≤ len) × ((len - result) + (count - (i + 1)) < (len - at) + (count - i)) }
{
    if i + 1 < count {
        let k = i * 4 + 4;
        return ahead(at, field(lengths, k, k + 4) as usize, len);
    }
    match field(lengths, 0, 4) {
        0 => len,
        n => ahead(at, n as usize, len),
    }
}

impl Case<'_> {
    // The session takes the message by pieces of these lengths: the number of the first refusal, 0 for none.
    fn fed(self, lengths: &[u8], session: &mut [u8], table: &mut [u8]) -> u32 {
        let message = self.text;
        let l = self.lists;
        let count = lengths.len() / 4;
        let mut at = 0;
        let mut i = 0;
        // Kept: no iterator is plainer: bytes and lengths end apart, and the first length comes last, also for no byte, and again for more.
        while at + i < message.len() + count {
            let end = piece_end(lengths, count, i, at, message.len());
            let piece = &message[at..end];
            let n = nshanvekh::nsh_piece(session, piece, l.banks, l.known, l.barred, table);
            if n != 0 {
                return n;
            }
            at = end;
            i = ahead(i, 1, count);
        }
        0
    }

    // The message is judged by pieces: the number of the first refusal, 0 for none.
    pub(crate) fn by_pieces(
        self,
        lengths: &[u8],
        session: &mut [u8],
        table: &mut [u8],
        numbers: &mut [u64],
        id: &mut [u8],
    ) -> u32 {
        let n = nshanvekh::nsh_open(self.given.day, table, session);
        if n != 0 {
            return n;
        }
        let n = self.fed(lengths, session, table);
        if n != 0 {
            return n;
        }
        nshanvekh::nsh_close(session, numbers, id)
    }
}
