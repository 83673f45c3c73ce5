// The slip of a message that comes by pieces: what the slip program does between its files and its output (01, Examples).
#![tactic(auto)]

ghost use Rattle.std.specs.Prelude.{◌≡◌};
ghost use Rattle.base.specs.Put.{Written};
ghost use Rattle.lent.specs.Lent.{listed_in};
ghost use Rattle.slips.specs.Message.{closing_by, answer_of, FedAs};

use frame::Closing;
use judge::Taken;
use lent::{Lists, Refusal};

// The next piece of the message, where no call before it was refused.
pub fn feed(t: Taken, piece: &[u8], lists: &Lists, table: &mut [u8]) -> Taken
    ensures { FedAs t piece.now (listed_in lists.now) table.old result table.new }
{
    match t.outcome {
        Ok(()) => t.next.take(piece, lists, table),
        Err(_) => t,
    }
}

// The closing, or the first refusal.
#[tactic(auto, unfolding(crate::specs::Message::closing_by))]
fn closing_by(t: Taken) -> Result<Closing, Refusal>
    ensures { result ≡ closing_by t }
{
    t.outcome?;
    t.next.close().closing
}

// The message is over: what is to be printed, at the front of the output, and its length; where the output is too short, 0, and it
// stays as it was.
pub fn answer(out: &mut [u8], t: Taken) -> usize
    ensures { Written (answer_of t) out.old result out.new }
{
    match closing_by(t) {
        Ok(k) => lines::slip::put_closing(out, k),
        Err(r) => lines::slip::put_refusal(out, r),
    }
}
