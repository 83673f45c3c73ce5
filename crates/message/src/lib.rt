// A whole message judged in one call (01, Calls and their answers).
#![tactic(auto)]

ghost use Rattle.lent.specs.Lent.{lent_in};
ghost use Rattle.judge.specs.Session.{JudgedAs};

use frame::Closing;
use judge::Session;
use lent::{Lists, Refusal};

// A whole message is judged: opening, one piece and closing; refusals 1, 4, 2, 3, 15, 6.
pub fn judge(day: u32, lists: &Lists, table: &mut [u8], message: &[u8]) -> Result<Closing, Refusal>
    ensures { JudgedAs (lent_in day lists.now) table.old message.now result table.new }
{
    let opened = Session::open(day, table);
    opened.outcome?;
    let taken = opened.next.take(message, lists, table);
    taken.outcome?;
    taken.next.close().closing
}
