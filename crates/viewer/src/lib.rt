// The support desk's viewer: a held message is walked record by record, and the walk stops at the first break (01, Calls
// and their answers).
#![tactic(auto)]

ghost use Rattle.std.specs.Prelude.{◌≡◌};
ghost use Rattle.viewer.specs.Views.{next_at, view_at, begun, met, moved};

use frame::Record;

// A held message, and a position in it.
#[derive(Clone, Copy)]
pub struct View<'a> {
    pub message: &'a [u8],
    pub at: usize,
}

impl<'a> View<'a> {
    // A view of a message, at its head.
    pub fn new(message: &'a [u8]) -> View<'a>
        ensures { result ≡ begun message.entry }
    {
        View { message, at: 0 }
    }

    // What stands at the view's position.
    pub fn record(self) -> Record
        ensures { result ≡ met self.entry }
    {
        frame::record_at(self.message, self.at)
    }

    // The same message, at the position after the record that stands there; at a break or the end the view stays.
    pub fn after(self) -> View<'a>
        ensures { result ≡ moved self.entry }
    {
        View {
            message: self.message,
            at: place_after(self.message, self.at),
        }
    }
}

// The position after the record that stands at a position; at a break or the end, the same position.
#[tactic(auto, unfolding(crate::specs::Views::next_at))]
fn place_after(message: &[u8], at: usize) -> usize
    ensures { result ≡ next_at message.now at }
{
    match frame::record_at(message, at) {
        Record::Head { next, .. } | Record::Item { next, .. } | Record::Foot { next, .. } => next,
        Record::Break | Record::End => at,
    }
}

// What a view at a position meets.
pub fn met_at(message: &[u8], at: usize) -> Record
    ensures { result ≡ met (view_at message.entry at) }
{
    View { message, at }.record()
}

// The position of a view that was at a position and goes on.
pub fn moved_from(message: &[u8], at: usize) -> usize
    ensures { result ≡ (moved (view_at message.entry at)).at }
{
    View { message, at }.after().at
}
