// A message that passes as a FEDJEL, and its records (002 12.1 to 12.4).
ghost use Rattle.std.specs.Prelude.{◌≡◌, true, false, MatchOption};
ghost use Rattle.answers.specs.Fedjel.{head_of, item_bytes, foot_of, is_fedjel};

use answers::{FOOT, HEAD_ENDED, ITEM_ENDED};

// The bytes of a head without its ending.
pub(crate) const HEAD: usize = 32;

// The bytes of a FEDJEL.
#[derive(Clone, Copy)]
pub(crate) struct Fedjel<'a> {
    pub message: &'a [u8],
    ghost form: { is_fedjel message.now ≡ true },
}

impl<'a> Fedjel<'a> {
    // The message, if it passes as a FEDJEL.
    pub(crate) fn of(message: &'a [u8]) -> Option<Fedjel<'a>>
        ensures { MatchOption result (is_fedjel message.now ≡ false) (λ f. f.message.now ≡ message.now) }
    {
        if !answers::is_fedjel(message) {
            return None;
        }
        Some(Fedjel { message })
    }

    // The head, without its ending.
    pub(crate) fn head(&self) -> &'a [u8; HEAD]
        ensures { result.now ≡ head_of self.now.message.now }
    {
        self.message.first_chunk().unwrap()
    }

    // The items, end to end, each with its ending.
    pub(crate) fn items(&self) -> &'a [u8]
        ensures { result.now ≡ item_bytes self.now.message.now }
    {
        answers::items(self.message)
    }

    // The foot, without its ending.
    pub(crate) fn foot(&self) -> &'a [u8; FOOT]
        ensures { result.now ≡ foot_of self.now.message.now }
    {
        let at = HEAD_ENDED + answers::count(self.message) * ITEM_ENDED;
        self.message[at..].first_chunk().unwrap()
    }
}
