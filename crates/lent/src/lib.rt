// What is lent to a judging, which of it is refused, and why a call is refused (01, Calls and their answers; 02 #103, #105).
#![tactic(auto)]

ghost use Rattle.std.specs.Prelude.{◌≡◌};
ghost use Rattle.lent.specs.Lent.{refusal_number, listed_in, list_refused};

// Why a call is refused.
#[derive(Clone, Copy)]
pub enum Refusal {
    // E is not a date.
    NotADay,
    // The bank list isn't strictly ascending, or holds a number over 99,999,999.
    BankList,
    // The known list's length isn't a multiple of 25.
    KnownList,
    // The table is too long at opening, or not as long as then.
    Table,
    // The session was closed, never opened, or holds numbers outside their ranges.
    Session,
    // More items than the table, or in a reply than 10,000.
    Overflow,
    // The message has no address for a reply.
    Address,
    // Duplicate code, number or time of a reply or a FEDSTA, or a FEDSTA's count.
    Particulars,
    // The output is shorter than the reply or the FEDSTA, or the table than the references or a FEDJEL's items.
    Room,
    // Not a STATUS message, or not a single head or item by its length.
    Malformed,
    // The request list's length isn't a multiple of 65, a sum isn't digits, or an identifier stands twice (02 #103).
    RequestList,
    // Lengths or endings aren't a FEDJEL's (02 #103).
    Fedjel,
    // No such request, no standing answer to it, or answer 1 and no cover (02 #103).
    Standing,
    // The barred list isn't strictly ascending, or holds a number over 999 (02 #105).
    BarredList,
}

impl From<Refusal> for u8 {
    ghost from_gives = { λ r n. n ≡ refusal_number r };

    // The number that 01 or 02 gives the refusal.
    fn from(r: Refusal) -> u8 {
        match r {
            Refusal::NotADay => 1,
            Refusal::BankList => 2,
            Refusal::KnownList => 3,
            Refusal::Table => 4,
            Refusal::Session => 5,
            Refusal::Overflow => 6,
            Refusal::Address => 7,
            Refusal::Particulars => 8,
            Refusal::Room => 9,
            Refusal::Malformed => 10,
            Refusal::RequestList => 11,
            Refusal::Fedjel => 12,
            Refusal::Standing => 13,
            Refusal::BarredList => 15,
        }
    }
}

// The lists that come with a message, or with each piece of it.
#[derive(Clone, Copy)]
pub struct Lists<'a> {
    pub banks: &'a [u32],
    pub known: &'a [u8],
    pub barred: &'a [u32],
}

impl<'a> Lists<'a> {
    // The first list that is refused, if one is: refusals 2, 3, 15.
    #[tactic(auto, unfolding(crate::specs::Lent::list_refused))]
    pub fn refused(&self) -> Result<(), Refusal>
        ensures { result ≡ list_refused (listed_in self.now) }
    {
        if !lists::is_bank_list(self.banks) {
            return Err(Refusal::BankList);
        }
        if !lists::is_known_list(self.known) {
            return Err(Refusal::KnownList);
        }
        if !lists::is_barred_list(self.barred) {
            return Err(Refusal::BarredList);
        }
        Ok(())
    }
}
