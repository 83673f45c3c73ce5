// A FEDJEL judged against the day's cover requests: its message code, its items' codes, and the standing answer to a request (02 #103;
// 002 sections 12.1 to 12.4).
#![tactic(auto)]

ghost use Rattle.std.specs.Prelude.{◌≡◌, MatchResult, Ok, Err};
ghost use Rattle.cover.specs.Judging.{lent_refused, JudgedAs, standing_of};

use crate::fedjel::Fedjel;
use answers::ITEM_ENDED;
use lent::Refusal;
use requests::REQUEST;

mod codes;
mod fedjel;
mod foot;
mod head;

// What judging gives: the message code and the number of items.
#[derive(Clone, Copy)]
pub struct Judged {
    pub code: u8,
    pub items: usize,
}

// The standing answer to a request: the item's place, counted from 0, its answer and the request's sum.
#[derive(Clone, Copy)]
pub struct Standing {
    pub place: usize,
    pub answer: u8,
    pub sum: u64,
}

// The message as a FEDJEL, unless what is lent or given is refused: 1, 11, 12.
#[tactic(auto, unfolding(crate::specs::Judging::lent_refused))]
fn taken<'a>(day: u32, list: &[u8], message: &'a [u8]) -> Result<Fedjel<'a>, Refusal>
    ensures { MatchResult result
        (λ f. (f.message.now ≡ message.now) × (lent_refused day list.now message.now ≡ Ok tt))
        (λ r. lent_refused day list.now message.now ≡ Err r) }
{
    if !calendar::is_date(day) {
        return Err(Refusal::NotADay);
    }
    if !requests::is_request_list(list) {
        return Err(Refusal::RequestList);
    }
    Fedjel::of(message).ok_or(Refusal::Fedjel)
}

// A FEDJEL is judged: refusals 1, 11, 12, 9. The k-th item's code goes to byte k of the table; a refusal alters nothing.
pub fn judge(day: u32, list: &[u8], message: &[u8], table: &mut [u8]) -> Result<Judged, Refusal>
    ensures { JudgedAs day list.now message.now table.old result table.new }
{
    let f = taken(day, list, message)?;
    let items = answers::count(message);
    if table.len() < items {
        return Err(Refusal::Room);
    }
    let faulty = answers::put_codes(message, list, table);
    let code = codes::code_with(day, list, &f, faulty);
    Ok(Judged { code, items })
}

// The standing answer to the request with an identifier: refusals 1, 11, 12, 13. The first item that answers the request rightly stands,
// where the message code is 00.
pub fn standing_to(day: u32, list: &[u8], message: &[u8], id: &[u8]) -> Result<Standing, Refusal>
    ensures { result ≡ standing_of day list.now message.now id.now }
{
    let f = taken(day, list, message)?;
    let j = requests::find(list, id).ok_or(Refusal::Standing)?;
    let request = &list.as_chunks::<REQUEST>().0[j];
    if !codes::is_good(day, list, &f) {
        return Err(Refusal::Standing);
    }
    let place = answers::answer_to(message, request).ok_or(Refusal::Standing)?;
    Ok(Standing {
        place,
        answer: f.items().as_chunks::<ITEM_ENDED>().0[place][67],
        sum: digits::number(&request[49..]),
    })
}
