// The answer on a single head or item (01, Calls and their answers), and its number for a host in C (include/nshanvekh.h).
#![tactic(auto)]

ghost use Rattle.std.specs.Prelude.{◌≡◌, [], ◌+◌, ◌*◌, ◌≤◌};
ghost use Rattle.lists.specs.Banks.{found_in};
ghost use Rattle.lent.specs.Lent.{lent};
ghost use Rattle.findings.specs.Findings.{kind_number};
ghost use Rattle.fields.specs.Fields.{letter_found};
ghost use Rattle.findings.specs.Naming.{naming, else_answer};
ghost use Rattle.heads.specs.Heads.{head_rules_of};
ghost use Rattle.items.specs.Items.{rules_of};
ghost use Rattle.single.specs.Single.{head_texts, item_texts, head_answer, item_answer, single_answer};
ghost use Rattle.single.specs.Numbers.{single_number};

use findings::{Answer, Finding, Kind, found};
use heads::HeadFindings;
use items::item::ItemFindings;
use lent::{Lists, Refusal};

// The first field of a head with a fault, in their order.
#[tactic(auto, unfolding(heads::specs::Heads::head_rules_of))]
fn head_named(f: HeadFindings) -> Result<(), Answer>
    ensures { result ≡ naming (head_rules_of f) }
{
    f.mark.map_err(Answer::Type)?;
    f.message.map_err(Answer::MessageType)?;
    f.duplicate.map_err(Answer::DuplicateCode)?;
    f.initiator.map_err(Answer::Initiator)?;
    f.identifier.map_err(Answer::Identifier)?;
    f.date.map_err(Answer::Date)?;
    f.number.map_err(Answer::Number)?;
    f.bank.map_err(Answer::Bank)?;
    f.account.map_err(Answer::Account)?;
    f.debit.map_err(Answer::DebitDate)?;
    f.purpose.map_err(Answer::Purpose)?;
    f.name.map_err(Answer::Name)
}

// The first field of an item with a fault, in their order.
#[tactic(auto, unfolding(items::specs::Items::rules_of))]
fn item_named(f: ItemFindings) -> Result<(), Answer>
    ensures { result ≡ naming (rules_of f) }
{
    f.mark.map_err(Answer::Type)?;
    f.number.map_err(Answer::ItemNumber)?;
    f.due.map_err(Answer::DueDate)?;
    f.amount.found.map_err(Answer::Amount)?;
    f.bank.map_err(Answer::Bank)?;
    f.account.map_err(Answer::Account)?;
    f.customer.map_err(Answer::CustomerId)?;
    f.owner.map_err(Answer::Owner)
}

// The letters of a text field (01, fault 2).
fn letters(s: &[u8]) -> Finding
    ensures { result ≡ letter_found s.now }
{
    found(text::is_text(s), Kind::Letter)
}

// The first text field of a whole head with a bad letter.
#[tactic(auto, unfolding(crate::specs::Single::head_texts))]
fn head_letters(r: &[u8; frame::HEAD]) -> Result<(), Answer>
    ensures { result ≡ naming (head_texts r.now) }
{
    letters(&r[69..104]).map_err(Answer::Name)?;
    letters(&r[104..frame::HEAD]).map_err(Answer::Remark)
}

// The first text field of a whole item with a bad letter.
#[tactic(auto, unfolding(crate::specs::Single::item_texts))]
fn item_letters(r: &[u8; frame::ITEM]) -> Result<(), Answer>
    ensures { result ≡ naming (item_texts r.now) }
{
    letters(&r[50..74]).map_err(Answer::CustomerId)?;
    letters(&r[74..109]).map_err(Answer::Name)?;
    letters(&r[109..144]).map_err(Answer::Address)?;
    letters(&r[144..179]).map_err(Answer::Owner)?;
    letters(&r[179..frame::ITEM]).map_err(Answer::Remark)
}

// The judging of a whole head: a bad letter first, then the fields in order.
fn head_alone(r: &[u8; frame::HEAD], e: u32, banks: &[u32], known: &[u8]) -> Result<(), Answer>
    ensures { else_answer result Answer.Accepted ≡ head_answer e (found_in banks.now) known.now r.now }
{
    head_letters(r)?;
    head_named(heads::all_findings(r, e, banks, known))
}

// The judging of a whole item at place k of a message of a kind: a bad letter first, then the fields in order.
fn item_alone(r: &[u8; frame::ITEM], k: u64, kind: u32, e: u32, banks: &[u32]) -> Result<(), Answer>
    ensures { else_answer result Answer.Accepted ≡ item_answer kind e (found_in banks.now) k r.now }
{
    item_letters(r)?;
    item_named(items::item::all_findings(r, k, kind, e, banks))
}

// The judging of a single head or item: refusals 1, 2, 3 and 10 come first, in this order.
#[tactic(auto, unfolding(crate::specs::Single::single_answer))]
fn judged(r: &[u8], k: u64, kind: u32, e: u32, banks: &[u32], known: &[u8]) -> Result<(), Answer>
    ensures { else_answer result Answer.Accepted ≡ single_answer (lent e banks.now known.now []) kind k r.now }
{
    if !calendar::is_date(e) {
        return Err(Answer::Refused(Refusal::NotADay));
    }
    let lists = Lists {
        banks,
        known,
        barred: &[],
    };
    lists.refused().map_err(Answer::Refused)?;
    if r.len() == frame::HEAD {
        return head_alone(r.as_array().unwrap(), e, banks, known);
    }
    if r.len() == frame::ITEM {
        return item_alone(r.as_array().unwrap(), k, kind, e, banks);
    }
    Err(Answer::Refused(Refusal::Malformed))
}

// The answer on a single head or item, without its ending: refusals 1, 2, 3 and 10 come first, in this order. An item is at place k of a
// message of a kind, 1 for BESZED and any other number for ATUTAL; a head tells its kind itself (02, #101). It knows no bar (02, #105).
pub fn answer(r: &[u8], k: u64, kind: u32, e: u32, banks: &[u32], known: &[u8]) -> Answer
    ensures { result ≡ single_answer (lent e banks.now known.now []) kind k r.now }
{
    match judged(r, k, kind, e, banks, known) {
        Ok(()) => Answer::Accepted,
        Err(answer) => answer,
    }
}

// A field's number and its kind's.
fn field_and_kind(field: u32, k: Kind) -> u32
    requires { field ≤ 19 }
    ensures { result ≡ field * 100 + kind_number k }
{
    field * 100 + u32::from(u8::from(k))
}

// Kept: a match and no discriminants: an `Answer` has a kind or a refusal inside. The numbers are those of the C interface.
// The number of an answer: 0, the refusal's, or 100 times the field's and the kind's.
#[tactic(auto, unfolding(crate::specs::Numbers::single_number))]
pub fn number(a: Answer) -> u32
    ensures { result ≡ single_number a }
{
    match a {
        Answer::Accepted => 0,
        Answer::Refused(r) => u32::from(u8::from(r)),
        Answer::Type(k) => field_and_kind(1, k),
        Answer::MessageType(k) => field_and_kind(2, k),
        Answer::DuplicateCode(k) => field_and_kind(3, k),
        Answer::Initiator(k) => field_and_kind(4, k),
        Answer::Identifier(k) => field_and_kind(5, k),
        Answer::Date(k) => field_and_kind(6, k),
        Answer::Number(k) => field_and_kind(7, k),
        Answer::Bank(k) => field_and_kind(8, k),
        Answer::Account(k) => field_and_kind(9, k),
        Answer::DebitDate(k) => field_and_kind(10, k),
        Answer::Purpose(k) => field_and_kind(11, k),
        Answer::Name(k) => field_and_kind(12, k),
        Answer::Remark(k) => field_and_kind(13, k),
        Answer::ItemNumber(k) => field_and_kind(14, k),
        Answer::Amount(k) => field_and_kind(15, k),
        Answer::CustomerId(k) => field_and_kind(16, k),
        Answer::Address(k) => field_and_kind(17, k),
        Answer::Owner(k) => field_and_kind(18, k),
        Answer::DueDate(k) => field_and_kind(19, k),
    }
}
