// An item of a message of either kind: 1 is BESZED, any other number ATUTAL (002 sections 1.3.1 and 2.3.1).
ghost use Rattle.std.specs.Prelude.{◌≡◌, cond};
ghost use Rattle.lists.specs.Banks.{found_in};
ghost use Rattle.findings.specs.Codes.{first_whole, first_alone};
ghost use Rattle.kinds.specs.Codes.{item_told};
ghost use Rattle.items.specs.Items.{due_in, item_fields, item_findings, rules_of};

use fields::Amount;
use findings::{Finding, Kind, found, ranked, ranked_else};

// What is found in the fields of an item that have a rule, in their order; with the amount its number.
#[derive(Clone, Copy)]
pub struct ItemFindings {
    pub mark: Finding,
    pub number: Finding,
    pub due: Finding,
    pub amount: Amount,
    pub bank: Finding,
    pub account: Finding,
    pub customer: Finding,
    pub owner: Finding,
}

// Nothing is found.
const ALL_RIGHT: ItemFindings = ItemFindings {
    mark: Ok(()),
    number: Ok(()),
    due: Ok(()),
    amount: Amount {
        value: 0,
        found: Ok(()),
    },
    bank: Ok(()),
    account: Ok(()),
    customer: Ok(()),
    owner: Ok(()),
};

// The due date of a BESZED; an ATUTAL has no rule there.
fn due_in(s: &[u8], kind: u32, e: u32) -> Finding
    ensures { result ≡ due_in kind e s.now }
{
    if kind == kinds::BESZED {
        return checked::due_found(s, e);
    }
    Ok(())
}

// What is found in the fields of a whole item, by its place, the message's kind, E and the bank list.
fn fields_in(r: &[u8; frame::ITEM], k: u64, kind: u32, e: u32, banks: &[u32]) -> ItemFindings
    ensures { result ≡ item_fields kind e (found_in banks.now) k r.now }
{
    ItemFindings {
        mark: fields::type_found(&r[0..2], b'2'),
        number: fields::place_found(&r[2..8], k),
        due: due_in(&r[8..16], kind, e),
        amount: fields::amount_found(&r[16..26]),
        bank: checked::bank_found(&r[26..34], banks),
        account: checked::account_found(&r[34..50]),
        customer: found(!text::is_blank_or_zero(&r[50..74]), Kind::BlankOrZero),
        owner: found(!text::is_blank_or_zero(&r[144..179]), Kind::BlankOrZero),
    }
}

// What is found in the fields of an item, by its place, the message's kind, E and the bank list; nothing in bytes of another length.
#[tactic(auto, unfolding(crate::specs::Items::item_findings))]
pub fn all_findings(r: &[u8], k: u64, kind: u32, e: u32, banks: &[u32]) -> ItemFindings
    ensures { result ≡ item_findings kind e (found_in banks.now) k r.now }
{
    let Ok(item) = <&[u8; frame::ITEM]>::try_from(r) else {
        return ALL_RIGHT;
    };
    fields_in(item, k, kind, e, banks)
}

// The code of an item's first Ü fault: its type, then an amount that isn't digits.
fn whole_of(f: ItemFindings) -> u8
    ensures { result ≡ first_whole (rules_of f) }
{
    ranked(f.mark, 46, ranked_else(f.amount.found, 34, 0, 0))
}

// Kept: `ranked` a field in place of `?`: `?` is no plainer here, where two codes go by the kind of fault and one of these is none.
// The code of an item's first T fault, fields in order; an amount that isn't digits has none.
fn alone_of(f: ItemFindings) -> u8
    ensures { result ≡ first_alone (rules_of f) }
{
    let c = ranked(f.owner, 62, 0);
    let c = ranked(f.customer, 63, c);
    let c = ranked(f.account, 61, c);
    let c = ranked(f.bank, 37, c);
    let c = ranked_else(f.amount.found, 0, 16, c);
    let c = ranked(f.due, 33, c);
    ranked_else(f.number, 39, 32, c)
}

// The code of an item: under a bar 14, in place of 0 too, else its own (002 section 1.3.1, note 4; 02, #105).
fn under_bar(barred: bool, code: u8) -> u8
    ensures { result ≡ cond barred 14 code }
{
    if barred {
        return 14;
    }
    code
}

// What is found in an item at place k, by what its head told: a bad letter, its codes, its amount, and whether its account is one of zeros.
// The fields are judged straight on: most items have no fault. Bytes of another length are a break.
pub fn found_in(r: &[u8], k: u64, told: frame::Told, e: u32, banks: &[u32]) -> frame::Found
    ensures { result ≡ item_told told e (found_in banks.now) k r.now }
{
    let Ok(item) = <&[u8; frame::ITEM]>::try_from(r) else {
        return frame::Found {
            letter: false,
            fault: 26,
            code: under_bar(told.barred, 0),
            amount: 0,
            zero: false,
        };
    };
    let f = fields_in(item, k, told.kind as u32, e, banks);
    frame::Found {
        letter: !text::is_text(&item[50..frame::ITEM]),
        fault: whole_of(f),
        code: under_bar(told.barred, alone_of(f)),
        amount: f.amount.value,
        zero: account::is_zero(&item[34..50]),
    }
}
