// The head of a message of either kind: what is found in its fields, its code, and what it tells its items (002 sections 1.1.1 and 2.1.1).
#![tactic(auto)]

ghost use Rattle.std.specs.Prelude.{◌≡◌};
ghost use Rattle.base.specs.Bytes.{field};
ghost use Rattle.digits.specs.Digits.{number_of};
ghost use Rattle.lists.specs.Banks.{found_in};
ghost use Rattle.findings.specs.Codes.{first_whole, code_of};
ghost use Rattle.fields.specs.Fields.{identifier_found};
ghost use Rattle.checked.specs.Checked.{debit_found};
ghost use Rattle.kinds.specs.Kinds.{kind_of, is_barred_bank, told_of};
ghost use Rattle.heads.specs.Heads.{atutal_fields, as_beszed, head_fields, head_findings, head_rules_of, head_found};

use findings::{Finding, Kind, found};

// What is found in a head: a bad letter in its text, and the code of its first fault, 0 where it has none.
#[derive(Clone, Copy)]
pub struct HeadFound {
    pub letter: bool,
    pub code: u8,
}

// What is found in the fields of a head that have a rule, in their order.
#[derive(Clone, Copy)]
pub struct HeadFindings {
    pub mark: Finding,
    pub message: Finding,
    pub duplicate: Finding,
    pub initiator: Finding,
    pub identifier: Finding,
    pub date: Finding,
    pub number: Finding,
    pub bank: Finding,
    pub account: Finding,
    pub debit: Finding,
    pub purpose: Finding,
    pub name: Finding,
}

// Nothing is found.
const ALL_RIGHT: HeadFindings = HeadFindings {
    mark: Ok(()),
    message: Ok(()),
    duplicate: Ok(()),
    initiator: Ok(()),
    identifier: Ok(()),
    date: Ok(()),
    number: Ok(()),
    bank: Ok(()),
    account: Ok(()),
    debit: Ok(()),
    purpose: Ok(()),
    name: Ok(()),
};

// Kept: a number, since what may not change is `kind_of` (kinds/specs/Kinds), and that `frame::Told` holds one.
// The kind that a head tells by its positions 3-8: 1 for BESZED, 0 for ATUTAL, which any other bytes are (02, #101).
pub fn kind_of(r: &[u8]) -> u32
    ensures { result ≡ kind_of r.now }
{
    if r.len() < 8 {
        return kinds::ATUTAL;
    }
    if text::is_same(&r[2..8], b"BESZED") {
        return kinds::BESZED;
    }
    kinds::ATUTAL
}

// The head's bank is barred: positions 35-42 are eight digits, and the number in 35-37 is on the barred list (02, #105).
fn is_barred(r: &[u8], barred: &[u32]) -> bool
    ensures { result ≡ is_barred_bank (found_in barred.now) r.now }
{
    if r.len() < 42 {
        return false;
    }
    if !digits::is_digits(&r[34..42]) {
        return false;
    }
    lists::is_listed(barred, digits::number(&r[34..37]) as u32)
}

// What a head tells the rules of its items: its kind, and whether its bank is barred, of which BESZED knows nothing (02, #101, #105).
pub fn told_of(r: &[u8], barred: &[u32]) -> frame::Told
    ensures { result ≡ told_of (found_in barred.now) r.now }
{
    let kind = kind_of(r);
    frame::Told {
        kind: kind as u8,
        barred: (kind != kinds::BESZED) & is_barred(r, barred),
    }
}

// The identifier of a whole head: not one of the known list.
fn identifier_in(r: &[u8; frame::HEAD], known: &[u8]) -> Finding
    ensures { result ≡ identifier_found known.now (field 10 34 r.now) }
{
    found(!lists::is_known(known, frame::identifier(r)), Kind::Known)
}

// The debit date of a whole head, with its date as a number; 0 where that isn't digits, and no date.
fn debit_in(r: &[u8; frame::HEAD], e: u32) -> Finding
    ensures { result ≡ debit_found e (number_of (field 23 30 r.now)) (field 59 66 r.now) }
{
    let c = digits::number(&r[22..30]) as u32;
    checked::debit_found(&r[58..66], e, c)
}

// What is found in the fields of a whole head by the rules of ATUTAL.
fn atutal_in(r: &[u8; frame::HEAD], e: u32, banks: &[u32], known: &[u8]) -> HeadFindings
    ensures { result ≡ atutal_fields e (found_in banks.now) known.now r.now }
{
    let b = r[8];
    HeadFindings {
        mark: fields::type_found(&r[0..2], b'1'),
        message: found(text::is_same(&r[2..8], b"ATUTAL"), Kind::Mark),
        duplicate: found(digits::is_digit(b) | (b == b'@'), Kind::Mark),
        initiator: checked::initiator_found(&r[9..22]),
        identifier: identifier_in(r, known),
        date: checked::compiled_found(&r[22..30], e),
        number: found(digits::is_digits(&r[30..34]), Kind::NotDigits),
        bank: checked::bank_found(&r[34..42], banks),
        account: checked::account_found(&r[42..58]),
        debit: debit_in(r, e),
        purpose: found(purposes::is_purpose(&r[66..69]), Kind::NotListed),
        name: found(!text::is_blank(&r[69..104]), Kind::BlankOrZero),
    }
}

// What is found in the fields of a whole head by the rules of BESZED, with what is found by those that it shares with ATUTAL.
#[tactic(auto, using(fields::proofs::Byte::one), unfolding(crate::specs::Heads::as_beszed))]
fn beszed_in(r: &[u8; frame::HEAD], f: HeadFindings) -> HeadFindings
    ensures { result ≡ as_beszed r.now f }
{
    HeadFindings {
        message: Ok(()),
        duplicate: found(digits::is_digit(r[8]), Kind::Mark),
        initiator: checked::provider_found(&r[9..22]),
        debit: Ok(()),
        name: found(!text::is_blank_or_zero(&r[69..104]), Kind::BlankOrZero),
        ..f
    }
}

// What is found in the fields of a whole head, by the kind that it tells.
#[tactic(auto, unfolding(crate::specs::Heads::head_fields))]
fn fields_in(r: &[u8; frame::HEAD], e: u32, banks: &[u32], known: &[u8]) -> HeadFindings
    ensures { result ≡ head_fields e (found_in banks.now) known.now r.now }
{
    let f = atutal_in(r, e, banks, known);
    if kind_of(r) == kinds::BESZED {
        return beszed_in(r, f);
    }
    f
}

// What is found in the fields of a head, with E, the bank list and the known list; nothing in bytes of another length.
#[tactic(auto, unfolding(crate::specs::Heads::head_findings))]
pub fn all_findings(r: &[u8], e: u32, banks: &[u32], known: &[u8]) -> HeadFindings
    ensures { result ≡ head_findings e (found_in banks.now) known.now r.now }
{
    let Ok(head) = <&[u8; frame::HEAD]>::try_from(r) else {
        return ALL_RIGHT;
    };
    fields_in(head, e, banks, known)
}

// The code of a head's first fault, in the order of its fields; Ok where it has none.
#[tactic(auto, unfolding(crate::specs::Heads::head_rules_of))]
fn coded(f: HeadFindings) -> Result<(), u8>
    ensures { code_of result ≡ first_whole (head_rules_of f) }
{
    f.mark.or(Err(41))?;
    f.message.or(Err(9))?;
    f.duplicate.or(Err(42))?;
    f.initiator.or(Err(43))?;
    f.identifier.or(Err(29))?;
    f.date.or(Err(44))?;
    f.number.or(Err(2))?;
    f.bank.or(Err(1))?;
    f.account.or(Err(45))?;
    f.debit.or(Err(7))?;
    f.purpose.or(Err(48))?;
    f.name.or(Err(43))
}

// What is found in a head, with E, the bank list and the known list; bytes of another length are a break.
pub fn found_in(r: &[u8], e: u32, banks: &[u32], known: &[u8]) -> HeadFound
    ensures { result ≡ head_found e (found_in banks.now) known.now r.now }
{
    let Ok(head) = <&[u8; frame::HEAD]>::try_from(r) else {
        return HeadFound {
            letter: false,
            code: 26,
        };
    };
    let letter = !text::is_text(&head[69..frame::HEAD]);
    let code = coded(fields_in(head, e, banks, known)).err().unwrap_or(0);
    HeadFound { letter, code }
}
