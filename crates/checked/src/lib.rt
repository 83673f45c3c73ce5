// Fields with a check digit, a date or a list: what is found in an initiator, a date, a due date, a debit date, a bank, an account.
#![tactic(auto)]

ghost use Rattle.std.specs.Prelude.{◌≡◌};
ghost use Rattle.account.specs.Account.{account_of};
ghost use Rattle.lists.specs.Banks.{found_in};
ghost use Rattle.checked.specs.Checked.{
  is_tax_form,
  initiator_found,
  is_provider_form,
  provider_found,
  compiled_found,
  due_found,
  debit_found,
  bank_found,
  account_found,
};

use findings::{Finding, Kind, found};

// The shape of a tax number: A, eight digits, T, three digits.
#[tactic(auto, unfolding(crate::specs::Checked::is_tax_form))]
fn is_tax_form(s: &[u8]) -> bool
    ensures { result ≡ is_tax_form s.now }
{
    if s.len() != 13 {
        return false;
    }
    if s[0] != b'A' {
        return false;
    }
    if s[9] != b'T' {
        return false;
    }
    digits::is_digits(&s[1..9]) & digits::is_digits(&s[10..13])
}

// An initiator: a tax number or an EAN-13 (01, Digits and dates).
#[tactic(auto, unfolding(crate::specs::Checked::is_tax_form, crate::specs::Checked::initiator_found))]
pub fn initiator_found(s: &[u8]) -> Finding
    ensures { result ≡ initiator_found s.now }
{
    if is_tax_form(s) {
        return found(cdv::satisfies(&s[1..9]), Kind::CheckDigit);
    }
    if s.len() != 13 {
        return Err(Kind::Form);
    }
    if !digits::is_digits(s) {
        return Err(Kind::Form);
    }
    found(cdv::is_ean13(s), Kind::CheckDigit)
}

// The shape of a service provider's number: E, eight digits, four spaces (002 2.1).
#[tactic(auto, unfolding(crate::specs::Checked::is_provider_form))]
fn is_provider_form(s: &[u8]) -> bool
    ensures { result ≡ is_provider_form s.now }
{
    if s.len() != 13 {
        return false;
    }
    if s[0] != b'E' {
        return false;
    }
    digits::is_digits(&s[1..9]) & text::is_blank(&s[9..13])
}

// The initiator of a BESZED: a service provider's number, or an initiator of an ATUTAL (02 #101; 002 2.1).
#[tactic(auto, unfolding(crate::specs::Checked::is_provider_form, crate::specs::Checked::provider_found))]
pub fn provider_found(s: &[u8]) -> Finding
    ensures { result ≡ provider_found s.now }
{
    if is_provider_form(s) {
        return found(cdv::satisfies(&s[1..9]), Kind::CheckDigit);
    }
    initiator_found(s)
}

// The date of a head: from E-15 to E (01, Faults of the whole message, 3).
#[tactic(auto, unfolding(crate::specs::Checked::compiled_found))]
pub fn compiled_found(s: &[u8], e: u32) -> Finding
    ensures { result ≡ compiled_found e s.now }
{
    let n = calendar::read_date(s)?;
    found(calendar::is_within(n, e, 15), Kind::OutsideDays)
}

// The due date of an item: from E to the eighth workday after E (002 2.3.1 note 1).
#[tactic(auto, unfolding(crate::specs::Checked::due_found))]
pub fn due_found(s: &[u8], e: u32) -> Finding
    ensures { result ≡ due_found e s.now }
{
    let n = calendar::read_date(s)?;
    found(calendar::is_due(e, n), Kind::OutsideDays)
}

// The debit date of a head whose date is c: not before E, and by note 4 of 1.1.1 from the date c to ten days after it.
#[tactic(auto, unfolding(crate::specs::Checked::debit_found))]
pub fn debit_found(s: &[u8], e: u32, c: u32) -> Finding
    ensures { result ≡ debit_found e c s.now }
{
    let n = calendar::read_date(s)?;
    if calendar::is_before(n, e) {
        return Err(Kind::OutsideDays);
    }
    found(calendar::is_within(c, n, 10), Kind::Other)
}

// A bank: eight digits, its check digit, listed. What satisfies the check digit is digits.
#[tactic(auto, using(cdv::proofs::Weighing::satisfying_digits, calendar::proofs::Numbers::eight), unfolding(crate::specs::Checked::bank_found))]
pub fn bank_found(s: &[u8], banks: &[u32]) -> Finding
    ensures { result ≡ bank_found (found_in banks.now) s.now }
{
    if s.len() != 8 {
        return Err(Kind::NotDigits);
    }
    if !cdv::satisfies(s) {
        if digits::is_digits(s) {
            return Err(Kind::CheckDigit);
        }
        return Err(Kind::NotDigits);
    }
    found(
        lists::is_listed(banks, digits::number(s) as u32),
        Kind::NotListed,
    )
}

// An account: the form of its halves, then its check digit (01, Digits and dates; 02 #102).
pub fn account_found(s: &[u8]) -> Finding
    ensures { result ≡ account_found (account_of s.now) }
{
    Ok(account::read(s)?)
}
