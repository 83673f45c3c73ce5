// What is found in a field: nothing wrong, or the kind of its first fault; the code that follows from it; and the answer that names the
// field (01, Calls and their answers).
#![tactic(auto)]

ghost use Rattle.std.specs.Prelude.{◌≡◌, Ok};
ghost use Rattle.frame.specs.Machine.{earlier};
ghost use Rattle.findings.specs.Findings.{unless, kind_number, date_kind, account_kind};
ghost use Rattle.findings.specs.Codes.{Ü, always, whole_code, either_code};

use account::AccountFault;
use calendar::DateFault;

// The kinds of fault, in 01's order as 02 #102 amends it, four of them an account's alone; each with its number: its place in 01's list, and then
// those of 02 #102.
#[derive(Clone, Copy, PartialEq, Eq)]
pub enum Kind {
    Letter = 1,
    Mark = 2,
    Form = 3,
    FormOfFirstEight = 13,
    FormOfLastEight = 14,
    NotDigits = 4,
    CheckDigit = 5,
    CheckDigitOverEight = 15,
    CheckDigitOverSixteen = 16,
    NoDate = 6,
    OutsideDays = 7,
    NotListed = 8,
    Known = 9,
    BlankOrZero = 10,
    OutOfOrder = 11,
    Other = 12,
}

// The number of a kind.
impl From<Kind> for u8 {
    ghost from_gives = { λ k n. n ≡ kind_number k };

    fn from(k: Kind) -> u8 {
        k as u8
    }
}

// Why a field holds no date, as a kind of fault.
impl From<DateFault> for Kind {
    ghost from_gives = { λ fault k. k ≡ date_kind fault };

    fn from(fault: DateFault) -> Kind {
        match fault {
            DateFault::NotDigits => Kind::NotDigits,
            DateFault::NoDate => Kind::NoDate,
        }
    }
}

// Why a field holds no account, as a kind of fault.
impl From<AccountFault> for Kind {
    ghost from_gives = { λ fault k. k ≡ account_kind fault };

    fn from(fault: AccountFault) -> Kind {
        match fault {
            AccountFault::FormOfFirstEight => Kind::FormOfFirstEight,
            AccountFault::FormOfLastEight => Kind::FormOfLastEight,
            AccountFault::CheckDigitOverEight => Kind::CheckDigitOverEight,
            AccountFault::CheckDigitOverSixteen => Kind::CheckDigitOverSixteen,
        }
    }
}

// What is found in a field: nothing wrong, or the kind of its first fault.
pub type Finding = Result<(), Kind>;

// The answer on a single record: acceptance, a refusal, or the field named with the kind of its fault.
#[derive(Clone, Copy)]
pub enum Answer {
    Accepted,
    Refused(lent::Refusal),
    Type(Kind),
    MessageType(Kind),
    DuplicateCode(Kind),
    Initiator(Kind),
    Identifier(Kind),
    Date(Kind),
    Number(Kind),
    Bank(Kind),
    Account(Kind),
    DebitDate(Kind),
    Purpose(Kind),
    Name(Kind),
    Remark(Kind),
    ItemNumber(Kind),
    Amount(Kind),
    CustomerId(Kind),
    Address(Kind),
    Owner(Kind),
    DueDate(Kind),
}

// Nothing wrong, or the kind of fault.
pub fn found(ok: bool, k: Kind) -> Finding
    ensures { result ≡ unless ok k (Ok tt) }
{
    if ok { Ok(()) } else { Err(k) }
}

// The first of two codes that isn't 0.
pub fn earlier(c: u8, d: u8) -> u8
    ensures { result ≡ earlier c d }
{
    if c == 0 { d } else { c }
}

// The code of a finding that has one for each kind of fault, before the code of what stands later.
pub fn ranked(f: Finding, code: u8, later: u8) -> u8
    ensures { result ≡ earlier (whole_code (always (Ü code)) f) later }
{
    match f {
        Ok(()) => later,
        Err(_) => earlier(code, later),
    }
}

// The same with one code for what isn't digits, another for the rest.
pub fn ranked_else(f: Finding, digits: u8, other: u8, later: u8) -> u8
    ensures { result ≡ earlier (either_code digits other f) later }
{
    match f {
        Ok(()) => later,
        Err(Kind::NotDigits) => earlier(digits, later),
        Err(_) => earlier(other, later),
    }
}
