// Account fields: sixteen digits, or eight digits and eight spaces, with a check digit over the digits; and which eight are wrong.
#![tactic(auto)]

ghost use Rattle.std.specs.Prelude.{◌≡◌, false, ◌&&◌, ◌||◌, length, Err};
ghost use Rattle.base.specs.Bytes.{every};
ghost use Rattle.text.specs.Text.{is_blank};
ghost use Rattle.digits.specs.Digits.{is_digits};
ghost use Rattle.cdv.specs.Check.{satisfies};
ghost use Rattle.account.specs.Account.{zero, own, account_of, is_zero_account};

// Why a field holds no account (02 #102).
#[derive(Clone, Copy, PartialEq, Eq)]
pub enum AccountFault {
    FormOfFirstEight,
    FormOfLastEight,
    CheckDigitOverEight,
    CheckDigitOverSixteen,
}

// The digits of an account field of sixteen bytes: its first eight where eight spaces follow, else all. Nine digits and seven spaces are no account.
#[tactic(auto, using(crate::proofs::Halves::no_space, crate::proofs::Halves::after_space))]
fn digits_of(s: &[u8; 16]) -> &[u8]
    ensures { result.now ≡ own s.now }
{
    if s[8] != b' ' {
        return s;
    }
    if text::is_blank(&s[9..16]) {
        return &s[0..8];
    }
    s
}

// A half of an account has its form: digits, or spaces where they may stand.
fn is_half(s: &[u8], spaces: bool) -> bool
    ensures { result ≡ is_digits s.now || (spaces && is_blank s.now) }
{
    if digits::is_digits(s) {
        return true;
    }
    if spaces {
        return text::is_blank(s);
    }
    false
}

// What is wrong with sixteen bytes whose digits don't satisfy the check digit.
#[tactic(auto, using(crate::proofs::Halves::all_last, crate::proofs::Halves::blank_no_digits), unfolding(crate::specs::Account::account_of))]
fn fault(s: &[u8; 16]) -> AccountFault
    requires { satisfies (own s.now) ≡ false }
    ensures { Err result ≡ account_of s.now }
{
    if !is_half(&s[0..8], false) {
        return AccountFault::FormOfFirstEight; // whatever the last eight are
    }
    if !is_half(&s[8..16], true) {
        return AccountFault::FormOfLastEight;
    }
    if text::is_blank(&s[8..16]) {
        return AccountFault::CheckDigitOverEight;
    }
    AccountFault::CheckDigitOverSixteen
}

// What the field is found to be (01, Digits and dates; 02 #102). What satisfies the check digit is digits, so halves are looked at only in a fault.
#[tactic(auto, using(crate::proofs::AsBefore::good), unfolding(crate::specs::Account::account_of))]
pub fn read(s: &[u8]) -> Result<(), AccountFault>
    ensures { result ≡ account_of s.now }
{
    let Ok(field) = <&[u8; 16]>::try_from(s) else {
        return Err(AccountFault::FormOfFirstEight);
    };
    if cdv::satisfies(digits_of(field)) {
        return Ok(());
    }
    Err(fault(field))
}

// Each byte is '0'. No branch on a byte, so that the compiler takes many at a time.
fn all_zero(s: &[u8]) -> bool
    ensures { result ≡ every zero s.now }
{
    let mut ok = true;
    for b in s {
        ok &= *b == b'0';
    }
    ok
}

// The account is one of zeros (01, the zero watch). Most often the first eight show that it isn't.
#[tactic(auto, using(base::proofs::Every::every_parts, crate::proofs::Halves::all_last), unfolding(crate::specs::Account::is_zero_account))]
pub fn is_zero(s: &[u8]) -> bool
    ensures { result ≡ is_zero_account s.now }
{
    if s.len() != 16 {
        return false;
    }
    if !all_zero(&s[0..8]) {
        return false;
    }
    let last = &s[8..16];
    if all_zero(last) {
        return true;
    }
    text::is_blank(last)
}
