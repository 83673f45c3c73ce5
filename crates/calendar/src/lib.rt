// Gregorian dates as numbers yyyymmdd: whether a number is a date, its day number, and how two dates lie to each other.
#![tactic(auto)]

ghost use Rattle.std.specs.Prelude.{◌≡◌, true, ◌≤◌};
ghost use Rattle.calendar.specs.DateField.{date_field};
ghost use Rattle.calendar.specs.Calendar.{
  leap,
  month_length,
  days_of_months,
  is_date,
  days_to,
  day_number,
  is_within,
  is_before,
};
ghost use Rattle.calendar.specs.Workdays.{days_to_eighth, is_due};

// Every fourth year is a leap year, but of the hundreds only every fourth (01, Digits and dates: Gregorian).
#[tactic(auto, unfolding(crate::specs::Calendar::leap))]
fn is_leap(y: u32) -> bool
    ensures { result ≡ leap y }
{
    (y % 4 == 0) & ((y % 100 != 0) | (y % 400 == 0))
}

// The days of a month. A formula and no table: a table is stored anew where it is named.
fn month_length(is_leap: bool, m: u32) -> u32
    requires { (1 ≤ m) × (m ≤ 12) }
    ensures { result ≡ month_length is_leap m }
{
    if m == 2 {
        if is_leap {
            return 29;
        }
        return 28;
    }
    30 + (m + m / 8) % 2
}

// The days of the first m months of a year, by a formula that takes February for 30 days, and the correction from March on.
fn days_of_months(is_leap: bool, m: u32) -> u32
    requires { m ≤ 11 }
    ensures { (result ≡ days_of_months is_leap m) × (result ≤ 400) }
{
    let n = (m * 367 + 5) / 12;
    if m < 2 {
        return n;
    }
    if is_leap {
        return n - 1;
    }
    n - 2
}

// Whether the number yyyymmdd is a date, years 0001 to 9999 (01, Digits and dates).
#[tactic(auto, unfolding(crate::specs::Calendar::is_date))]
pub fn is_date(n: u32) -> bool
    ensures { result ≡ is_date n }
{
    let y = n / 10000;
    let m = n / 100 % 100;
    let d = n % 100;
    if y < 1 {
        return false;
    }
    if y > 9999 {
        return false;
    }
    if m < 1 {
        return false;
    }
    if m > 12 {
        return false;
    }
    (d >= 1) & (d <= month_length(is_leap(y), m))
}

// The day number of a date: the days of the years before its own, of the months before its own, and its day.
fn days_to(n: u32) -> u32
    requires { is_date n ≡ true }
    ensures { result ≡ days_to n }
{
    let y = n / 10000;
    let m = n / 100 % 100;
    let p = y - 1;
    let q = m - 1;
    p * 365 + p / 4 - p / 100 + p / 400 + days_of_months(is_leap(y), q) + n % 100
}

// The day number of a date, 1 for 1 January of year 1; 0 where the number is no date.
#[tactic(auto, unfolding(crate::specs::Calendar::day_number))]
pub fn day_number(n: u32) -> u32
    ensures { result ≡ day_number n }
{
    if is_date(n) {
        return days_to(n);
    }
    0
}

// Whether both are dates and the later one lies from the first to so many days after it, calendar days, both ends in (01, head date).
#[tactic(auto, using(crate::proofs::Dates::is_number), unfolding(crate::specs::Calendar::is_within))]
pub fn is_within(first: u32, later: u32, days: u32) -> bool
    ensures { result ≡ is_within first later days }
{
    if !is_date(first) {
        return false;
    }
    if !is_date(later) {
        return false;
    }
    let a = days_to(first);
    let b = days_to(later);
    if b < a {
        return false;
    }
    b - a <= days
}

// Whether both are dates and a is the earlier. The numbers yyyymmdd themselves are compared: they rise with the days.
#[tactic(auto, using(crate::proofs::Order::same_test), unfolding(crate::specs::Calendar::is_before))]
pub fn is_before(a: u32, b: u32) -> bool
    ensures { result ≡ is_before a b }
{
    if !is_date(a) {
        return false;
    }
    if !is_date(b) {
        return false;
    }
    a < b
}

// The days from a day to the eighth workday after it: by what is left of the day number by seven, 0 Sunday to 6 Saturday (02 #101).
fn days_to_eighth(n: u32) -> u32
    ensures { result ≡ days_to_eighth n }
{
    let w = n % 7;
    if w < 3 {
        return 10;
    }
    if w < 6 {
        return 12;
    }
    11
}

// Whether both are dates and d lies from e to the eighth workday after it, both ends in (002 2.3.1 note 1). What is no date has day number 0.
pub fn is_due(e: u32, d: u32) -> bool
    ensures { result ≡ is_due e d }
{
    let a = day_number(e);
    let b = day_number(d);
    if b < a {
        return false;
    }
    (a >= 1) & (b - a <= days_to_eighth(a))
}

// Why a field holds no date (01, Digits and dates).
#[derive(Clone, Copy, PartialEq, Eq)]
pub enum DateFault {
    // Not eight digits.
    NotDigits,
    // Eight digits that are no date.
    NoDate,
}

// The date that the eight digits of a field say, as a number yyyymmdd.
#[tactic(auto, using(crate::proofs::Numbers::eight), unfolding(crate::specs::DateField::date_field))]
pub fn read_date(s: &[u8]) -> Result<u32, DateFault>
    ensures { result ≡ date_field s.now }
{
    if s.len() != 8 || !digits::is_digits(s) {
        return Err(DateFault::NotDigits);
    }
    let n = digits::number(s) as u32;
    if is_date(n) {
        return Ok(n);
    }
    Err(DateFault::NoDate)
}
