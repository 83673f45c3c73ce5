// A STATUS message, read (01, Calls and their answers).
#![tactic(auto)]

ghost use Rattle.std.specs.Prelude.{◌≡◌, ◌+◌, ◌-◌, ◌*◌, ◌≤◌, ◌<◌, length};
ghost use Rattle.base.specs.Bytes.{field, over};
ghost use Rattle.digits.specs.Digits.{number_of};
ghost use Rattle.reading.specs.Reading.{
  count_of,
  head_right,
  reference_right,
  foot_right,
  codes_in,
  status_in,
  or_no_status,
  ReadAs,
};
ghost use Rattle.reading.specs.Checking.{has_lengths, parts_right, reference_at, zeros_of, totals_at, counts_are};

use frame::{Status, Totals};
use lent::Refusal;
use status::{FOOT, HEAD, REFERENCE};

// The head, 54 bytes and its ending (002 section 3.1).
fn is_head(h: &[u8]) -> bool
    requires { length h.now ≡ 56 }
    ensures { result ≡ head_right h.now }
{
    h.starts_with(b"01STATUS")
        & (fields::is_duplicate(h[8])
            & (text::is_plain(&h[9..34])
                & (digits::is_digits(&h[34..54]) & frame::has_ending(h, 54))))
}

// The reference at place k, 63 bytes and its ending (002 section 3.3). A number above 0 shows that it is of digits.
fn is_reference(r: &[u8; REFERENCE], k: u64) -> bool
    requires { 0 < k }
    ensures { result ≡ reference_right k r.now }
{
    r.starts_with(b"02")
        & ((digits::number(&r[2..8]) == k)
            & (digits::is_digits(&r[8..10]) & frame::has_ending(r, 63)))
}

// The foot, 46 bytes and its ending (002 section 3.2).
#[tactic(auto, using(frame::proofs::Starts::starts), unfolding(crate::specs::Reading::foot_right))]
fn is_foot(f: &[u8]) -> bool
    requires { length f.now ≡ 48 }
    ensures { result ≡ foot_right f.now }
{
    f.starts_with(b"03") & (digits::is_digits(&f[2..46]) & frame::has_ending(f, 46))
}

// Kept: (d) 104 ≤ is a bound, which no array type says; the specs speak of the whole message, which a struct of its parts would have to join again.
// How many references there are, by the length.
fn count_of(x: &[u8]) -> usize
    requires { 104 ≤ length x.now }
    ensures { result ≡ count_of x.now }
{
    (x.len() - (HEAD + FOOT)) / REFERENCE
}

// The reference with i before it.
fn reference(x: &[u8], i: usize) -> &[u8; REFERENCE]
    requires { (104 ≤ length x.now) × (i < count_of x.now) }
    ensures { result.now ≡ reference_at i x.now }
{
    let at = HEAD + REFERENCE * i;
    x[at..].first_chunk().unwrap()
}

// A reference's code.
fn code_in(r: &[u8; REFERENCE]) -> u8
    ensures { result ≡ number_of (field 9 10 r.now) }
{
    digits::number(&r[8..10]) as u8
}

// How many references have code 00, where each reference is right: checked and counted in one walk.
fn zeros_in(x: &[u8]) -> Option<usize>
    requires { 104 ≤ length x.now }
    ensures { result ≡ zeros_of x.now }
{
    let mut right = true;
    let mut zeros = 0;
    for i in 0..count_of(x) {
        let r = reference(x, i);
        right &= is_reference(r, i as u64 + 1);
        zeros += usize::from(code_in(r) == 0);
    }
    right.then_some(zeros)
}

// The references' codes, each to its own byte of the table.
fn put_codes(x: &[u8], table: &mut [u8])
    requires { (104 ≤ length x.now) × (count_of x.now ≤ length table.old) }
    ensures { table.new ≡ over table.old 0 (codes_in x.now) }
{
    for i in 0..count_of(x) {
        table[i] = code_in(reference(x, i));
    }
}

// A count of six digits and a sum of sixteen, from a place of the foot on.
fn totals_at(f: &[u8], at: usize) -> Totals
    requires { at + 22 ≤ length f.now }
    ensures { result ≡ totals_at at f.now }
{
    Totals {
        count: digits::number(&f[at..at + 6]),
        sum: digits::number(&f[at + 6..at + 22]),
    }
}

// What a STATUS says.
fn status_in(x: &[u8]) -> Status
    requires { 104 ≤ length x.now }
    ensures { result ≡ status_in x.now }
{
    let references = count_of(x);
    let foot = &x[HEAD + REFERENCE * references..];
    Status {
        duplicate: x[8],
        id: frame::identifier(x),
        date: digits::number(&x[34..42]) as u32,
        number: digits::number(&x[42..46]) as u32,
        time: digits::number(&x[46..52]) as u32,
        code: digits::number(&x[52..54]) as u8,
        accepted: totals_at(foot, 2),
        refused: totals_at(foot, 24),
        references,
    }
}

// The foot's counts are the references with code 00 and the others; with code 00 there is a reference, otherwise none and a
// zero foot.
#[tactic(auto, using(std::proofs::lemmas::Bool::Decides::nat_tests), unfolding(crate::specs::Checking::counts_are))]
fn are_counts(s: Status, zeros: usize) -> bool
    requires { zeros ≤ s.references }
    ensures { result ≡ counts_are s zeros (s.references - zeros) }
{
    (s.accepted.count == zeros as u64)
        & (s.refused.count == (s.references - zeros) as u64)
        & if s.code == 0 {
            s.references > 0
        } else {
            (s.references == 0) & (s.accepted.sum == 0) & (s.refused.sum == 0)
        }
}

// The lengths are those of a head, references and a foot.
#[tactic(auto, using(std::proofs::lemmas::Bool::Decides::nat_tests), unfolding(crate::specs::Checking::has_lengths))]
fn has_lengths(x: &[u8]) -> bool
    ensures { result ≡ has_lengths x.now }
{
    x.len() >= HEAD + FOOT && (x.len() - (HEAD + FOOT)) % REFERENCE == 0
}

// The head, the references, the foot and the counts are right, where the lengths are.
fn are_parts(x: &[u8], s: Status) -> bool
    requires { (length x.now ≡ 104 + 65 * count_of x.now) × (s ≡ status_in x.now) }
    ensures { result ≡ parts_right x.now }
{
    if !is_head(&x[..HEAD]) {
        return false;
    }
    match zeros_in(x) {
        Some(zeros) => is_foot(&x[HEAD + REFERENCE * s.references..]) && are_counts(s, zeros),
        None => false,
    }
}

// A STATUS is read: refusals 10, 9. The k-th reference's code goes to byte k of the table.
pub fn read_status(bytes: &[u8], table: &mut [u8]) -> Result<Status, Refusal>
    ensures { ReadAs bytes.now table.old result table.new }
{
    if !has_lengths(bytes) {
        return Err(Refusal::Malformed);
    }
    let s = status_in(bytes);
    if !are_parts(bytes, s) {
        return Err(Refusal::Malformed);
    }
    if s.references > table.len() {
        return Err(Refusal::Room);
    }
    put_codes(bytes, table);
    Ok(s)
}

// What a STATUS says; where reading it was refused, what stands beside the refusal's number: zeros and spaces (docs/DECISIONS.md, 41).
pub fn or_no_status(read: Result<Status, Refusal>) -> Status
    ensures { result ≡ or_no_status read }
{
    read.unwrap_or(Status {
        duplicate: 0,
        id: [b' '; 25],
        date: 0,
        number: 0,
        time: 0,
        code: 0,
        accepted: Totals { count: 0, sum: 0 },
        refused: Totals { count: 0, sum: 0 },
        references: 0,
    })
}
