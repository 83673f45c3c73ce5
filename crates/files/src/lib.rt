// The files that the clearing day and the lists come from: `day`, `banks` and `known` (01, Examples, the slip program).
// A missing file counts as empty: its bytes are an empty slice.
#![tactic(auto)]

ghost use Rattle.std.specs.Prelude.{◌≡◌, ◌/◌, ◌≤◌, length};
ghost use Rattle.base.specs.Bytes.{over};
ghost use Rattle.files.specs.Files.{day_of, is_line, numbers, ordered, is_banks, is_known_file, ReadAs};

use lent::Refusal;

// The most bytes that a file may have.
pub const LENGTH: usize = 25000;

// The space that a file is read into: one byte more, so that a longer one shows.
pub const SPACE: usize = LENGTH + 1;

// A line of `banks`: eight digits and 0Ah.
const LINE: usize = 9;

// The most banks that a file can hold.
pub const BANKS: usize = LENGTH / LINE;

// What the three files say: the clearing day, and how many banks there are.
#[derive(Clone, Copy)]
pub struct Given {
    pub day: u32,
    pub banks: usize,
}

// The date that `day` says, where it says one.
#[tactic(auto, unfolding(crate::specs::Files::day_of))]
pub fn day(s: &[u8]) -> Option<u32>
    ensures { result ≡ day_of s.now }
{
    calendar::read_date(s).ok()
}

// Nine bytes are a line of `banks`.
fn is_line(s: &[u8]) -> bool
    requires { length s.now ≡ 9 }
    ensures { result ≡ is_line s.now }
{
    digits::is_digits(&s[..8]) && s[8] == b'\n'
}

// Each whole line is one, and the numbers ascend: each is at least one above the number before it.
fn in_order(s: &[u8]) -> bool
    ensures { result ≡ ordered s.now }
{
    let mut least: u64 = 0;
    for line in s.chunks_exact(LINE) {
        if !is_line(line) {
            return false;
        }
        let x = digits::number(&line[..8]);
        if x < least {
            return false;
        }
        least = x + 1;
    }
    true
}

// `banks` is what it should be, and its numbers have a place in a list of so many.
#[tactic(auto, unfolding(crate::specs::Files::is_banks))]
fn is_banks(s: &[u8], room: usize) -> bool
    ensures { result ≡ is_banks s.now room }
{
    s.len() <= LENGTH && s.len() % LINE == 0 && s.len() / LINE <= room && in_order(s)
}

// `known` is what it should be.
fn is_known(s: &[u8]) -> bool
    ensures { result ≡ is_known_file s.now }
{
    s.len() <= LENGTH && lists::is_known_list(s)
}

// The numbers of the lines, at the front of the list.
fn fill(list: &mut [u32], s: &[u8])
    requires { length s.now / 9 ≤ length list.old }
    ensures { list.new ≡ over list.old 0 (numbers s.now) }
{
    for k in 0..s.len() / LINE {
        let at = k * LINE;
        list[k] = digits::number(&s[at..at + 8]) as u32;
    }
}

// The files are judged: refusals 1, 2, 3. The banks stand at the front of the list then; a refusal leaves it as it was. A list
// that is too short is refused with 2; one of `BANKS` numbers never is.
#[tactic(auto, using(crate::proofs::Says::banks_fit), unfolding(crate::specs::Files::given_by))]
pub fn read(day_file: &[u8], banks: &[u8], known: &[u8], list: &mut [u32]) -> Result<Given, Refusal>
    ensures { ReadAs day_file.now banks.now known.now list.old result list.new }
{
    let day = day(day_file).ok_or(Refusal::NotADay)?;
    if !is_banks(banks, list.len()) {
        return Err(Refusal::BankList);
    }
    if !is_known(known) {
        return Err(Refusal::KnownList);
    }
    fill(list, banks);
    Ok(Given {
        day,
        banks: banks.len() / LINE,
    })
}
