// The lists that the judge is lent: the bank list and the known list.
#![tactic(auto)]

ghost use Rattle.std.specs.Prelude.{◌≡◌, true, ◌+◌, ◌≤◌, length, take, drop};
ghost use Rattle.base.specs.Bytes.{same};
ghost use Rattle.lists.specs.Banks.{ascends, ascends_to, is_bank_list, is_barred_list, found_in, member};
ghost use Rattle.lists.specs.Known.{is_known_list, is_known};

// Whether each number is above the one before it. One pass without a branch: it runs for each piece of a message.
fn in_order(list: &[u32]) -> bool
    ensures { result ≡ ascends list.now }
{
    let Some((first, rest)) = list.split_first() else {
        return true;
    };
    let mut ok = true;
    let mut prev = *first;
    for x in rest {
        ok &= prev < *x;
        prev = *x;
    }
    ok
}

// Whether the list ascends and holds no number over top. The last number of a list that ascends is its greatest: it alone is compared.
fn ascends_to(list: &[u32], top: u32) -> bool
    ensures { result ≡ ascends_to top list.now }
{
    let n = list.len();
    if n == 0 {
        return true;
    }
    if list[n - 1] > top {
        return false;
    }
    in_order(list)
}

// Whether the list is a bank list: strictly ascending, no number over eight digits (01, refusal 2).
pub fn is_bank_list(list: &[u32]) -> bool
    ensures { result ≡ is_bank_list list.now }
{
    ascends_to(list, 99999999)
}

// Whether the list is a barred list: strictly ascending, no number over three digits (02 #105, refusal 15).
pub fn is_barred_list(list: &[u32]) -> bool
    ensures { result ≡ is_barred_list list.now }
{
    ascends_to(list, 999)
}

// Whether the code is one of the n numbers from a place on. No branch on a number.
fn one_of(list: &[u32], from: usize, n: usize, code: u32) -> bool
    requires { from + n ≤ length list.now }
    ensures { result ≡ member code (take n (drop from list.now)) }
{
    list[from..from + n].contains(&code)
}

// Whether the code is among the n numbers from a place on, by halving more than eight of them: which half needs no branch.
fn search(list: &[u32], from: usize, n: usize, code: u32) -> bool
    requires { from + n ≤ length list.now }
    ensures { result ≡ found_in (take n (drop from list.now)) code }
{
    if n <= 8 {
        return one_of(list, from, n, code);
    }
    let half = n / 2;
    let mut next = from + half;
    if list[from + half] > code {
        next = from;
    }
    search(list, next, n - half, code)
}

// Whether the code is listed, by halving the lent list (01, "a list in strictly ascending order").
pub fn is_listed(list: &[u32], code: u32) -> bool
    ensures halves { result ≡ found_in list.now code }
    ensures exact { ascends list.now ≡ true → result ≡ member code list.now }
{
    search(list, 0, list.len(), code)
}

// Whether the bytes are whole identifiers (01, refusal 3).
pub fn is_known_list(list: &[u8]) -> bool
    ensures { result ≡ is_known_list list.now }
{
    list.len() % 25 == 0
}

// Kept: (b) `==` over all 25 bytes costs more wherever the first four agree (docs/FIGURES.md, In the forms of docs/DESIGN-PASS.md).
// Whether an entry of the known list is the identifier, part after part.
#[tactic(auto, using(crate::proofs::Known::in_parts))]
fn is_id(entry: &[u8], id: &[u8; 25]) -> bool
    requires { length entry.now ≡ 25 }
    ensures { result ≡ same entry.now id.now }
{
    text::is_same(&entry[..4], &id[..4])
        && (text::is_same(&entry[4..12], &id[4..12])
            && (text::is_same(&entry[12..20], &id[12..20])
                && text::is_same(&entry[20..25], &id[20..25])))
}

// Whether the identifier is in the known list (01, Faults of the whole message, 3); bytes after the last whole entry don't count.
pub fn is_known(list: &[u8], id: [u8; 25]) -> bool
    ensures { result ≡ is_known list.now id }
{
    list.chunks_exact(25).any(|entry| is_id(entry, &id))
}
