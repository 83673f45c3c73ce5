// Words for people: the names of fields and of kinds of fault, by the numbers that an answer has for them, and what a code is given for.
// They stand in tables, a word to a line.
#![tactic(auto)]

ghost use Rattle.std.specs.Prelude.{◌≡◌, ◌==◌, get_or, position, take, []};
ghost use Rattle.text.specs.Text.{with_bytes_at, after_bytes};
ghost use Rattle.findings.specs.Answers.{field_words, kind_words};
ghost use Rattle.words.specs.Lines.{line_length, after_line, line_at};
ghost use Rattle.words.specs.Meanings.{meaning};

// Where the first line of a table ends: the place of its 0Ah, where there is one.
fn line_end(table: &[u8]) -> Option<usize>
    ensures { result ≡ position (λ b. b == 10) table.now }
{
    table.iter().position(|b| *b == b'\n')
}

// The first line of a table, without its end.
fn first_line(table: &[u8]) -> &[u8]
    ensures { result.now ≡ take (line_length table.now) table.now }
{
    match line_end(table) {
        Some(i) => &table[..i],
        None => table,
    }
}

// What follows the first line of a table.
fn after_line(table: &[u8]) -> &[u8]
    ensures { result.now ≡ after_line table.now }
{
    match line_end(table) {
        Some(i) => &table[i + 1..],
        None => &[],
    }
}

// The n-th line of a table, from 0, without its end; none where it has no such line.
fn line_at(table: &[u8], n: usize) -> &[u8]
    ensures { result.now ≡ line_at table.now n }
{
    let mut rest = table;
    for _ in 0..n {
        rest = after_line(rest);
    }
    first_line(rest)
}

// Kept: the place, as `text::put_at` gives it.
// A line of a table at a place of what is lent, and the place after it; where it doesn't fit, the place itself and nothing written.
fn put_line(out: &mut [u8], at: usize, table: &[u8], n: usize) -> usize
    ensures place { result ≡ after_bytes out.old at (line_at table.now n) }
    ensures bytes { out.new ≡ with_bytes_at out.old at (line_at table.now n) }
{
    text::put_at(out, at, line_at(table, n))
}

// The name of a field by its number, at a place of what is lent, and the place after it; none for a number that no field has.
pub fn put_field(out: &mut [u8], at: usize, number: usize) -> usize
    ensures place { result ≡ after_bytes out.old at (get_or field_words number []) }
    ensures bytes { out.new ≡ with_bytes_at out.old at (get_or field_words number []) }
{
    put_line(
        out,
        at,
        b"
type
message type
duplicate code
initiator
identifier
date
number
bank
account
debit date
purpose
name
remark
item number
amount
customer id
address
account owner
due date
credit date
item count
sum
notification date
",
        number,
    )
}

// A kind of fault by its number, at a place of what is lent, and the place after it; none for a number that no kind has.
pub fn put_kind(out: &mut [u8], at: usize, number: usize) -> usize
    ensures place { result ≡ after_bytes out.old at (get_or kind_words number []) }
    ensures bytes { out.new ≡ with_bytes_at out.old at (get_or kind_words number []) }
{
    put_line(
        out,
        at,
        b"
a letter that text may not hold
not the right mark
wrong form
not digits
check digit
no date
outside the days
not listed
already known
blank or zero
out of order
more than ten days after the date
wrong form in the first eight, retype the eight characters after the bank
wrong form in the last eight, retype the last eight characters
check digit over eight, retype the eight characters after the bank
check digit over sixteen, retype the sixteen characters after the bank
",
        number,
    )
}

// What a code is given for, at a place of what is lent, and the place after it; none for a number that is no code. The table has a line
// for each number up to the last code.
pub fn put_meaning(out: &mut [u8], at: usize, code: u8) -> usize
    ensures place { result ≡ after_bytes out.old at (meaning code) }
    ensures bytes { out.new ≡ with_bytes_at out.old at (meaning code) }
{
    put_line(
        out,
        at,
        b"no fault\nhead, bank\nhead, number\n\n\n\n\nhead, debit date\n\nhead, message type\n\n\n\n\n\n\nitem, amount is zero\n\
        \nfoot, item count\nfoot, sum\n\n\n\n\n\n\nbreak, the records can't be cut\n\n\nhead, identifier already known\n\
        \n\nitem, number out of order\nitem, due date\nitem, amount is not digits\n\na letter that text may not hold\nitem, bank\n\
        \nitem, number is not digits\n\nhead, type\nhead, duplicate code\nhead, initiator or name\nhead, date\n\
        head, account\nitem, type\n\nhead, purpose\n\n\n\n\n\n\n\n\n\n\n\n\nitem, account\nitem, account owner\n\
        item, customer id\n",
        code as usize,
    )
}
