// What the test programs share: where a part of a script ends, the number in a field of a line, and the numbers of a list.
#![tactic(auto)]

ghost use Rattle.std.specs.Prelude.{◌≡◌, ◌==◌, position};
ghost use Rattle.base.specs.Counts.{IsPrefixLen};
ghost use Rattle.script.specs.Script.{Ends, field_of, FilledAs};

// The place of the first such byte, where there is one.
fn place_of(s: &[u8], b: u8) -> Option<usize>
    ensures { result ≡ position (λ x. x == b) s.now }
{
    s.iter().position(|x| *x == b)
}

// Where what starts at a place ends: the place of the next such byte, or the end.
pub fn end_of(s: &[u8], from: usize, b: u8) -> usize
    ensures { Ends s.now from b result }
{
    if from >= s.len() {
        return s.len();
    }
    match place_of(&s[from..], b) {
        Some(k) => from + k,
        None => s.len(),
    }
}

// The number in a field of a line, modulo 2^32; 0 where the line doesn't have the field.
#[tactic(auto, unfolding(crate::specs::Script::field_of))]
pub fn field(r: &[u8], from: usize, end: usize) -> u32
    ensures { result ≡ field_of r.now from end }
{
    match r.get(from..end) {
        Some(digits) => (digits::number(digits) % 4294967296) as u32,
        None => 0,
    }
}

// The numbers of ten digits each, modulo 2^32, at the front of the list, as many as it has room for; how many there are.
pub fn fill(list: &mut [u32], s: &[u8]) -> usize
    ensures filled_as { FilledAs list.old s.now result list.new }
    ensures prefix_len { IsPrefixLen result list.new }
{
    let n = list.len().min(s.len() / 10);
    for k in 0..n {
        let at = k * 10;
        list[k] = field(s, at, at + 10);
    }
    n
}
