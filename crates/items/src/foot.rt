// The foot of a message (002 sections 1.2.1 and 2.2.1).
ghost use Rattle.std.specs.Prelude.{◌≡◌};
ghost use Rattle.kinds.specs.Codes.{foot_code};

// The foot's code, by the number of items and the sum of their amounts; the count comes before the sum.
// Bytes of another length are a break.
pub fn code_in(r: &[u8], count: u64, sum: u64) -> u8
    ensures { result ≡ foot_code count sum r.now }
{
    if r.len() != frame::FOOT {
        return 26;
    }
    let c = fields::total_code(&r[2..8], 6, count, 18);
    if c != 0 {
        return c;
    }
    fields::total_code(&r[8..frame::FOOT], 16, sum, 19)
}
