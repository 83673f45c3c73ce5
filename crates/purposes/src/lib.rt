// The purposes of a message: a table of the 46 codes of annex 2 of 002.
#![tactic(auto)]

ghost use Rattle.std.specs.Prelude.{◌≡◌};
ghost use Rattle.purposes.specs.Purposes.{is_purpose};

// The purposes, in the order of annex 2 of 002.
const PURPOSES: [[u8; 3]; 46] = [
    *b"BEB", *b"BEE", *b"BET", *b"BKB", *b"BKK", *b"BLV", *b"BNY", *b"BEO", *b"BGC", *b"BGK",
    *b"BGX", *b"BGY", *b"MUN", *b"CSP", *b"ETK", *b"GYD", *b"GYS", *b"ILK", *b"TID", *b"TPZ",
    *b"MHL", *b"MGY", *b"MBD", *b"ELL", *b"EGS", *b"NYP", *b"UGY", *b"MNJ", *b"NYG", *b"NOE",
    *b"NOK", *b"NME", *b"NMK", *b"NGY", *b"CST", *b"DIJ", *b"FUJ", *b"FUT", *b"GAZ", *b"KEM",
    *b"KTS", *b"LBR", *b"MVZ", *b"SZE", *b"THO", *b"VIL",
];

// Whether the bytes are a purpose (annex 2 of 002).
#[tactic(auto, unfolding(crate::specs::Purposes::purposes))]
pub fn is_purpose(s: &[u8]) -> bool
    ensures { result ≡ is_purpose s.now }
{
    PURPOSES.iter().any(|code| code.as_slice() == s)
}
