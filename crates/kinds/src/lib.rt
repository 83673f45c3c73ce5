// The kinds of message and the rules of a message of either kind: their numbers here, all else definitions and laws (specs/Kinds, specs/Codes).
#![tactic(auto)]

// Kept: numbers, since what may not change is that `items::item` and `single::answer` take any number, and that `frame::Told` holds one.
// A group transfer.
pub const ATUTAL: u32 = 0;

// A direct debit.
pub const BESZED: u32 = 1;
