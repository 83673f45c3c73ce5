// The messages that answer: STATUS, the reply to a message (`reply`), and FEDSTA, the answer on cover (`fedsta`); `records` has what both are written of.
#![tactic(auto)]

pub mod fedsta;
mod records;
pub mod reply;

// The bytes of a head of STATUS or FEDSTA with its ending (002 3.1, 4.1).
pub const HEAD: usize = 56;

// The bytes of a STATUS's reference with its ending (002 3.3).
pub const REFERENCE: usize = 65;

// The bytes of a foot of either with its ending (002 3.2, 4.2).
pub const FOOT: usize = 48;
