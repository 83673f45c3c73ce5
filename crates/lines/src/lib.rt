// Lines of text for people: the slip (`slip`), what a STATUS says (`facts`) and what is found of a FEDJEL (`cover`).
#![tactic(auto)]

pub mod cover;
pub mod facts;
pub mod slip;
