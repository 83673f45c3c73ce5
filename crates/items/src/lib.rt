// A message of either kind after its head: what is found in an item and a foot, and the codes that follow (002 sections 1.2.1, 1.3.1, 2.2.1, 2.3.1).
#![tactic(auto)]

pub mod foot;
pub mod item;
