// Words that the definitions of every other crate use, with their laws. There is no code here.
#![tactic(auto)]
