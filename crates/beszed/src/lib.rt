// The field rules of BESZED: definitions only (specs/Tables).
#![tactic(auto)]
