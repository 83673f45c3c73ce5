// The field rules of ATUTAL: definitions only (specs/Tables).
#![tactic(auto)]
