// The round trips of the record file: statements and their proofs; there is no code here. See specs/Law.antt.
#![tactic(auto)]
