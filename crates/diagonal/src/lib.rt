// The diagonal law of the choice: a statement and its proof; there is no code here. See specs/Law.antt.
#![tactic(auto)]
