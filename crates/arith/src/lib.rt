// Definitions and laws that several sections share; there is no code here. See specs/ and proofs/.
#![tactic(auto)]
