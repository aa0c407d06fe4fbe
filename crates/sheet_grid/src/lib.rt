// The blocks of a sheet (document 01, "Sheet"): where each lies, its neighbours, and its samples cut and written. Definitions and laws
// only; the code is in crate `sheet`.
#![tactic(auto)]
