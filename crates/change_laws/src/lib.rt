//! What a change of rules/ does to a store, as definitions and proofs only:
//! its conditions, its plan row by row, and what is left.
#![tactic(auto)]
