//! Demand 3, as definitions and proofs only: see specs/History.antt.
#![tactic(auto)]
