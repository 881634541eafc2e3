//! Histories that start from a store read (request W2), as definitions and proofs only: see specs/ReadStart.antt.
#![tactic(auto)]
