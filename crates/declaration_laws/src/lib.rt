//! Laws on the declarations of a printed text, as proofs only: see proofs/Declaring.antt.
#![tactic(auto)]
