//! Documents there and back, as definitions and proofs only: rows are read off their text, and a text is that of its
//! rows.
#![tactic(auto)]
