//! Paper 02, W3: the tree rows are checked in one walk that can be resumed after any row. The statement stands in
//! `specs/OnePass.antt`, its proof in `proofs/Theorem.antt`; there is no code here: the walk is `row_check`.
#![tactic(auto)]
