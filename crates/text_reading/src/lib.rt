//! Reading a printed text into a store.
#![tactic(auto)]
