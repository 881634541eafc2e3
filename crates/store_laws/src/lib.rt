//! What the bytes of a store are read as, and a form by its bytes: definitions and laws only, in specs/ and proofs/.
#![tactic(auto)]
