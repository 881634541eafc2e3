//! What several calls ask and answer, as definitions and laws only: see specs/ and proofs/.
#![tactic(auto)]
