//! What is proved of the definitions of `hickory_resolver_model`, in `specs/` and `proofs/`. The functions
//! here do nothing: each has a law or worked cases for its contract, so that they are proved.
#![tactic(auto)]

pub mod laws;
pub mod worked;
