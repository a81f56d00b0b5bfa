//! What is proved of a pool of name servers, over its definitions alone. The functions here do nothing: each has a law
//! for its contract, so that it is proved.
#![tactic(auto)]

pub mod laws;
