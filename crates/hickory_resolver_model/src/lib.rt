//! What a stub resolver means: the definitions that the contracts of the resolver cite, in `specs/`. There is
//! no code.
#![tactic(auto)]
