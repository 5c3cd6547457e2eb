//! Twelve figures on both sides of an edge: a theorem, no code.
#![tactic(auto)]

pub mod laws;
