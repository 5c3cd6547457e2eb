//! Both round trips of the image card (MIL-A-89007, 3.17.1): laws alone.
#![tactic(auto)]

pub mod laws;
