//! Searching over lent memory: a list over a lent slice, a guard over lent bytes, and a breadth-first search for any graph.

#![tactic(auto)]

pub mod breadth_first;
pub mod lent;
