//! Layers that stand over any policy and permit less than it does.

#![tactic(auto)]

pub mod labels;
pub mod laws;
pub mod layer;
pub mod level;
pub mod owner;
pub mod rule;
