//! The words of a policy text: how it is cut into lines and words, what a line says, what words mean, and the names of contexts.

#![tactic(auto)]

pub mod context;
pub mod cut;
pub mod flaw;
pub mod line;
pub mod name;
pub mod names;
pub mod number;
pub mod operation;
pub mod set;
pub mod template;
pub mod word;
