//! The vocabulary of access policies: operations, sets of operations and of contexts, refusals, and what every policy answers.

#![tactic(auto)]

pub mod context_set;
pub mod fitness;
pub mod numbers;
pub mod operation;
pub mod operation_set;
pub mod policy;
pub mod property;
pub mod refusal;
pub mod setting;
