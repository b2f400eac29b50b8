//! The record table: a policy that keeps a record for each pair with operations, in chains.

#![tactic(auto)]

pub mod chains;
pub mod policy;
pub mod table;
