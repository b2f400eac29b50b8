//! Reads a policy text: names, and a sheet with its policy, grants and properties, on which the calls of its lines are made.

#![tactic(auto)]

pub mod call;
pub mod controller;
pub mod fault;
mod head;
pub mod laws;
pub mod pile;
pub mod read;
mod reader;
