//! What is said of a property, written as a part of a report, and from a policy text to its report.

#![tactic(auto)]

pub mod job;
pub mod part;
pub mod reporting;
mod writing;
