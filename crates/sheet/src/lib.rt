//! A sheet over any policy: grants, properties that are judged, and a change that is adopted or withdrawn.

#![tactic(auto)]

pub mod change;
pub mod entering;
pub mod judging;
pub mod laws;
mod note;
mod notes;
pub mod request;
pub mod setting;
pub mod sheet;
pub mod table;
