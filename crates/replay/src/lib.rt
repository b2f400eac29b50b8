//! Any list of requests to a sheet: what the customer is promised stands on one function. Each is served by the sheet's own call, but for
//! a decision while no change is held, which the sheet could not be asked for.

#![tactic(auto)]

pub mod answer;
mod judging;
pub mod replay;
pub mod session;
