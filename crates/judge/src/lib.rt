//! Judging a property under a policy with standing grants: the moves that legal runs make, the kinds of activity, seeking a shortest one,
//! and the verdict.

#![tactic(auto)]

pub mod activity;
mod by_context;
pub mod chart;
mod contact;
mod doings;
pub mod flow;
pub mod grant;
pub mod judging;
pub mod measure;
pub mod movement;
pub mod moves;
mod nearest;
mod outline;
pub mod possible;
pub mod pull;
pub mod push;
pub mod regime;
mod searched;
pub mod seek;
pub mod step;
pub mod verdict;
mod way;
