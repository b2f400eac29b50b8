//! Tests of what no contract says: a full record table, seeking on small policies and how often these are asked, requests to judge each
//! number, and reports.

#![tactic(auto)]

#[cfg(test)]
mod counting;
#[cfg(test)]
mod reports;
#[cfg(test)]
mod requests;
#[cfg(test)]
mod seeking;
#[cfg(test)]
mod tables;
