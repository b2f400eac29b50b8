//! Regimes.

use crate::grant::Grant;

/// What legal runs are under: a policy, and the grants by which an administrator may change it; number k is entry k - 1.
#[derive(Drop)]
pub struct Regime<'a, P> {
    pub policy: &'a P,
    pub grants: &'a [Option<Grant>; 32],
}
