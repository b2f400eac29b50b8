//! What an open change remembers of one setting.
use access::operation_set::OperationSet;

/// A pair that was set, and its written set before.
#[derive(Clone, Copy, Debug, PartialEq, Eq)]
pub struct Note {
    pub subject: u16,
    pub target: u16,
    pub before: OperationSet,
}
