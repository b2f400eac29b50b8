//! A property: a template and its sets of contexts.
use crate::context_set::ContextSet;

/// What a property forbids, of which activities.
#[derive(Clone, Copy, Debug, PartialEq, Eq)]
pub enum Template {
    Integrity,
    Confidentiality,
    Domain,
    Consistency,
}

/// A property: a template and its sets. A domain uses the first set alone.
#[derive(Clone, Copy, Debug, PartialEq, Eq)]
pub struct Property {
    pub template: Template,
    pub first: ContextSet,
    pub second: ContextSet,
}
