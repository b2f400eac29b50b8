//! Which sets and properties are fit for a number of contexts.
ghost use Rattle.std.specs.Prelude.{◌≡◌};
ghost use Rattle.access.specs.Refusals.{answer};
ghost use Rattle.access.specs.Fitness.{unfit, unfit_second, property_refusal};

use crate::context_set::ContextSet;
use crate::property::{Property, Template};
use crate::refusal::Refusal;

/// Whether a set has a member above `contexts` or is empty.
pub fn is_unfit(contexts: u16, set: ContextSet) -> bool
    ensures { result ≡ unfit contexts set }
{
    set.has_above(contexts) || set.is_empty()
}

/// The same for the second set of a property: that of a domain is to be empty.
fn is_unfit_second(contexts: u16, template: Template, set: ContextSet) -> bool
    ensures { result ≡ unfit_second contexts template set }
{
    match template {
        Template::Domain => !set.is_empty(),
        Template::Integrity | Template::Confidentiality | Template::Consistency => {
            is_unfit(contexts, set)
        }
    }
}

impl Property {
    /// Checks that the property is fit for so many contexts.
    pub fn check(self, contexts: u16) -> Result<(), Refusal>
        ensures { result ≡ answer (property_refusal contexts self) }
    {
        if is_unfit(contexts, self.first) || is_unfit_second(contexts, self.template, self.second) {
            return Err(Refusal::UnfitSet);
        }
        if self.first.shares(self.second) {
            return Err(Refusal::SharedContext);
        }
        Ok(())
    }
}
