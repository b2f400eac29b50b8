//! Grants and properties are entered and struck.
ghost use Rattle.std.specs.Prelude.{◌≡◌, OnErr};
ghost use Rattle.access.specs.Refusals.{answer};
ghost use Rattle.sheet.specs.Book.{refusal, fed};
ghost use Rattle.sheet.specs.Shown.{shown};
ghost use Rattle.sheet.specs.declared.request.Request.TheVariants.{EnterGrant, StrikeGrant, EnterProperty, StrikeProperty};

use crate::sheet::Sheet;
use access::fitness::is_unfit;
use access::policy::Policy;
use access::property::Property;
use access::refusal::Refusal;
use judge::grant::Grant;

impl<P: Policy> Sheet<P> {
    /// Checks that a grant can be entered.
    fn check_grant(&self, number: u16, grant: Grant) -> Result<(), Refusal>
        ensures { result ≡ answer (refusal (shown self.now) (EnterGrant number grant)) }
    {
        self.grants.vacant(number)?;
        if grant.operations.has_unknown() || grant.operations.is_empty() {
            return Err(Refusal::UnfitOperations);
        }
        let n = self.policy.contexts();
        if is_unfit(n, grant.subjects) || is_unfit(n, grant.targets) {
            return Err(Refusal::UnfitSet);
        }
        Ok(())
    }

    pub fn enter_grant(&mut self, number: u16, grant: Grant) -> Result<(), Refusal>
        ensures told { result ≡ answer (refusal (shown self.old) (EnterGrant number grant)) }
        ensures done { shown self.new ≡ fed (shown self.old) (EnterGrant number grant) }
        ensures kept { OnErr result (self.new ≡ self.old) }
    {
        self.check_grant(number, grant)?;
        self.grants.put(number, Some(grant));
        Ok(())
    }

    pub fn strike_grant(&mut self, number: u16) -> Result<(), Refusal>
        ensures told { result ≡ answer (refusal (shown self.old) (StrikeGrant number)) }
        ensures done { shown self.new ≡ fed (shown self.old) (StrikeGrant number) }
        ensures kept { OnErr result (self.new ≡ self.old) }
    {
        self.grants.strike(number)
    }

    /// Checks that a property can be entered.
    fn check_property(&self, number: u16, property: Property) -> Result<(), Refusal>
        ensures { result ≡ answer (refusal (shown self.now) (EnterProperty number property)) }
    {
        self.properties.vacant(number)?;
        property.check(self.policy.contexts())
    }

    // Like `enter_grant` but for the test and the table: as one function of both, it would be as long as this.
    pub fn enter_property(&mut self, number: u16, property: Property) -> Result<(), Refusal>
        ensures told { result ≡ answer (refusal (shown self.old) (EnterProperty number property)) }
        ensures done { shown self.new ≡ fed (shown self.old) (EnterProperty number property) }
        ensures kept { OnErr result (self.new ≡ self.old) }
    {
        self.check_property(number, property)?;
        self.properties.put(number, Some(property));
        Ok(())
    }

    pub fn strike_property(&mut self, number: u16) -> Result<(), Refusal>
        ensures told { result ≡ answer (refusal (shown self.old) (StrikeProperty number)) }
        ensures done { shown self.new ≡ fed (shown self.old) (StrikeProperty number) }
        ensures kept { OnErr result (self.new ≡ self.old) }
    {
        self.properties.strike(number)
    }
}
