//! A sheet over any policy: how it is laid out, and what it can be asked.
ghost use Rattle.std.specs.Prelude.{◌≡◌, true};
ghost use Rattle.sheet.specs.Held.{held};
ghost use Rattle.sheet.specs.Book.{start};
ghost use Rattle.sheet.specs.Undo.{change_undoable};
ghost use Rattle.sheet.specs.Judging.{AllFit};

use crate::notes::Notes;
use crate::table::Table;
use access::operation_set::OperationSet;
use access::policy::Policy;
use access::property::Property;
use judge::grant::Grant;

/// A policy with grants 1 to 32, properties 1 to 64, at most one open change, and the count of accepted settings.
#[derive(Drop)]
pub struct Sheet<P: Policy> {
    pub(crate) policy: P,
    pub(crate) settings: u32,
    pub(crate) grants: Table<Grant, 32>,
    pub(crate) properties: Table<Property, 64>,
    pub(crate) change: Option<Notes>,
    ghost undoable: { change_undoable change (P.Policy.meaning policy) ≡ true },
    ghost fit: { AllFit (P.Policy.meaning policy).contexts (held properties) },
}

impl<P: Policy> Sheet<P> {
    ghost use Rattle.sheet.specs.Shown.{shown};

    pub fn lay_out(policy: P) -> Sheet<P>
        ensures { shown result ≡ start (P.Policy.meaning policy) }
    {
        Sheet {
            policy,
            settings: 0,
            grants: Table::new(),
            properties: Table::new(),
            change: None,
        }
    }

    /// How many settings were accepted; the count stays at 4,294,967,295 once there.
    pub fn settings(&self) -> u32
        ensures { result ≡ (shown self.now).settings }
    {
        self.settings
    }

    pub fn contexts(&self) -> u16
        ensures { result ≡ (shown self.now).policy.contexts }
    {
        self.policy.contexts()
    }

    pub fn capacity(&self) -> u32
        ensures { result ≡ (shown self.now).policy.capacity }
    {
        self.policy.capacity()
    }

    pub fn written(&self, subject: u16, target: u16) -> OperationSet
        ensures { result.bits ≡ (shown self.now).policy.written subject target }
    {
        self.policy.written(subject, target)
    }

    pub fn permitted(&self, subject: u16, target: u16) -> OperationSet
        ensures { result.bits ≡ (shown self.now).policy.permitted subject target }
    {
        self.policy.permitted(subject, target)
    }
}
