//! A change is opened, and adopted.
ghost use Rattle.std.specs.Prelude.{◌≡◌, OnErr};
ghost use Rattle.sheet.specs.Book.{refusal, fed};
ghost use Rattle.sheet.specs.Shown.{shown, handed, spent};
ghost use Rattle.sheet.specs.declared.request.Request.TheVariants.{Open, Adopt};

use crate::notes::Notes;
use crate::sheet::Sheet;
use access::policy::Policy;
use access::refusal::Refusal;

/// A change that is open: it has to be adopted or withdrawn, so it cannot be let go. It decides the change that is open on the sheet to
/// which it is handed.
pub struct Change {
    pub(crate) opened: (),
}

/// The change that a refused call hands back.
pub struct Undecided {
    pub why: Refusal,
    pub change: Change,
}

impl<P: Policy> Sheet<P> {
    /// Opens a change: settings are noted from now on.
    pub fn open(&mut self) -> Result<Change, Refusal>
        ensures told { result ≡ handed (refusal (shown self.old) Open) }
        ensures done { shown self.new ≡ fed (shown self.old) Open }
        ensures kept { OnErr result (self.new ≡ self.old) }
    {
        if self.change.is_some() {
            return Err(Refusal::OpenAlready);
        }
        self.change = Some(Notes::none());
        Ok(Change { opened: () })
    }

    /// Ends a change and keeps its settings.
    pub fn adopt(&mut self, change: Change) -> Result<(), Undecided>
        ensures told { result ≡ spent change (refusal (shown self.old) Adopt) }
        ensures done { shown self.new ≡ fed (shown self.old) Adopt }
        ensures kept { OnErr result (self.new ≡ self.old) }
    {
        if self.change.take().is_none() {
            return Err(Undecided {
                why: Refusal::NoneOpen,
                change,
            });
        }
        let Change { opened: () } = change;
        Ok(())
    }
}
