//! Pairs are set, and the settings of a change withdrawn.
ghost use Rattle.std.specs.Prelude.{◌≡◌, true, [], OnErr};
ghost use Rattle.access.specs.Refusals.{answer};
ghost use Rattle.sheet.specs.Undo.{undo, undoable};
ghost use Rattle.sheet.specs.Book.{notes_full, refusal, fed};
ghost use Rattle.sheet.specs.Shown.{shown, spent};
ghost use Rattle.sheet.specs.declared.request.Request.TheVariants.{Set, Withdraw};

use crate::change::{Change, Undecided};
use crate::note::Note;
use crate::notes::Notes;
use crate::sheet::Sheet;
use access::operation_set::OperationSet;
use access::policy::Policy;
use access::refusal::Refusal;
use access::setting::check_setting;

/// Puts back every set that was noted, the latest first.
fn put_back<P: Policy>(policy: &mut P, notes: &mut Notes)
    requires { undoable notes.old (P.Policy.meaning policy.old) ≡ true }
    ensures undone { P.Policy.meaning policy.new ≡ undo notes.old (P.Policy.meaning policy.old) }
    ensures all { notes.new ≡ [] }
{
    while let Some(note) = notes.take_latest() {
        // Never refused: it returns to what stood before.
        let _ = policy.set(note.subject, note.target, note.before);
    }
}

impl<P: Policy> Sheet<P> {
    /// Whether the open change has no room for one note more.
    fn is_full(&self) -> bool
        ensures { result ≡ notes_full (shown self.now).change }
    {
        self.change.as_ref().is_some_and(Notes::are_full)
    }

    /// Replaces the written set of a pair, and notes the old one while a change is open.
    pub fn set(
        &mut self,
        subject: u16,
        target: u16,
        operations: OperationSet,
    ) -> Result<(), Refusal>
        ensures told { result ≡ answer (refusal (shown self.old) (Set subject target operations)) }
        ensures done { shown self.new ≡ fed (shown self.old) (Set subject target operations) }
        ensures kept { OnErr result (self.new ≡ self.old) }
    {
        if self.is_full() {
            check_setting(self.policy.contexts(), subject, target, operations)?;
            return Err(Refusal::NotesFull);
        }
        let before = self.policy.written(subject, target);
        self.policy.set(subject, target, operations)?;
        self.settings = self.settings.saturating_add(1);
        if let Some(notes) = &mut self.change {
            notes.add(Note {
                subject,
                target,
                before,
            });
        }
        Ok(())
    }

    /// Ends a change and puts back every set that it replaced, the latest first.
    // Like `adopt` at first: a contract of what both have would tell of the change, the token and the rest of the sheet, each way.
    pub fn withdraw(&mut self, change: Change) -> Result<(), Undecided>
        ensures told { result ≡ spent change (refusal (shown self.old) Withdraw) }
        ensures done { shown self.new ≡ fed (shown self.old) Withdraw }
        ensures kept { OnErr result (self.new ≡ self.old) }
    {
        // Undone where they stand, since a copy would be of 128 places.
        let Some(notes) = &mut self.change else {
            return Err(Undecided {
                why: Refusal::NoneOpen,
                change,
            });
        };
        put_back(&mut self.policy, notes);
        self.change = None;
        let Change { opened: () } = change;
        Ok(())
    }
}
