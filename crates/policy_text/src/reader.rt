//! Reads the lines of a policy text one by one.
ghost use Rattle.std.specs.Prelude.{◌≡◌, ◌<◌, ◌≤◌, length, false};
ghost use Rattle.words.specs.Left.{seen, left};
ghost use Rattle.words.specs.Said.{said};
ghost use Rattle.policy_text.specs.Reading.{Reading, nothing, no_context, misplaced};
ghost use Rattle.policy_text.specs.Lines.{followed, line_read};
ghost use Rattle.policy_text.specs.Shown.{Holds, Opened, Follows, Reads};
ghost use Rattle.policy_text.specs.Texts.{ended};

use crate::call::{add, enter_grant, enter_property};
use crate::controller::Controller;
use crate::head::Head;
use crate::pile::Pile;
use access::refusal::Refusal;
use sheet::sheet::Sheet;
use words::flaw::Flaw;
use words::line::Line;

/// How many bytes a line has at most.
const MOST_BYTES: usize = 1024;

/// How many contexts there are at most.
const MOST_CONTEXTS: u16 = 256;

/// A policy text as far as it is read.
#[derive(Drop)]
pub(crate) struct Reader {
    pub(crate) head: Head,
    // Laid out anew at the first call, since only then the contexts are known.
    pub(crate) sheet: Sheet<Pile>,
    called: bool,
}

impl Reader {
    pub(crate) fn new() -> Reader
        ensures { Holds nothing result }
    {
        let head = Head::new();
        let sheet = head.lay_out();
        Reader {
            head,
            sheet,
            called: false,
        }
    }

    /// Lays the sheet out, if no call was met.
    pub(crate) fn open(&mut self)
        ensures { (p : Reading) → Holds p self.old → no_context p ≡ false → Opened p self.new }
    {
        if !self.called {
            self.sheet = self.head.lay_out();
            self.called = true;
        }
    }

    /// Whether a line stands where it may not.
    fn misplaced(&self, line: Line<'_>) -> Option<Refusal>
        ensures { (p : Reading) → Holds p self.now → result ≡ misplaced p (said line.entry) }
    {
        let contexts = self.head.names.count();
        match line {
            Line::Context { .. } if self.called || !self.head.constrained.is_empty() => {
                Some(Refusal::UnfitLine)
            }
            Line::Context { .. } if contexts >= MOST_CONTEXTS => Some(Refusal::ContextCount),
            Line::Context { .. } => None,
            Line::Constrain { .. } if self.called => Some(Refusal::UnfitLine),
            _ if contexts == 0 => Some(Refusal::ContextCount),
            _ => None,
        }
    }

    /// Does what a line says that may stand where it does.
    fn follow(&mut self, line: Line<'_>) -> Result<(), Flaw>
        ensures { (p : Reading) → Holds p self.old → misplaced p (said line.entry) ≡ None → Follows (followed p (said line.entry)) result self.new }
    {
        match line {
            Line::Context { name, level, owner } => self.head.declare(name, level, owner),
            Line::Constrain { operations } => self.head.constrain(operations),
            Line::Vector {
                subject,
                target,
                operations,
            } => {
                self.open();
                add(
                    &mut self.sheet,
                    &self.head.names,
                    subject,
                    target,
                    operations,
                )
            }
            Line::Grant {
                number,
                subjects,
                targets,
                operations,
            } => {
                self.open();
                enter_grant(
                    &mut self.sheet,
                    &self.head.names,
                    number,
                    subjects,
                    targets,
                    operations,
                )
            }
            Line::Property {
                number,
                template,
                first,
                second,
            } => {
                self.open();
                enter_property(
                    &mut self.sheet,
                    &self.head.names,
                    number,
                    template,
                    first,
                    second,
                )
            }
        }
    }

    /// Reads one line.
    pub(crate) fn take(&mut self, bytes: &[u8]) -> Result<(), Flaw>
        ensures { (p : Reading) → Holds p self.old → Follows (line_read p bytes.now) result self.new }
    {
        if bytes.len() > MOST_BYTES {
            return Err(Flaw::of_line(Refusal::UnfitLine));
        }
        let line = Line::read(bytes).ok_or(Flaw::of_line(Refusal::UnfitLine))?;
        if let Some(refusal) = self.misplaced(line) {
            return Err(Flaw::of_line(refusal));
        }
        self.follow(line)
    }

    /// Ends the text, with `rest` behind the last line feed.
    pub(crate) fn end(mut self, rest: &[u8]) -> Result<Controller, Flaw>
        ensures { (p : Reading) → Holds p self → Reads (ended p rest.now) result }
    {
        if !rest.is_empty() {
            return Err(Flaw::of_line(Refusal::UnfitLine));
        }
        if self.head.names.count() == 0 {
            return Err(Flaw::of_line(Refusal::ContextCount));
        }
        self.open();
        let Reader { head, sheet, .. } = self;
        let Head { names, .. } = head;
        Ok(Controller { names, sheet })
    }
}
