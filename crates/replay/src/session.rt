//! A sheet with the change that its caller holds, and how one request is served.
ghost use Rattle.std.specs.Prelude.{◌≡◌, is_some};
ghost use Rattle.sheet.specs.Book.{refusal, fed};
ghost use Rattle.sheet.specs.Shown.{shown, spent};
ghost use Rattle.sheet.specs.declared.request.Request.TheVariants.{Open, Withdraw};
ghost use Rattle.replay.specs.Replies.{reply_of, Right};
ghost use Rattle.replay.specs.Calls.{plainly, deciding};

use crate::answer::Answer;
use crate::judging::judge;
use access::policy::Policy;
use access::refusal::Refusal;
use sheet::change::{Change, Undecided};
use sheet::request::Request;
use sheet::sheet::Sheet;

/// A sheet, and the open change that is held beside it: one is held while one is open, and only then.
pub struct Session<P: Policy> {
    pub(crate) sheet: Sheet<P>,
    pub(crate) held: Option<Change>,
    ghost holds: { is_some held ≡ is_some (shown sheet).change },
}

/// What a call is answered that tells nothing but its refusal.
fn told(outcome: Result<(), Refusal>) -> Answer
    ensures { result ≡ plainly outcome }
{
    match outcome {
        Ok(()) => Answer::Accepted,
        Err(why) => Answer::Refused(why),
    }
}

/// Adopts a change where its settings are kept, and withdraws it where not.
fn decide<P: Policy>(sheet: &mut Sheet<P>, change: Change, keeps: bool) -> Result<(), Undecided>
    ensures told { result ≡ spent change (refusal (shown sheet.old) (deciding keeps)) }
    ensures done { shown sheet.new ≡ fed (shown sheet.old) (deciding keeps) }
{
    match keeps {
        true => sheet.adopt(change),
        false => sheet.withdraw(change),
    }
}

impl<P: Policy> Session<P> {
    /// Serves a request to open a change.
    fn open(&mut self) -> Answer
        ensures answer { Right (shown self.old.sheet) Open (reply_of result) }
        ensures done { shown self.new.sheet ≡ fed (shown self.old.sheet) Open }
    {
        match self.sheet.open() {
            Ok(change) => match self.held.replace(change) {
                None => Answer::Accepted,
                Some(_) => unreachable!(),
            },
            Err(why) => Answer::Refused(why),
        }
    }

    /// Serves a request to adopt or to withdraw the open change.
    fn end(&mut self, keeps: bool) -> Answer
        ensures answer { Right (shown self.old.sheet) (deciding keeps) (reply_of result) }
        ensures done { shown self.new.sheet ≡ fed (shown self.old.sheet) (deciding keeps) }
    {
        // None is open where none is held, and without one the sheet cannot be called.
        let Some(change) = self.held.take() else {
            return Answer::Refused(Refusal::NoneOpen);
        };
        match decide(&mut self.sheet, change, keeps) {
            Ok(()) => Answer::Accepted,
            Err(_) => unreachable!(),
        }
    }

    /// Serves one request.
    pub(crate) fn serve(&mut self, request: Request) -> Answer
        ensures answer { Right (shown self.old.sheet) request (reply_of result) }
        ensures done { shown self.new.sheet ≡ fed (shown self.old.sheet) request }
    {
        let sheet = &mut self.sheet;
        match request {
            Request::Set {
                subject,
                target,
                operations,
            } => told(sheet.set(subject, target, operations)),
            Request::EnterGrant { number, grant } => told(sheet.enter_grant(number, grant)),
            Request::StrikeGrant { number } => told(sheet.strike_grant(number)),
            Request::EnterProperty { number, property } => {
                told(sheet.enter_property(number, property))
            }
            Request::StrikeProperty { number } => told(sheet.strike_property(number)),
            Request::Open => self.open(),
            Request::Adopt => self.end(true),
            Request::Withdraw => self.end(false),
            Request::Judge {
                number,
                ticks,
                places,
                steps,
            } => judge(sheet, number, ticks, places, steps),
            Request::AskSettings => Answer::Number(sheet.settings()),
            Request::AskContexts => Answer::Number(u32::from(sheet.contexts())),
            Request::AskCapacity => Answer::Number(sheet.capacity()),
            Request::AskWritten { subject, target } => {
                Answer::Operations(sheet.written(subject, target))
            }
            Request::AskPermitted { subject, target } => {
                Answer::Operations(sheet.permitted(subject, target))
            }
        }
    }

    /// The sheet, a change that is still open withdrawn.
    pub fn close(self) -> Sheet<P>
        ensures { shown result ≡ fed (shown self.sheet) Withdraw }
    {
        let Session { mut sheet, held } = self;
        let Some(change) = held else {
            return sheet;
        };
        match sheet.withdraw(change) {
            Ok(()) => sheet,
            Err(_) => unreachable!(),
        }
    }
}
