//! Requests served one after another.
ghost use Rattle.std.specs.Prelude.{is_some};
ghost use Rattle.sheet.specs.Book.{start};
ghost use Rattle.sheet.specs.Shown.{shown};
ghost use Rattle.replay.specs.Replies.{SameReplies};
ghost use Rattle.replay.specs.Promise.{Promise};

use crate::answer::Answer;
use crate::session::Session;
use access::policy::Policy;
use sheet::request::Request;
use sheet::sheet::Sheet;

/// Lays out a sheet with a policy, serves as many requests on it as there is room for answers, and hands back
/// the sheet with the change that is still held.
pub fn replay<P: Policy>(policy: P, requests: &[Request], answers: &mut [Answer]) -> Session<P>
    ensures { Promise (start (P.Policy.meaning policy)) requests.now answers.old answers.new (shown result.sheet) (is_some result.held) }
{
    let mut session = Session {
        sheet: Sheet::lay_out(policy),
        held: None,
    };
    for i in 0..requests.len().min(answers.len()) {
        answers[i] = session.serve(requests[i]);
    }
    session
}

/// Whoever serves requests by the book replies the same.
pub fn same_replies_stand()
    ensures { SameReplies }
{}
