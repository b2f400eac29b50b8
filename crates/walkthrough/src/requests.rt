//! Requests of every kind to a sheet over the sample controller, refused ones among them, and what they are answered.
use crate::served::{self, Named, set};
use crate::{CLOCK, KEYPAD, LOG, MAINT, OPENING};
use access::context_set::ContextSet;
use access::operation::Operation;
use access::operation_set::OperationSet;
use access::property::{Property, Template};
use judge::grant::Grant;
use policy_text::pile::Pile;
use sheet::request::Request;
use std::alloc::Global;
use std::io;

fn only(context: u16) -> ContextSet {
    ContextSet::none().with(context)
}

/// A grant by which maintenance may be given `write` on the opening times.
fn grant() -> Grant {
    Grant {
        subjects: only(MAINT),
        targets: only(OPENING),
        operations: OperationSet::from(Operation::Write),
    }
}

/// Nothing may get from the keypad to a context.
fn keypad_apart_from(context: u16) -> Property {
    Property {
        template: Template::Integrity,
        first: only(KEYPAD),
        second: only(context),
    }
}

/// Judging over memory that suffices for five contexts, or over less.
fn judge(number: u16, ticks: usize) -> Request {
    Request::Judge {
        number,
        ticks,
        places: 10,
        steps: 5,
    }
}

/// Grants and properties.
fn entering() -> [Named; 11] {
    let grant = grant();
    let property = keypad_apart_from(OPENING);
    let itself = keypad_apart_from(KEYPAD);
    [
        ("enter grant 1", Request::EnterGrant { number: 1, grant }),
        (
            "enter grant 1 again",
            Request::EnterGrant { number: 1, grant },
        ),
        ("enter grant 33", Request::EnterGrant { number: 33, grant }),
        (
            "enter property 1",
            Request::EnterProperty {
                number: 1,
                property,
            },
        ),
        (
            "enter property 2 of the keypad against itself",
            Request::EnterProperty {
                number: 2,
                property: itself,
            },
        ),
        ("judge property 1", judge(1, 10)),
        ("judge property 1 with nine ticks", judge(1, 9)),
        ("judge property 2", judge(2, 10)),
        ("strike grant 1", Request::StrikeGrant { number: 1 }),
        ("strike grant 1 again", Request::StrikeGrant { number: 1 }),
        ("judge property 1", judge(1, 10)),
    ]
}

/// Changes that are withdrawn and adopted.
fn changing() -> [Named; 15] {
    let write = OperationSet::from(Operation::Write);
    let written = Request::AskWritten {
        subject: MAINT,
        target: OPENING,
    };
    [
        ("withdraw", Request::Withdraw),
        ("open a change", Request::Open),
        ("open another", Request::Open),
        ("give maint write on opening", set(MAINT, OPENING, write)),
        (
            "empty clock on opening",
            set(CLOCK, OPENING, OperationSet::none()),
        ),
        ("judge property 1", judge(1, 10)),
        ("withdraw", Request::Withdraw),
        ("judge property 1", judge(1, 10)),
        ("what is written of maint on opening", written),
        ("open a change", Request::Open),
        ("give maint write on opening", set(MAINT, OPENING, write)),
        ("adopt", Request::Adopt),
        ("adopt again", Request::Adopt),
        ("what is written of maint on opening", written),
        ("strike property 1", Request::StrikeProperty { number: 1 }),
    ]
}

/// The other questions.
fn asking() -> [Named; 4] {
    let permitted = Request::AskPermitted {
        subject: MAINT,
        target: LOG,
    };
    [
        ("accepted settings", Request::AskSettings),
        ("contexts", Request::AskContexts),
        ("pairs that have room", Request::AskCapacity),
        ("what is permitted of maint on log", permitted),
    ]
}

/// Serves all these requests on a sheet over the controller, and prints what each is answered.
pub(crate) fn show(rt: &impl Print, alloc: Global, controller: Pile) -> io::Result<()> {
    let mut named = Vec::new(alloc);
    named.extend_from_slice(&entering())?;
    named.extend_from_slice(&changing())?;
    named.extend_from_slice(&asking())?;
    served::show(rt, alloc, controller, Vec::new(alloc), &named)
}
