//! Requests to a sheet over a full table, and of a context against itself.
use crate::served::{self, Named, set};
use access::context_set::ContextSet;
use access::operation::Operation;
use access::operation_set::OperationSet;
use access::property::{Property, Template};
use layers::labels::Labels;
use layers::level::LevelLayer;
use layers::owner::OwnerLayer;
use policy_text::pile::Pile;
use record_table::table::RecordTable;
use sheet::request::Request;
use std::alloc::{AllocError, Global};
use std::io;

/// All pairs of as many contexts fill a table, which has room for 1,024.
const FILLING: u16 = 32;

/// A policy with one context more than those that fill it.
fn controller() -> Pile {
    let table = RecordTable::new(FILLING + 1);
    let owned = OwnerLayer::new(table, Labels::zero(), OperationSet::none());
    LevelLayer::new(owned, Labels::zero())
}

fn written(subject: u16, target: u16) -> Request {
    Request::AskWritten { subject, target }
}

/// Each of the contexts 1 to 32 is given `read` on each of them.
pub(crate) fn fill(alloc: Global) -> Result<Vec<Request>, AllocError> {
    let mut requests = Vec::new(alloc);
    for subject in 1..=FILLING {
        for target in 1..=FILLING {
            requests.push(set(subject, target, OperationSet::from(Operation::Read)))?;
        }
    }
    Ok(requests)
}

pub(crate) fn against_itself() -> [Named; 1] {
    let one = ContextSet::none().with(1);
    let property = Property {
        template: Template::Integrity,
        first: one,
        second: one,
    };
    [(
        "enter property 1, integrity of 1 against 1",
        Request::EnterProperty {
            number: 1,
            property,
        },
    )]
}

/// A pair beside those of the full table.
pub(crate) fn new_pair() -> [Named; 6] {
    let give = set(33, 1, OperationSet::from(Operation::Write));
    [
        ("pairs that have room", Request::AskCapacity),
        ("accepted settings", Request::AskSettings),
        ("give 33 write on 1", give),
        ("empty 7 on 8", set(7, 8, OperationSet::none())),
        ("give 33 write on 1", give),
        ("what is written of 33 on 1", written(33, 1)),
    ]
}

/// A change by which one pair of the full table makes room for another.
pub(crate) fn withdrawn() -> [Named; 9] {
    let give = set(33, 1, OperationSet::from(Operation::Write));
    [
        ("accepted settings", Request::AskSettings),
        ("open a change", Request::Open),
        ("empty 7 on 8", set(7, 8, OperationSet::none())),
        ("give 33 write on 1", give),
        ("what is written of 7 on 8", written(7, 8)),
        ("what is written of 33 on 1", written(33, 1)),
        ("withdraw", Request::Withdraw),
        ("what is written of 7 on 8", written(7, 8)),
        ("what is written of 33 on 1", written(33, 1)),
    ]
}

/// Serves requests and then those that have a name, and prints what the latter are answered.
pub(crate) fn show(
    rt: &impl Print,
    alloc: Global,
    requests: Vec<Request>,
    named: &[Named],
) -> io::Result<()> {
    served::show(rt, alloc, controller(), requests, named)
}
