//! Requests to judge each of the 64 properties.
use access::context_set::ContextSet;
use access::operation::Operation;
use access::operation_set::OperationSet;
use access::policy::Policy;
use access::property::{Property, Template};
use access::refusal::Refusal;
use record_table::table::RecordTable;
use replay::answer::Answer;
use replay::replay::replay;
use sheet::request::Request;
use std::test::Fail;

// Context 1 writes to 2.
fn writing() -> Result<RecordTable, Refusal> {
    let mut table = RecordTable::new(2);
    table.set(1, 2, OperationSet::from(Operation::Write))?;
    Ok(table)
}

fn enter(number: u16) -> Request {
    Request::EnterProperty {
        number,
        property: Property {
            template: Template::Integrity,
            first: ContextSet::none().with(1),
            second: ContextSet::none().with(2),
        },
    }
}

fn judge(number: u16) -> Request {
    Request::Judge {
        number,
        ticks: 4,
        places: 4,
        steps: 2,
    }
}

#[test]
fn every_number_is_judged(rt: HostRuntime) -> Result<(), Fail> {
    let mut requests = Vec::new(rt.alloc());
    for number in 1..=64 {
        requests.push(enter(number))?;
        requests.push(judge(number))?;
    }
    let Ok(table) = writing() else {
        return Err(Fail::new("the table is not accepted"));
    };
    let mut answers = vec![in rt.alloc(); Answer::Accepted; requests.len()]?;
    let session = replay(table, &requests, &mut answers);
    let broken = answers
        .iter()
        .filter(|answer| matches!(answer, Answer::Broken { .. }))
        .count();
    let sheet = session.close();
    assert_eq!(rt; broken, 64);
    assert_eq!(rt; sheet.settings(), 0);
    Ok(())
}
