//! Requests that have names are served on a sheet, and what they are answered is printed.
use crate::print_step;
use access::operation::Operation;
use access::operation_set::OperationSet;
use policy_text::pile::Pile;
use replay::answer::Answer;
use replay::replay::replay;
use sheet::request::Request;
use std::alloc::Global;
use std::io;

/// A request, and how it is called in print.
pub(crate) type Named = (&'static str, Request);

pub(crate) fn set(subject: u16, target: u16, operations: OperationSet) -> Request {
    Request::Set {
        subject,
        target,
        operations,
    }
}

fn print_operations(rt: &impl Print, set: OperationSet) -> io::Result<()> {
    if set.is_empty() {
        return println!(rt; " nothing");
    }
    for operation in (0..12).filter_map(|number| Operation::try_from(number).ok()) {
        if set.has(operation) {
            print!(rt; " {operation}")?;
        }
    }
    println!(rt; "")
}

fn print_answer(rt: &impl Print, answer: &Answer) -> io::Result<()> {
    match answer {
        Answer::Accepted => println!(rt; " accepted"),
        Answer::Refused(why) => println!(rt; " refused, number {}: {why}", u8::from(*why)),
        Answer::Guaranteed => println!(rt; " guaranteed"),
        Answer::Broken(shown) => {
            println!(rt; " broken, in {} steps", shown.all().len())?;
            for step in shown.all() {
                print_step(rt, *step)?;
            }
            Ok(())
        }
        Answer::Number(number) => println!(rt; " {number}"),
        Answer::Operations(set) => print_operations(rt, *set),
    }
}

fn print_answers(rt: &impl Print, named: &[Named], answers: &[Answer]) -> io::Result<()> {
    for (named, answer) in named.iter().zip(answers) {
        print!(rt; "  {}:", named.0)?;
        print_answer(rt, answer)?;
    }
    Ok(())
}

/// Serves requests and then those that have a name, on a sheet over a policy, and prints what the latter are answered.
pub(crate) fn show(
    rt: &impl Print,
    alloc: Global,
    policy: Pile,
    mut requests: Vec<Request>,
    named: &[Named],
) -> io::Result<()> {
    let unnamed = requests.len();
    for (_, request) in named {
        requests.push(*request)?;
    }
    let mut answers = vec![in alloc; Answer::Accepted; requests.len()]?;
    let session = replay(policy, &requests, &mut answers);
    let printed = print_answers(rt, named, answers.get(unnamed..).unwrap_or(&[]));
    let _ = session.close();
    printed
}
