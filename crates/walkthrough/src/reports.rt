//! A policy text is read, and what is said of its properties is printed.
use crate::NO_STEP;
use policy_text::controller::Controller;
use policy_text::pile::Pile;
use policy_text::read::read;
use report::part::REPORT_MEMORY;
use report::reporting::{next_property, report_property};
use search::breadth_first::Place;
use sheet::judging::Judging;
use std::alloc::{AllocError, Global};
use std::io;
use words::names::Names;

/// How many properties a sheet has at most.
const MOST_PROPERTIES: u16 = 64;

fn join(alloc: Global, parts: &[&str]) -> Result<String, AllocError> {
    let mut text = String::new(alloc);
    for part in parts {
        text.push_str(part)?;
    }
    Ok(text)
}

fn print_lines(rt: &impl Print, text: &str) -> io::Result<()> {
    for line in text.lines() {
        println!(rt; "    {line}")?;
    }
    Ok(())
}

/// The first bytes of memory as text, or nothing where they are none.
fn front(memory: &[u8], count: usize) -> &str {
    memory
        .get(..count)
        .and_then(|bytes| str::from_utf8(bytes).ok())
        .unwrap_or("")
}

/// Prints what is said of a property. The working memory suffices for five contexts.
fn print_part(
    rt: &impl Print,
    judging: &Judging<'_, Pile>,
    names: &Names,
    number: u16,
    memory: &mut [u8],
) -> io::Result<()> {
    let mut ticks = [0; 10];
    let mut places = [Place::default(); 10];
    let mut steps = [NO_STEP; 5];
    let told = report_property(
        judging,
        names,
        number,
        &mut ticks,
        &mut places,
        &mut steps,
        memory,
    );
    match told {
        Ok(count) => print_lines(rt, front(memory, count)),
        Err(why) => println!(rt; "    refused, number {}: {why}", u8::from(why)),
    }
}

/// Prints what is said of each property that stands, by rising number.
fn print_report(rt: &impl Print, alloc: Global, controller: &Controller) -> io::Result<()> {
    let mut memory = vec![in alloc; 0u8; REPORT_MEMORY]?;
    let judging = Judging::of(&controller.sheet);
    let mut last = 0;
    for _ in 0..MOST_PROPERTIES {
        let Some(number) = next_property(&judging, last) else {
            return Ok(());
        };
        print_part(rt, &judging, &controller.names, number, &mut memory)?;
        last = number;
    }
    Ok(())
}

/// Reads a text of these parts, and prints it and the report on its properties, or its fault.
pub(crate) fn show(rt: &impl Print, alloc: Global, parts: &[&str]) -> io::Result<()> {
    let text = join(alloc, parts)?;
    println!(rt; "  text:")?;
    print_lines(rt, &text)?;
    println!(rt; "  answer:")?;
    match read(text.as_bytes()) {
        Ok(controller) => print_report(rt, alloc, &controller),
        Err(fault) => println!(rt; "    {fault}"),
    }
}
