//! The worked cases of the controller: each is run, and what was done and what came out is printed.
use crate::{full_table, reports, texts};
use std::alloc::Global;
use std::io;

/// Prints the cases whose policy is written as a text.
fn show_texts(rt: &impl Print, alloc: Global) -> io::Result<()> {
    println!(rt; "The properties of the sample controller:")?;
    reports::show(rt, alloc, &texts::SAMPLE)?;
    println!(rt; "Property 1 without the grant:")?;
    reports::show(rt, alloc, &texts::WITHOUT_GRANT)?;
    println!(rt; "Property 1 with the opening at level 1:")?;
    reports::show(rt, alloc, &texts::RAISED)?;
    println!(rt; "A way around by transitions, none of which may follow the writing:")?;
    reports::show(rt, alloc, &[texts::DETOUR])?;
    println!(rt; "An empty text:")?;
    reports::show(rt, alloc, &[])
}

/// Prints the cases that are lists of requests.
fn show_requests(rt: &impl Print, alloc: Global) -> io::Result<()> {
    println!(rt; "A property of a context against itself:")?;
    full_table::show(rt, alloc, Vec::new(alloc), &full_table::against_itself())?;
    println!(rt; "A new pair on a full table, by which each of 1 to 32 may read each:")?;
    full_table::show(rt, alloc, full_table::fill(alloc)?, &full_table::new_pair())?;
    println!(rt; "A change on the same full table:")?;
    full_table::show(
        rt,
        alloc,
        full_table::fill(alloc)?,
        &full_table::withdrawn(),
    )
}

pub(crate) fn show(rt: &impl Print, alloc: Global) -> io::Result<()> {
    show_texts(rt, alloc)?;
    show_requests(rt, alloc)
}
