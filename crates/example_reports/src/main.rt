//! Judges the examples, and tells whether each report is the one that is kept beside its text.

#![tactic(auto)]

use report::job::judge_text;
use std::rt::Files;
use std::{fs, io};

/// Judges one example.
fn show(rt: &(impl Print + Files + AllocGlobal), name: &str) -> io::Result<()> {
    let alloc = rt.alloc();
    let text = fs::read(rt, format!(in alloc; "{name}.policy")?.as_str())?;
    let kept = fs::read(rt, format!(in alloc; "{name}.report")?.as_str())?;
    let mut written = Vec::new(alloc);
    judge_text(&text, &mut written)?;
    let is = if written == kept {
        "as kept"
    } else {
        "ANOTHER"
    };
    println!(rt; "{name}: the report is {is}, {} bytes", written.len())
}

fn main(rt: HostRuntime) -> io::Result<()> {
    for name in ["maintenance", "levels", "owners", "arcade"] {
        show(&rt, name)?;
    }
    Ok(())
}
