//! Judges the controller that a policy text on standard input describes, and prints its report, or the fault of the text.

#![tactic(auto)]

use policy_text::read::MOST_BYTES;
use report::job::judge_text;
use std::io;
use std::io::Read;
use std::process::ExitCode;

fn main(rt: HostRuntime) -> io::Result<ExitCode> {
    // One byte more than a text may have tells that it is too long.
    let mut text = Vec::new(rt.alloc());
    rt.reader()
        .take(MOST_BYTES as u64 + 1)
        .read_to_end(&mut text)?;
    let reported = judge_text(&text, &mut io::writer(&rt))?;
    Ok(if reported {
        ExitCode::SUCCESS
    } else {
        ExitCode::from(1)
    })
}
