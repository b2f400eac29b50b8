//! Policy texts with their faults: prints what reading each of them gives.

#![tactic(auto)]

mod long;
mod short;

use policy_text::read::read;
use std::io;

/// Prints what reading a text gives.
pub(crate) fn show(rt: &impl Print, about: &str, text: &[u8]) -> io::Result<()> {
    match read(text) {
        Ok(controller) => {
            let contexts = controller.names.count();
            let settings = controller.sheet.settings();
            let operations = controller.sheet.written(1, 2).bits;
            println!(rt;
                "{about}: {contexts} contexts, {settings} settings, the first on the second {operations}"
            )
        }
        Err(fault) => println!(rt; "{about}: {fault}"),
    }
}

fn main(rt: HostRuntime) -> io::Result<()> {
    short::print(&rt)?;
    long::print(&rt)
}
