//! Long texts, at the bounds.
use crate::show;
use std::alloc::{AllocError, Global};
use std::io;

/// Contexts c1, c2 and so on.
fn contexts(alloc: Global, count: u16) -> Result<Vec<u8>, AllocError> {
    let mut text = Vec::new(alloc);
    for number in 1..=count {
        let line = format!(in alloc; "context c{number} 0 0\n")?;
        text.extend_from_slice(line.as_bytes())?;
    }
    Ok(text)
}

/// 33 contexts, and a vector for each of the first pairs, row by row.
fn pairs(alloc: Global, count: u16) -> Result<Vec<u8>, AllocError> {
    let mut text = contexts(alloc, 33)?;
    for pair in 0..count {
        let subject = pair / 33 + 1;
        let target = pair % 33 + 1;
        let line = format!(in alloc; "vector c{subject} c{target} read\n")?;
        text.extend_from_slice(line.as_bytes())?;
    }
    Ok(text)
}

/// A line over and over, behind others.
fn repeated(alloc: Global, front: &[u8], line: &[u8], count: u16) -> Result<Vec<u8>, AllocError> {
    let mut text = Vec::from_slice(alloc, front)?;
    for _ in 0..count {
        text.extend_from_slice(line)?;
    }
    Ok(text)
}

/// A text and another behind it.
fn followed(mut text: Vec<u8>, behind: &[u8]) -> Result<Vec<u8>, AllocError> {
    text.extend_from_slice(behind)?;
    Ok(text)
}

pub(crate) fn print(rt: &(impl Print + AllocGlobal)) -> io::Result<()> {
    print_lines(rt)?;
    print_texts(rt)?;
    print_counts(rt)
}

/// Lines of 1,024 and 1,025 bytes.
fn print_lines(rt: &(impl Print + AllocGlobal)) -> io::Result<()> {
    let line = repeated(rt.alloc(), b"context a 0 0\nconstrain", b" read", 203)?;
    let whole = followed(line, b"\n")?;
    show(rt, "a line of 1,024 bytes", whole.as_slice())?;
    let line = repeated(rt.alloc(), b"context a 0 0\nconstrain", b" read", 202)?;
    let longer = followed(line, b" write\n")?;
    show(rt, "a line of 1,025 bytes", longer.as_slice())
}

/// Texts of 65,536 and 65,537 bytes.
fn print_texts(rt: &(impl Print + AllocGlobal)) -> io::Result<()> {
    let front = b"context a 0 0\nvector a a update\n";
    let whole = repeated(rt.alloc(), front, b"vector a a read\n", 4094)?;
    show(rt, "a text of 65,536 bytes", whole.as_slice())?;
    let front = b"context a 0 0\nvector a a execute\n";
    let longer = repeated(rt.alloc(), front, b"vector a a read\n", 4094)?;
    show(rt, "a text of 65,537 bytes", longer.as_slice())
}

/// 256 contexts and 1,024 pairs, and one more of each.
fn print_counts(rt: &(impl Print + AllocGlobal)) -> io::Result<()> {
    let all = contexts(rt.alloc(), 256)?;
    show(rt, "256 contexts", all.as_slice())?;
    let more = contexts(rt.alloc(), 257)?;
    show(rt, "257 contexts", more.as_slice())?;
    let short = followed(all, b"context c257 0\n")?;
    show(rt, "a short 257th context", short.as_slice())?;
    let full = pairs(rt.alloc(), 1024)?;
    show(rt, "1,024 pairs", full.as_slice())?;
    let again = followed(full, b"vector c1 c2 write\n")?;
    show(rt, "1,024 pairs, one of them again", again.as_slice())?;
    let over = pairs(rt.alloc(), 1025)?;
    show(rt, "1,025 pairs", over.as_slice())
}
