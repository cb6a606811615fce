//! The report of a wrong answer.
use crate::answer::WrittenAnswer;
use crate::command::Command;
use anyhow::Result;
use std::alloc::{AllocError, Global};
use std::io;
use std::io::Write;

/// Prints a command with what is wanted and what was answered, as a table has them.
pub fn report(
    rt: &impl Print,
    alloc: Global,
    command: &Command,
    wanted: &[u8],
    status: u8,
    answer: &WrittenAnswer,
) -> Result<()> {
    let number = command.number;
    let line = command.line.as_str();
    println!(rt; "line {number}, $ tml{line}")?;
    println!(rt; "wanted")?;
    print_answer(rt, alloc, wanted, status)?;
    println!(rt; "answered")?;
    print_answer(rt, alloc, answer.text.as_slice(), answer.status.number())
}

fn print_answer(rt: &impl Print, alloc: Global, text: &[u8], status: u8) -> Result<()> {
    let lines = shown(alloc, text)?;
    io::writer(rt).write_all(lines.as_slice())?;
    println!(rt; "[{status}]")?;
    Ok(())
}

/// The lines of a text, each after a `|`; where the last has no line feed, it ends with `\`.
fn shown(alloc: Global, text: &[u8]) -> Result<Vec<u8>, AllocError> {
    let mut lines = Vec::new(alloc);
    for line in text.split_inclusive(|byte| *byte == b'\n') {
        lines.push(b'|')?;
        lines.extend_from_slice(line)?;
    }
    if !text.is_empty() && !text.ends_with(b"\n") {
        lines.extend_from_slice(b"\\\n")?;
    }
    Ok(lines)
}
