//! `library_rows`: makes the public calls that no command of `tml` makes, line by line as a script says, and prints what
//! they answer.
#![tactic(auto)]

mod dates;
mod intervals;
mod markup;
mod nets;
mod orders;
mod page;
mod possible;
mod readers;
mod script;
mod shapes;
mod tags;
mod texts;
mod values;
mod verdicts;
mod walking;
mod words;

use script::Script;
use std::io;
use std::io::Write;

fn main(rt: HostRuntime) -> io::Result<()> {
    let text = io::read_to_string(rt.alloc(), rt.reader())?;
    let mut script = Script::new(rt.alloc());
    follow(&rt, &mut script, text.as_str());
    io::writer(&rt).write_all(script.page.whole()?)
}

fn follow(rt: &HostRuntime, script: &mut Script, text: &str) {
    for line in text.lines() {
        script.take(rt, line);
    }
}
