//! `tml`: answers questions about TimeML documents.
#![tactic(auto)]

use runs::run_program;
use std::process::ExitCode;
use tml_tool::run;

fn main(rt: HostRuntime) -> ExitCode {
    run_program(
        &rt,
        |words, inputs, sink| run(rt.alloc(), words, inputs, sink),
    )
}
