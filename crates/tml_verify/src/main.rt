//! `tml-verify`: checks evidence of a TimeML document, or a placing or a cycle of it. No search for what it checks stands
//! below this program.
#![tactic(auto)]

mod either;
mod laws;
mod top;

use runs::run_program;
use std::process::ExitCode;
use top::run;

fn main(rt: HostRuntime) -> ExitCode {
    run_program(
        &rt,
        |words, inputs, sink| run(rt.alloc(), words, inputs, sink),
    )
}
