//! A program over real files: its words, and its exit status.
ghost use Rattle.std.specs.Prelude.{◌≡◌, drop};

use crate::status::Status;
use std::env;
use std::io::ErrorKind;
use std::process::ExitCode;
use tml_io::{FileInputs, StdSink};

/// What a program does with its words, real files, standard input and standard output. The answer is its exit status.
pub fn run_program<R: Fn(&[String], &mut FileInputs<'_>, &mut StdSink<'_>) -> Status>(
    rt: &HostRuntime,
    run: R,
) -> ExitCode
    requires { R.IsAlwaysCallable run }
{
    let mut inputs = FileInputs::new(rt);
    let mut sink = StdSink::new(rt);
    let status = match env::args(rt) {
        Ok(line) => match line.collect::<Vec<String>>(rt.alloc()) {
            Ok(line) => run(words(line.as_slice()), &mut inputs, &mut sink),
            Err(_) => Status::NoMemory,
        },
        Err(error) if error.kind() == ErrorKind::OutOfMemory => Status::NoMemory,
        // Words of which one is not UTF-8 have no form, as the empty one has none.
        Err(_) => run(&[String::new(rt.alloc())], &mut inputs, &mut sink),
    };
    ExitCode::from(status.number())
}

/// The words after the program's own name, which is the first one of the command line.
fn words(line: &[String]) -> &[String]
    ensures { result.now ≡ drop 1 line.now }
{
    match line {
        [_, words @ ..] => words,
        [] => &[],
    }
}
