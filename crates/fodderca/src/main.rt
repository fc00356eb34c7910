//! The program: it reads a description and a script from standard input, and writes what comes of them
//! to standard output.
#![tactic(auto)]

use hx_app::start;
use hx_io::{StdSink, StdSource};
use std::process::ExitCode;
use std::{env, io};

fn main(rt: HostRuntime) -> ExitCode {
    let words = env::args(&rt).and_then(|args| Ok(args.collect(rt.alloc())?));
    let mut source = StdSource::new(rt.reader());
    let mut sink = StdSink::new(io::writer(&rt));
    let status = start(&rt, rt.alloc(), words, &mut source, &mut sink);
    ExitCode::from(status.0)
}
