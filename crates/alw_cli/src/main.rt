//! The simulator's program: it carries out one command on what it reads on standard input, a source, an image, a
//! trace, a claim or a checkpoint, or makes a workload, and writes the image or text on standard output.
#![tactic(auto)]

mod commands;
mod streams;
mod top;

use alw_io::{StdSink, StdSource};
use alw_work::OpenGate;
use std::alloc::Global;
use std::env;
use std::process::ExitCode;
use std::rt::Env;
use top::{alewife, alewife_by_workers};

// The status where the runtime can't give the program its words.
const NO_WORDS: u8 = 10;

// The program's words, without its name.
fn words_of(rt: &(impl Env + AllocGlobal)) -> Option<Vec<String>> {
    env::args(rt).ok()?.skip(1).collect(rt.alloc()).ok()
}

fn main(rt: HostRuntime) -> ExitCode {
    let alloc: Global = rt.alloc();
    let Some(words) = words_of(&rt) else {
        return ExitCode::from(NO_WORDS);
    };
    let mut input = StdSource::new(rt.stdin());
    let mut out = StdSink::new(rt.stdout());
    let mut err = StdSink::new(rt.stderr());
    let done = match alewife(alloc, &words, &mut input, &mut out, &mut err) {
        Ok(done) => done,
        Err(work) => alewife_by_workers(
            &rt, alloc, &work, &mut input, &mut out, &mut err, &OpenGate,
        ),
    };
    ExitCode::from(done.status)
}
