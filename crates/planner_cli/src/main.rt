//! The program: it reads the words of the command line and the files that they name, and writes one answer. The top call is `run`.
#![tactic(auto)]

mod command;
mod run;

use crate::run::run;
use command_base::Status;
use file_access::{FileSource, StdoutSink};
use std::process::ExitCode;
use std::rt::Env;
use std::{env, io};

/// The words after the program's name, and a text with room for the longest of them; or how a run without these ends.
fn words_of<R: Env + AllocGlobal>(rt: &R) -> Result<(Vec<String>, String), Status> {
    let args = match env::args(rt) {
        Ok(args) => args,
        Err(e) if e.kind() == io::ErrorKind::OutOfMemory => return Err(Status::Memory),
        Err(_) => return Err(Status::Usage),
    };
    let mut words = Vec::new(rt.alloc());
    let mut longest = 0;
    for word in args.skip(1) {
        longest = word.len().max(longest);
        if words.push(word).is_err() {
            return Err(Status::Memory);
        }
    }
    match String::with_capacity(rt.alloc(), longest) {
        Ok(name) => Ok((words, name)),
        Err(_) => Err(Status::Memory),
    }
}

fn main(rt: HostRuntime) -> ExitCode {
    let status = match words_of(&rt) {
        Ok((words, name)) => {
            let mut source = FileSource::make(&rt, name);
            let mut sink = StdoutSink::make(&rt);
            run(rt.alloc(), &words, &mut source, &mut sink)
        }
        Err(status) => status,
    };
    ExitCode::from(status.code())
}
