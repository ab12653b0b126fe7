//! How is `explain` run from the command line?
//!
//! It hands words, files, output and the standard operations to `wb_explain`, and ends with the number of the status that this answers.
#![tactic(auto)]

use std::process::ExitCode;
use std::rt::Env;
use std::{env, io};
use wb_explain::{Status, explain, picture, take_picture};
use wb_operations::standard_table;
use wb_world::{FileShelf, OutputSink};

fn main(rt: HostRuntime) -> ExitCode {
    ExitCode::from(run(rt).number())
}

// A word that isn't UTF-8 is no word of a command, so that the words are then none.
fn run(rt: HostRuntime) -> Status {
    let alloc = rt.alloc();
    let mut words = match words_of(&rt) {
        Ok(words) => words,
        Err(error) if error.kind() == io::ErrorKind::OutOfMemory => return Status::NoMemory,
        Err(_) => Vec::new(alloc),
    };
    let Ok(draws) = take_picture(alloc, &mut words) else {
        return Status::NoMemory;
    };
    let Ok(operations) = standard_table(alloc) else {
        return Status::NoMemory;
    };
    let mut shelf = FileShelf::new(alloc, rt);
    let mut sink = OutputSink::new(rt);
    if draws {
        return picture(alloc, &words, &mut shelf, &mut sink, &operations);
    }
    explain(alloc, &words, &mut shelf, &mut sink, &operations)
}

// The words of the command line, without the program's name.
fn words_of<R: Env + AllocGlobal>(rt: &R) -> io::Result<Vec<String>> {
    Ok(env::args(rt)?.skip(1).collect(rt.alloc())?)
}
