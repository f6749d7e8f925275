// Lists the submeshes of a mesh list (kind 2), which comes as raw bytes on standard input: a heading, the five words
// of each submesh's record, each texture with its points, and the totals, or only the number of the refusal. Started
// with an argument, it says how it is used and reads nothing, since whoever names a file would wait for an input that
// never comes.
#![tactic(auto)]

mod input;
mod listing;
mod print;

use std::env::{Env, FillError};
use std::error::Error;
use std::{fmt, io};

// What failed, and why.
#[derive(Clone, Copy, Debug)]
enum ListError {
    Read(io::Error),
    Write(io::Error),
}

impl fmt::Display for ListError {
    fn fmt<W: fmt::Write>(&self, f: &mut fmt::Formatter<W>) -> fmt::Result {
        match self {
            ListError::Read(error) => write!(f, "read: {error}"),
            ListError::Write(error) => write!(f, "write: {error}"),
        }
    }
}

impl Error for ListError {}

fn list_input(rt: &HostRuntime) -> Result<(), ListError> {
    // one byte more than a payload may have
    let mut bytes = [0u8; 16385];
    let n = input::read_input(&mut rt.stdin(), &mut bytes).map_err(ListError::Read)?;
    listing::list(rt, &bytes[..n]).map_err(ListError::Write)
}

fn main(rt: HostRuntime) -> io::Result<()> {
    // the program's own name is the first
    match rt.arg(1, &mut [0u8; 1]) {
        Err(FillError::NotPresent) => { list_input(&rt).or_else(|error| eprintln!(rt; "{error}")) }
        _ => print::print_use(&rt),
    }
}
