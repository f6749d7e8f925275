// Replays stored answers: makes each call of the list on standard input again, on lent items that hold bytes a5, and
// counts for each call how many of the answers are the stored ones. A line of the list is CALL COUNT ARG.. xDATA CODE
// SUM NAME, or a comment that begins with #.
#![tactic(auto)]

mod call_number;
mod calls;
mod item;
mod line;
mod print;
mod sum;
mod tally;
mod text;

ghost use Rattle.std.specs.Prelude.{◌≤◌, IfOk, length};

use std::io::Read;
use std::{fmt, io};

// What failed.
#[derive(Drop)]
enum Failure {
    Read(io::Error),
    Write(io::Error),
}

impl fmt::Display for Failure {
    fn fmt<W: fmt::Write>(&self, f: &mut fmt::Formatter<W>) -> fmt::Result {
        match self {
            Failure::Read(error) => write!(f, "read: {error}"),
            Failure::Write(error) => write!(f, "write: {error}"),
        }
    }
}

// Reads until the input ends or the list is full, and answers what was read.
fn read_list<'a>(reader: &mut impl Read, list: &'a mut [u8]) -> io::Result<&'a [u8]>
    ensures { IfOk result (λ read. length read.now ≤ length list.old) }
{
    let mut n = 0;
    // no index is counted here: a turn goes on after what was read
    while n < list.len() {
        match reader.read(&mut list[n..])? {
            0 => break,
            k => n += k,
        }
    }
    Ok(&list[..n])
}

// Whether the input goes on.
fn has_more(reader: &mut impl Read) -> io::Result<bool> {
    let mut more = [0u8; 1];
    Ok(0 < reader.read(&mut more)?)
}

// Room for a list, made apart so that a proof of its caller sees a list of 1,048,576 bytes and not so many zeros.
fn room() -> [u8; 1048576] {
    [0; 1048576]
}

fn replay_input(rt: &HostRuntime) -> Result<(), Failure> {
    let mut room = room();
    let mut stdin = rt.stdin();
    let list = read_list(&mut stdin, &mut room).map_err(Failure::Read)?;
    if has_more(&mut stdin).map_err(Failure::Read)? {
        return print::print_too_long(rt).map_err(Failure::Write);
    }
    tally::replay(rt, list).map_err(Failure::Write)
}

fn main(rt: HostRuntime) -> io::Result<()> {
    match replay_input(&rt) {
        Ok(()) => Ok(()),
        Err(failure) => eprintln!(&rt; "{failure}"),
    }
}
