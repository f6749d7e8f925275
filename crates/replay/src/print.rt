// Lines of text on standard output. Each function fails where not all of it was written.
use crate::tally::Counts;
use std::{fmt, io};

impl fmt::Display for Counts {
    fn fmt<W: fmt::Write>(&self, f: &mut fmt::Formatter<W>) -> fmt::Result {
        write!(f, "{} {}", self.same, self.different)
    }
}

pub fn print_too_long(rt: &impl Print) -> io::Result<()> {
    println!(rt; "the list is longer than 1048576 bytes")
}

pub fn print_differs(rt: &impl Print, line: usize) -> io::Result<()> {
    println!(rt; "line {line} differs")
}

pub fn print_counts(rt: &impl Print, call: usize, counts: &Counts) -> io::Result<()> {
    println!(rt; "{call:02x} {counts}")
}

// Lines that could not be read are counted as different, under the number that no call has.
pub fn print_unreadable(rt: &impl Print, lines: u64) -> io::Result<()> {
    println!(rt; "00 0 {lines}")
}

pub fn print_total(rt: &impl Print, total: &Counts) -> io::Result<()> {
    println!(rt; "total {total}")
}
