// The walk over the list's lines, and the counts.
ghost use Rattle.std.specs.Prelude.{◌≡◌};
ghost use Rattle.replay.specs.Tally.{one_more, noted};

use crate::call_number::CALLS;
use crate::line::{Judgement, judge};
use crate::print::{print_counts, print_differs, print_total, print_unreadable};
use std::io;

// How many lines were the same, and how many were different.
#[derive(Clone, Copy, Default)]
pub struct Counts {
    pub same: u64,
    pub different: u64,
}

// The counts of the calls, by their numbers, and the number of lines that could not be read.
#[derive(Drop)]
struct Tally {
    calls: [Counts; CALLS],
    unreadable: u64,
}

// One more. A list has fewer than 2^64 lines.
fn count(n: &mut u64)
    ensures { n.new ≡ one_more n.old }
{
    *n = n.wrapping_add(1);
}

impl Tally {
    #[tactic(auto, unfolding(crate::specs::Tally::noted))]
    fn note(&mut self, judgement: Judgement)
        ensures { self.new ≡ noted judgement self.old }
    {
        match judgement {
            Judgement::Comment => {}
            Judgement::Unreadable => count(&mut self.unreadable),
            Judgement::Same(call) => count(&mut self.calls[call.value].same),
            Judgement::Different(call) => count(&mut self.calls[call.value].different),
        }
    }

    fn total(&self) -> Counts {
        let mut total = Counts {
            same: 0,
            different: self.unreadable,
        };
        for counts in &self.calls {
            total.same = total.same.wrapping_add(counts.same);
            total.different = total.different.wrapping_add(counts.different);
        }
        total
    }

    // A line for each call, one for the lines that could not be read, where there are any, and the total.
    fn print(&self, rt: &impl Print) -> io::Result<()> {
        for (call, counts) in self.calls.iter().enumerate().skip(1) {
            print_counts(rt, call, counts)?;
        }
        if self.unreadable != 0 {
            print_unreadable(rt, self.unreadable)?;
        }
        print_total(rt, &self.total())
    }
}

// Prints the number of a line that differs, where it is one of the first ten.
fn show(rt: &impl Print, line: usize, differing: u64) -> io::Result<()> {
    if 10 < differing {
        return Ok(());
    }
    print_differs(rt, line)
}

// Counts every line.
fn walk(rt: &impl Print, text: &[u8], tally: &mut Tally) -> io::Result<()> {
    let mut differing: u64 = 0;
    for (i, line) in text.split_inclusive(|b| *b == b'\n').enumerate() {
        let judgement = judge(line.strip_suffix(b"\n").unwrap_or(line));
        tally.note(judgement);
        if matches!(judgement, Judgement::Unreadable | Judgement::Different(_)) {
            count(&mut differing);
            show(rt, i.wrapping_add(1), differing)?;
        }
    }
    Ok(())
}

pub fn replay(rt: &impl Print, text: &[u8]) -> io::Result<()> {
    let mut tally = Tally {
        calls: [Counts::default(); CALLS],
        unreadable: 0,
    };
    walk(rt, text, &mut tally)?;
    tally.print(rt)
}
