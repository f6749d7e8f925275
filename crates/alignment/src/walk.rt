// The walk over the fields of a submesh's points: one step after the other, up to the farthest point that is asked.
ghost use Rattle.std.specs.Prelude.{◌≡◌, map, ◌*◌, ◌≤◌, ◌<◌, length};
ghost use Rattle.std.proofs.lemmas.List.Edits.{sets};
ghost use Rattle.bits.specs.Verdict.{accepted};
ghost use Rattle.bits.specs.Number.{ran_on};
ghost use Rattle.payload.specs.Internal.{WasRead};
ghost use Rattle.alignment.specs.LookUp.{farthest};
ghost use Rattle.alignment.specs.Walk.{step, walk_of};
ghost use Rattle.alignment.specs.Internal.{StepRoom, WalkRoom, number_after};
ghost use Rattle.alignment.specs.Internal.{Settled};

use super::questions::{Chains, chain_questions};
use bits::{BitCursor, Run};

// The bit place, the running number, and how many fields were taken.
#[derive(Clone, Copy)]
pub(crate) struct Walk {
    pub bit: usize,
    pub number: u16,
    pub taken: u32,
}

// Where a field takes the running number: it is known to stay below the limit.
fn next_number(last: u16, field: u32, limit: u16) -> u16
    requires { WasRead (ran_on limit last field) }
    ensures { accepted result ≡ ran_on limit last field }
{
    match bits::run_on(last as u32, field, limit as u32) {
        Ok(next) => next as u16,
        // never
        Err(_) => last,
    }
}

// One step: it reads one field.
fn take_field(s: &[u8], width: u32, limit: u16, v: Walk) -> Walk
    requires { StepRoom s.now width limit v }
    ensures { accepted result ≡ step s.now width limit v }
{
    let here = BitCursor { bit: v.bit };
    match here.read(s, width) {
        Ok((field, after)) => Walk {
            bit: after.bit,
            number: next_number(v.number, field, limit),
            taken: v.taken + 1,
        },
        // never: it is there, and no wider than 32 bits
        Err(_) => v,
    }
}

// After a step: where it reached the point at which to look for questions next, answers those that ask for it, and
// returns the point after it at which to look.
fn settle(chains: &Chains<'_>, v: Walk, next: u32, out: &mut [u16]) -> u32
    requires { (v.taken < 1024 * chains.now.width) × (length chains.now.asked.now ≤ length out.old) }
    ensures { Settled chains.now.asked.now v next out.old result out.new }
{
    if v.taken <= next {
        return next;
    }
    chains.answer_point(next, v.number, out)
}

// Walks a run, up to the farthest asked point, and stores the vertex numbers of all that are asked on the way. Returns
// the last state.
fn walk_chained(s: &[u8], run: Run, chains: &Chains<'_>, out: &mut [u16]) -> Walk
    requires { WalkRoom s.now run × (run.count ≡ farthest chains.now.asked.now)
        × (run.count < 1024 * chains.now.width) × (length chains.now.asked.now ≤ length out.old) }
    ensures state { accepted result ≡ walk_of s.now run (farthest chains.now.asked.now) }
    ensures numbers { out.new
        ≡ sets out.old 0 (map (number_after s.now run) chains.now.asked.now) }
{
    let width = bits::bit_width(run.limit as u32);
    let mut v = Walk {
        bit: run.bit,
        number: 0,
        taken: 0,
    };
    let mut next: u32 = 0;
    for _ in 0..run.count {
        v = take_field(s, width, run.limit, v);
        next = settle(chains, v, next, out);
    }
    v
}

// The same, with the questions chained first: each field is walked once, and a question is looked at only on the way
// through its own stretch.
pub(crate) fn walk_asked(s: &[u8], run: Run, asked: &[u32], out: &mut [u16]) -> Walk
    requires { WalkRoom s.now run × (run.count ≡ farthest asked.now) × (length asked.now ≤ 256)
        × (length asked.now ≤ length out.old) }
    ensures state { accepted result ≡ walk_of s.now run (farthest asked.now) }
    ensures numbers { out.new
        ≡ sets out.old 0 (map (number_after s.now run) asked.now) }
{
    let stretch = run.count / 1024 + 1;
    let mut lasts = [0u16; 1024];
    let mut earlier = [0u16; 256];
    chain_questions(asked, stretch, &mut lasts, &mut earlier);
    let chains = Chains {
        asked,
        width: stretch,
        lasts: &lasts,
        earlier: &earlier,
    };
    walk_chained(s, run, &chains, out)
}
