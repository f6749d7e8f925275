// A walk over the submeshes of a body that is known to be read whole: nothing is tested again.
ghost use Rattle.std.specs.Iterator.{at_most};
ghost use Rattle.payload.specs.Internal.{SubmeshesThere, there-prop};

use super::fields::one_field;
use bits::Run;

// Some submeshes: where the first one stands, among how many vertices their points are, and how many there are.
#[derive(Clone, Copy)]
pub(in crate::mesh) struct Submeshes {
    pub bit: usize,
    pub vertices: u16,
    pub left: u32,
}

// A submesh that was taken: its texture and mode, and the run of its points.
#[derive(Clone, Copy)]
pub(in crate::mesh) struct TakenSubmesh {
    pub texture: u32,
    pub mode: u32,
    pub run: Run,
}

// The submeshes of a body that are left: each turn takes the first of them.
#[derive(Clone, Copy)]
pub(in crate::mesh) struct SubmeshWalk<'a> {
    pub s: &'a [u8],
    pub rest: Submeshes,
    ghost there: { SubmeshesThere s.now rest } by { there-prop s.now rest },
}

impl<'a> Iterator for SubmeshWalk<'a> {
    type Item = TakenSubmesh;

    ghost use Rattle.payload.specs.InternalWalk.{WalkGives};

    ghost next_gives = { WalkGives };

    ghost remaining = { λ w. at_most w.rest.left };

    // Within its callers, so that what is left is not kept in memory from turn to turn: that is faster.
    #[inline(always)]
    fn next(&mut self) -> Option<TakenSubmesh> {
        let s = self.s;
        let all = self.rest;
        if all.left == 0 {
            return None;
        }
        let bit = all.bit;
        let limit = all.vertices;
        let count = one_field(s, bit + 16, 32);
        let width = bits::bit_width(limit as u32) as usize;
        let submesh = TakenSubmesh {
            texture: one_field(s, bit, 8),
            mode: one_field(s, bit + 8, 8),
            run: Run {
                bit: bit + 48,
                limit,
                count,
            },
        };
        self.rest = Submeshes {
            bit: bit + 48 + (count as usize) * width,
            vertices: limit,
            left: all.left - 1,
        };
        Some(submesh)
    }
}
