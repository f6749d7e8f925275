// The vertices of a body that is known to be read whole: a run of five running numbers that take turns.
ghost use Rattle.std.specs.Prelude.{◌≡◌, ◌+◌, ◌*◌, ◌≤◌, length};
ghost use Rattle.std.proofs.lemmas.List.Edits.{sets};
ghost use Rattle.payload.specs.Internal.{VerticesThere, numbers_of, Pooled};

use bits::Run;

// Where a mesh's vertices stand: their coordinate numbers in `numbers` from `base` on, the words of these in the pool
// of the body `s`.
#[derive(Clone, Copy)]
pub(in crate::mesh) struct Vertices<'a> {
    pub s: &'a [u8],
    pub numbers: &'a [u16],
    pub base: usize,
    pub count: u16,
    ghost short: { length s.now ≤ 67108864 },
    ghost pooled: { Pooled s.now numbers.now base (5 * count) },
}

// Stores the vertices' coordinate numbers from place at on.
pub(in crate::mesh) fn fill_vertices(s: &[u8], run: Run, out: &mut [u16], at: usize)
    requires vertices_there { VerticesThere s.now run }
    requires count_in_bounds { at + 5 * run.count ≤ length out.old }
    ensures numbers { out.new ≡ sets out.old at (numbers_of s.now run) }
{
    let width = bits::bit_width(run.limit as u32);
    let end = at + 5 * (run.count as usize);
    bits::fill_fives(s, run.bit, width, &mut out[at..end]);
}
