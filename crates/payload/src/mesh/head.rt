// The head of a mesh body that is known to be read whole: where its vertices and its submeshes stand.
ghost use Rattle.std.specs.Prelude.{◌≡◌, ◌+◌, ◌*◌, ◌≤◌, length};
ghost use Rattle.bits.specs.Number.{width_of};
ghost use Rattle.payload.specs.MeshSpells.{aligned, vertices_at};
ghost use Rattle.payload.specs.MeshRead.{read_mesh};
ghost use Rattle.payload.specs.Internal.{WasRead, HeadOf};

use super::fields::{one_field, word};
use super::submeshes::Submeshes;
use bits::Run;

// The run of its vertices, whose limit is the pool's length, and its submeshes.
#[derive(Clone, Copy)]
pub(in crate::mesh) struct Head {
    pub vertices: Run,
    pub submeshes: Submeshes,
}

// How many bits a run of `count` numbers takes, each coded as wide as those up to `limit` are.
pub(in crate::mesh) fn run_bits(count: usize, limit: usize) -> usize
    requires { (count ≤ 536870912) × (limit ≤ 32000) }
    ensures bits { result ≡ count * width_of limit }
    ensures most { result ≤ 16 * count }
{
    count * (bits::bit_width(limit as u32) as usize)
}

// Where the submesh count stands in a body of n words and v coordinate numbers: at the next byte boundary.
pub(in crate::mesh) fn submeshes_at(n: usize, v: usize) -> usize
    requires { (n ≤ 10000) × (v ≤ 200000) }
    ensures place { result ≡ aligned (vertices_at n + v * width_of n) }
    ensures most { result ≤ 4000000 }
{
    let end = 32 * n + 64 + run_bits(v, n);
    (end + 7) / 8 * 8
}

pub(in crate::mesh) fn mesh_head(s: &[u8]) -> Head
    requires { (length s.now ≤ 67108864) × WasRead (read_mesh s.now) }
    ensures { HeadOf s.now result }
{
    let n = word(s, 0);
    let m = word(s, 4 * (n as usize) + 4);
    let place = submeshes_at(n as usize, 5 * (m as usize));
    Head {
        vertices: Run {
            bit: 32 * (n as usize) + 64,
            limit: n as u16,
            count: m,
        },
        submeshes: Submeshes {
            bit: place + 32,
            vertices: m as u16,
            left: one_field(s, place, 32),
        },
    }
}
