// The meshes of a list that is known to be read whole, one after the other: nothing is tested again.
ghost use Rattle.std.specs.Prelude.{◌≤◌, ◌-◌, length};
ghost use Rattle.std.specs.Iterator.{at_most};
ghost use Rattle.payload.specs.MeshRead.{read_mesh};
ghost use Rattle.payload.specs.Internal.{WasRead, was_read-prop, any_from};

use super::places::{MeshBody, next_mesh};

// A mesh body that is known to be read whole, and where it begins and ends in its list.
#[derive(Clone, Copy)]
pub(in crate::mesh) struct ReadMesh<'a> {
    pub s: &'a [u8],
    pub body: usize,
    pub end: usize,
    ghost short: { length s.now ≤ 67108864 },
    ghost read: { WasRead (read_mesh s.now) } by { was_read-prop (read_mesh s.now) },
}

// The meshes of a list that are left, from a byte on: each turn takes the first of them.
#[derive(Clone, Copy)]
pub(in crate::mesh) struct MeshWalk<'a> {
    pub s: &'a [u8],
    pub at: usize,
    ghost short: { length s.now ≤ 67108864 },
    ghost read: { WasRead (any_from s.now at) } by { was_read-prop (any_from s.now at) },
}

impl<'a> Iterator for MeshWalk<'a> {
    type Item = ReadMesh<'a>;

    ghost use Rattle.payload.specs.InternalMeshes.{MeshGives};

    ghost next_gives = { MeshGives };

    ghost remaining = { λ w. at_most (length w.s.now - w.at) };

    fn next(&mut self) -> Option<ReadMesh<'a>> {
        let MeshBody { body, end } = next_mesh(self.s, self.at)?;
        self.at = end;
        Some(ReadMesh {
            s: &self.s[body..end],
            body,
            end,
        })
    }
}
