// The points of each texture of a mesh list that was measured: one more walk over the heads of its submeshes, into a
// table of 256 sums.
ghost use Rattle.std.specs.Prelude.{◌≡◌, ◌<◌, ◌≤◌, [], ◌∷◌, length, take, slice_index};
ghost use Rattle.std.proofs.lemmas.List.Edits.{sets};
ghost use Rattle.bits.specs.Verdict.{accepted};
ghost use Rattle.payload.specs.Fill.{filled_says};
ghost use Rattle.payload.specs.Lent.{in_items, answer_for, buffers_after, at_entry};
ghost use Rattle.payload.specs.MeshRead.{read_meshes};
ghost use Rattle.payload.specs.Textures.{paired, list_textures, textures_found};
ghost use Rattle.payload.specs.Internal.{WasRead, mesh_read, meshes_from};
ghost use Rattle.payload.specs.InternalTextures.{weight, weights, list_weights, Tally, Addable, Added, PairRoom};
ghost use Rattle.payload.specs.InternalWalk.{submeshes_in};

use super::super::answers::Filled;
use super::head::mesh_head;
use super::measure::measure_meshes;
use super::meshes::{MeshWalk, ReadMesh};
use super::submeshes::SubmeshWalk;
use bits::FillError;

// The points of each texture, and the `count` textures in order of first appearance.
#[derive(Drop)]
struct Table {
    sums: [u32; 256],
    order: [u32; 256],
    count: usize,
}

impl Table {
    // Adds a submesh. It has a point or more, so that a texture without points has not appeared yet.
    fn add(&mut self, texture: u32, points: u32)
        requires { (texture < 256) × (1 ≤ points) × Addable (weight texture points ∷ []) self.old }
        ensures { Added (weight texture points ∷ []) self.old self.new }
    {
        let t = texture as usize;
        let sum = self.sums[t];
        self.sums[t] = sum + points;
        if sum == 0 {
            self.order[self.count] = texture;
            self.count += 1;
        }
    }

    fn add_submeshes(&mut self, submeshes: SubmeshWalk<'_>)
        requires { Addable (weights (submeshes_in submeshes)) self.old }
        ensures { Added (weights (submeshes_in submeshes.entry)) self.old self.new }
    {
        for submesh in submeshes {
            self.add(submesh.texture, submesh.run.count);
        }
    }

    // Adds the submeshes of a mesh that is known to be read whole.
    fn add_mesh(&mut self, mesh: ReadMesh<'_>)
        requires { Addable (list_weights (mesh_read mesh.s.now ∷ [])) self.old }
        ensures { Added (list_weights (mesh_read mesh.entry.s.now ∷ [])) self.old self.new }
    {
        let s = mesh.s;
        let submeshes = SubmeshWalk {
            s,
            rest: mesh_head(s).submeshes,
        };
        self.add_submeshes(submeshes);
    }

    // Adds to an empty table the meshes of a list that is known to be read whole.
    fn count_textures(&mut self, s: &[u8])
        requires { (length s.now ≤ 67108864) × WasRead (read_meshes s.now) × Tally [] self.old }
        ensures { Tally (list_weights (meshes_from s.now 0)) self.new }
    {
        for mesh in (MeshWalk { s, at: 0 }) {
            self.add_mesh(mesh);
        }
    }

    // Stores the textures in their order, each with its points.
    fn put(&self, out: &mut [u32])
        requires { PairRoom self.now (length out.old) }
        ensures { out.new ≡ sets out.old 0
            (paired (λ t. slice_index self.now.sums t) (take self.now.count self.now.order)) }
    {
        for (i, t) in self.order[..self.count].iter().enumerate() {
            out[2 * i] = *t;
            out[2 * i + 1] = self.sums[*t as usize];
        }
    }
}

// The textures of a list that is known to be read whole.
fn fill_textures(payload: &[u8], out: &mut [u32]) -> Filled
    requires { (length payload.now ≤ 67108864) × WasRead (read_meshes payload.now) }
    ensures answer { filled_says result
        ≡ answer_for (in_items 2 (accepted (list_textures (meshes_from payload.now 0))))
        (at_entry (out ∷ [])) }
    ensures buffers { out.new ∷ []
        ≡ buffers_after (in_items 2 (accepted (list_textures (meshes_from payload.now 0))))
        (at_entry (out ∷ [])) }
{
    let mut table = Table {
        sums: [0; 256],
        order: [0; 256],
        count: 0,
    };
    table.count_textures(payload);
    let n = table.count;
    if out.len() < 2 * n {
        return Err(FillError::Needs(2 * n));
    }
    table.put(out);
    Ok(n)
}

// Puts each texture that occurs in a mesh list and its points into out, two words each, in order of first appearance:
// 2, then 3, 6, 7, 8, 17 and 18 in payload order, then 12, or how many textures.
pub fn texture_points(payload: &[u8], out: &mut [u32]) -> Filled
    ensures answer { filled_says result
        ≡ answer_for (in_items 2 (textures_found payload.now)) (at_entry (out ∷ [])) }
    ensures buffers { out.new ∷ []
        ≡ buffers_after (in_items 2 (textures_found payload.now)) (at_entry (out ∷ [])) }
{
    measure_meshes(payload)?;
    fill_textures(payload, out)
}
