// Payloads and their drawings: crops, readers, writers, index makers, cube maps, counts and the viewer's small calls.
// What each call answers, and what it leaves in a lent buffer, is an equation with a definition of specs/.
#![tactic(auto)]

ghost use Rattle.std.specs.Prelude.{◌≡◌, ◌+◌, ◌≤◌, ℕ, List, length};
ghost use Rattle.std.proofs.lemmas.List.Edits.{sets};
ghost use Rattle.payload.specs.Fill.{each};
ghost use Rattle.payload.specs.Float.{ratio};
ghost use Rattle.payload.specs.InternalFill.{MayPut, Puts};

mod answers;
mod cbmp;
mod counts;
mod crop;
mod cube;
mod equi;
mod full_box;
mod grid;
mod mesh;
mod sphere;
mod view;
mod words;

pub use answers::{Filled, GridLengths};
pub use cbmp::{parse_cbmp, write_cbmp};
pub use counts::{cubemap_index_count, cubemap_vertex_count, index_count, vertex_count};
pub use crop::Bounds;
pub use cube::{cubemap_indices, cubemap_lengths, cubemap_mesh, padding_share};
pub use equi::{EquiFields, parse_equi, write_equi};
pub use mesh::{
    CoordinateNumber, DrawingLengths, ListCounts, MeshListSize, PointFields, Record, TableLengths,
    VertexNumber, find_submesh, measure_mesh, measure_meshes, mesh_records, parse_mesh,
    parse_meshes, texture_points, write_mesh,
};
pub use sphere::{sphere_indices, sphere_indices_bounded, sphere_lengths, sphere_uvs};
pub use view::{
    AnaglyphPair, ChannelMix, DEFAULT_FOV_DEG, Eye, MAX_FOV_DEG, MIN_FOV_DEG, Projection,
    StereoLayout, UvWindow, anaglyph_mix, fov_for_zoom, uv_window, zoom_for_fov,
};

// As padding_share, of numbers that a cast takes exactly.
fn small_ratio(x: u32, n: u32) -> f32
    requires { (x ≤ 65536) × (n ≤ 65536) }
    ensures { result ≡ ratio x n }
{
    x as f32 / n as f32
}

// Stores the items at place at and on. Answers the place after them.
// No copy_from_slice: for the 2 to 6 items of a vertex or a cell it is a call, and takes three to four times as long.
fn put<T: Copy>(out: &mut [T], at: usize, items: &[T]) -> usize
    requires { at + length items.now ≤ length out.old }
    ensures place { result ≡ at + length items.now }
    ensures stored { out.new ≡ sets out.old at items.now }
{
    for (i, item) in items.iter().enumerate() {
        out[at + i] = *item;
    }
    at + items.len()
}

// Puts what step puts for each i below n, one after the other from place at on. Answers the place after them.
fn put_each<T, F: Fn(u32, usize, &mut [T]) -> usize>(
    n: u32,
    at: usize,
    out: &mut [T],
    step: F,
) -> usize
    requires may { (f : ℕ → List T) × (at + length (each f n) ≤ length out.old)
        × MayPut F.pre step f n × Puts F.post step f n }
    ensures puts { (f : ℕ → List T) → at + length (each f n) ≤ length out.old → Puts F.post step f n
        → (result ≡ at + length (each f n)) × (out.new ≡ sets out.old at (each f n)) }
{
    let mut to = at;
    for i in 0..n {
        to = step(i, to, out);
    }
    to
}
