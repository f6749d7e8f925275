// A mesh body as four tables: pool words, coordinate numbers, three words for each submesh, and the vertex numbers of
// the points. A body is measured first. What fills the tables goes over a body that is known to be read whole, and
// tests nothing again.
ghost use Rattle.std.specs.Prelude.{◌≡◌, ◌+◌, ◌*◌, ◌≤◌, [], ◌∷◌, length};
ghost use Rattle.std.proofs.lemmas.List.Edits.{sets};
ghost use Rattle.payload.specs.MeshRead.{read_mesh};
ghost use Rattle.payload.specs.Internal.{WasRead, read_words, PointsThere, points_of};
ghost use Rattle.payload.specs.Internal.{mesh_read};
ghost use Rattle.payload.specs.InternalWalk.{submeshes_in};
ghost use Rattle.payload.specs.Tables.{submesh_rows, all_points, pool_table, coordinate_table, submesh_table};
ghost use Rattle.payload.specs.Tables.{point_table, tables_plan, tables_says};
ghost use Rattle.payload.specs.Lent.{answer_for, buffers_after, at_entry};

use super::fields::word;
use super::head::mesh_head;
use super::measure::{TableLengths, measure_mesh};
use super::submeshes::SubmeshWalk;
use super::vertices::fill_vertices;
use bits::{FillError, Run};

// Stores the n pool words.
fn fill_pool(s: &[u8], n: u16, out: &mut [u32])
    requires { (length s.now ≤ 67108864) × (32 * n + 32 ≤ 8 * length s.now) × (n ≤ length out.old) }
    ensures { out.new ≡ sets out.old 0 (read_words s.now 32 n) }
{
    for i in 0..n as usize {
        out[i] = word(s, 4 * i + 4);
    }
}

// Stores a submesh's three words: a store for each, as in `put_record`.
fn put_row(out: &mut [u32], at: usize, texture: u32, mode: u32, points: u32)
    requires { at + 3 ≤ length out.old }
    ensures { out.new ≡ sets out.old at (texture ∷ mode ∷ points ∷ []) }
{
    out[at] = texture;
    out[at + 1] = mode;
    out[at + 2] = points;
}

// Stores the rows of some submeshes.
fn fill_rows(submeshes: SubmeshWalk<'_>, out: &mut [u32])
    requires left_in_bounds { 3 * submeshes.rest.left ≤ length out.old }
    ensures rows { out.new
        ≡ sets out.old 0 (submesh_rows (submeshes_in submeshes.entry)) }
{
    let mut at: usize = 0;
    for submesh in submeshes {
        put_row(out, at, submesh.texture, submesh.mode, submesh.run.count);
        at += 3;
    }
}

// Stores the vertex numbers of a run that is known to be read whole, from place at on.
fn fill_run(s: &[u8], run: Run, out: &mut [u16], at: usize)
    requires points_there { PointsThere s.now run }
    requires count_in_bounds { at + run.count ≤ length out.old }
    ensures points { out.new ≡ sets out.old at (points_of s.now run) }
{
    let width = bits::bit_width(run.limit as u32);
    let end = at + run.count as usize;
    bits::fill_run(s, run.bit, width, 0, &mut out[at..end]);
}

// Stores the vertex numbers of the points of some submeshes.
fn fill_points(submeshes: SubmeshWalk<'_>, out: &mut [u16])
    requires all_in_bounds { length (all_points (submeshes_in submeshes)) ≤ length out.old }
    ensures points { out.new
        ≡ sets out.old 0 (all_points (submeshes_in submeshes.entry)) }
{
    let s = submeshes.s;
    let mut at: usize = 0;
    for submesh in submeshes {
        fill_run(s, submesh.run, out, at);
        at += submesh.run.count as usize;
    }
}

// Stores the four tables of a mesh.
fn fill_tables(
    s: &[u8],
    pool: &mut [u32],
    coordinates: &mut [u16],
    submeshes: &mut [u32],
    points: &mut [u16],
)
    requires { (length s.now ≤ 67108864) × WasRead (read_mesh s.now)
        × (length (pool_table (mesh_read s.now)) ≤ length pool.old)
        × (length (coordinate_table (mesh_read s.now)) ≤ length coordinates.old)
        × (length (submesh_table (mesh_read s.now)) ≤ length submeshes.old)
        × (length (point_table (mesh_read s.now)) ≤ length points.old) }
    ensures pool { pool.new ≡ sets pool.old 0 (pool_table (mesh_read s.now)) }
    ensures coordinates { coordinates.new
        ≡ sets coordinates.old 0 (coordinate_table (mesh_read s.now)) }
    ensures submeshes { submeshes.new
        ≡ sets submeshes.old 0 (submesh_table (mesh_read s.now)) }
    ensures points { points.new
        ≡ sets points.old 0 (point_table (mesh_read s.now)) }
{
    let h = mesh_head(s);
    fill_pool(s, h.vertices.limit, pool);
    fill_vertices(s, h.vertices, coordinates, 0);
    let walk = SubmeshWalk {
        s,
        rest: h.submeshes,
    };
    fill_rows(walk, submeshes);
    fill_points(walk, points);
}

// Reads a mesh body into tables, and answers how much of each is used: 2, then 3, 7, 8 and 17 in field order, then 12.
// Unless it answers `Ok`, the buffers stay as they were.
pub fn parse_mesh(
    body: &[u8],
    pool: &mut [u32],
    coordinates: &mut [u16],
    submeshes: &mut [u32],
    points: &mut [u16],
) -> Result<TableLengths, FillError<TableLengths>>
    ensures answer { tables_says result
        ≡ answer_for (tables_plan body.now) (at_entry (pool ∷ coordinates ∷ submeshes ∷ points ∷ [])) }
    ensures buffers { pool.new ∷ coordinates.new ∷ submeshes.new ∷ points.new
        ∷ []
        ≡ buffers_after (tables_plan body.now) (at_entry (pool ∷ coordinates ∷ submeshes ∷ points ∷ [])) }
{
    let n = measure_mesh(body)?;
    if (n.pool <= pool.len())
        & (n.coordinates <= coordinates.len())
        & (n.submeshes <= submeshes.len())
        & (n.points <= points.len())
    {
        fill_tables(body, pool, coordinates, submeshes, points);
        return Ok(n);
    }
    Err(FillError::Needs(n))
}
