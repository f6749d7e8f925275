// The sphere's grid of rings and sectors: its triangles, as vertex numbers, and its texture coordinates, as bit
// patterns.
ghost use Rattle.std.specs.Prelude.{◌≡◌, ◌+◌, ◌<◌, ◌≤◌, [], ◌∷◌, length};
ghost use Rattle.std.proofs.lemmas.List.Edits.{sets};
ghost use Rattle.bits.specs.Float.{bits_of};
ghost use Rattle.payload.specs.Fill.{each, filled_says, both_lengths, grid_lengths_says};
ghost use Rattle.payload.specs.Lent.{in_items, answer_for, buffers_after, at_entry};
ghost use Rattle.payload.specs.Float.{f1, ◌⊖◌, ratio};
ghost use Rattle.payload.specs.Crop.{full};
ghost use Rattle.payload.specs.Sphere.{sphere_numbers, uv_row, grid_uvs, sphere_uvs};
ghost use Rattle.payload.specs.InternalSphere.{shifted, cell_on, patch_row, patch_triangles};

use super::answers::{Filled, GridLengths};
use super::crop::Bounds;
use super::grid::{Grid, Patch};
use super::{put, put_each, small_ratio};
use bits::{FillError, Refusal};

// From place at on, n triangles: the numbers of each are one more than those of the one before. Answers the place after
// them.
fn fill_triangles(a: u16, b: u16, c: u16, n: u16, at: usize, out: &mut [u16]) -> usize
    requires n_bound { (a + n ≤ 65536) × (b + n ≤ 65536) × (c + n ≤ 65536) }
    requires n_in_bounds { at + length (each (shifted a b c) n) ≤ length out.old }
    ensures place { result ≡ at + length (each (shifted a b c) n) }
    ensures numbers { out.new ≡ sets out.old at (each (shifted a b c) n) }
{
    let mut to = at;
    for i in 0..n {
        to = put(out, to, &[a + i, b + i, c + i]);
    }
    to
}

// The same for n cells of two triangles each, the first with the corners a, b and, on the next ring, c, d.
fn fill_cells(a: u16, b: u16, c: u16, d: u16, n: u16, at: usize, out: &mut [u16]) -> usize
    requires n_bound { (a + n ≤ 65536) × (b + n ≤ 65536) × (c + n ≤ 65536) × (d + n ≤ 65536) }
    requires n_in_bounds { at + length (each (cell_on a b c d) n) ≤ length out.old }
    ensures place { result ≡ at + length (each (cell_on a b c d) n) }
    ensures numbers { out.new ≡ sets out.old at (each (cell_on a b c d) n) }
{
    let mut to = at;
    for i in 0..n {
        to = put(out, to, &[a + i, d + i, b + i, a + i, c + i, d + i]);
    }
    to
}

// A row of cells. At a pole two corners of a cell are one point, and the triangle with both is left out.
fn fill_row(patch: Patch, ring: u32, at: usize, out: &mut [u16]) -> usize
    requires ring_bound { ring < patch.grid.rings }
    requires ring_in_bounds { at + length (patch_row patch ring) ≤ length out.old }
    ensures place { result ≡ at + length (patch_row patch ring) }
    ensures numbers { out.new ≡ sets out.old at (patch_row patch ring) }
{
    let a = patch.grid.first_of(ring);
    let n = patch.grid.sectors as u16;
    let b = a + 1;
    let c = b + n;
    let d = c + 1;
    if patch.zenith & (ring == 0) {
        return fill_triangles(a, c, d, n, at, out);
    }
    if patch.nadir & (ring + 1 == patch.grid.rings) {
        return fill_triangles(a, d, b, n, at, out);
    }
    fill_cells(a, b, c, d, n, at, out)
}

fn fill_rows(patch: Patch, out: &mut [u16])
    requires { length (patch_triangles patch) ≤ length out.old }
    ensures { out.new ≡ sets out.old 0 (patch_triangles patch) }
{
    put_each(
        patch.grid.rings,
        0,
        out,
        |ring, to, out| fill_row(patch, ring, to, out),
    );
}

// The numbers of the triangles of the covered patch, row by row.
pub fn sphere_indices_bounded(rings: u32, sectors: u32, bounds: Bounds, out: &mut [u16]) -> Filled
    ensures answer { filled_says result
        ≡ answer_for (in_items 1 (sphere_numbers rings sectors bounds)) (at_entry (out ∷ [])) }
    ensures buffers { out.new ∷ []
        ≡ buffers_after (in_items 1 (sphere_numbers rings sectors bounds)) (at_entry (out ∷ [])) }
{
    let patch = Patch::new(rings, sectors, bounds)?;
    let count = patch.numbers();
    if out.len() < count {
        return Err(FillError::Needs(count));
    }
    fill_rows(patch, out);
    Ok(count)
}

// The same for the whole sphere.
pub fn sphere_indices(rings: u32, sectors: u32, out: &mut [u16]) -> Filled
    ensures answer { filled_says result
        ≡ answer_for (in_items 1 (sphere_numbers rings sectors full)) (at_entry (out ∷ [])) }
    ensures buffers { out.new ∷ []
        ≡ buffers_after (in_items 1 (sphere_numbers rings sectors full)) (at_entry (out ∷ [])) }
{
    sphere_indices_bounded(rings, sectors, Bounds::FULL, out)
}

// Texture space is bottom-up: the first row is v = 1.
fn v_bits(ring: u32, rings: u32) -> u32
    ensures { result ≡ bits_of (f1 ⊖ ratio ring rings) }
{
    let x = bits::nearest_f32(ring);
    let n = bits::nearest_f32(rings);
    bits::float_bits(1.0 - x / n)
}

// From place at on, u and v of a ring's vertices. Answers the place after them.
fn fill_uv_row(grid: Grid, ring: u32, at: usize, out: &mut [u32]) -> usize
    requires { at + length (uv_row grid.rings grid.sectors ring) ≤ length out.old }
    ensures place { result ≡ at + length (uv_row grid.rings grid.sectors ring) }
    ensures floats { out.new ≡ sets out.old at (uv_row grid.rings grid.sectors ring) }
{
    let v = v_bits(ring, grid.rings);
    let mut to = at;
    for sector in 0..grid.sectors + 1 {
        let u = bits::float_bits(small_ratio(sector, grid.sectors));
        to = put(out, to, &[u, v]);
    }
    to
}

fn fill_uv_rows(grid: Grid, out: &mut [u32])
    requires { length (grid_uvs grid.rings grid.sectors) ≤ length out.old }
    ensures { out.new ≡ sets out.old 0 (grid_uvs grid.rings grid.sectors) }
{
    put_each(
        grid.rings + 1,
        0,
        out,
        |ring, to, out| fill_uv_row(grid, ring, to, out),
    );
}

// u and v of each vertex, row by row: the last two fields of the Rust's `sphere_mesh_bounded`.
pub fn sphere_uvs(rings: u32, sectors: u32, out: &mut [u32]) -> Filled
    ensures answer { filled_says result
        ≡ answer_for (in_items 2 (sphere_uvs rings sectors)) (at_entry (out ∷ [])) }
    ensures buffers { out.new ∷ []
        ≡ buffers_after (in_items 2 (sphere_uvs rings sectors)) (at_entry (out ∷ [])) }
{
    let grid = Grid::new(rings, sectors)?;
    let vertices = grid.vertices();
    if out.len() < 2 * vertices {
        return Err(FillError::Needs(2 * vertices));
    }
    fill_uv_rows(grid, out);
    Ok(vertices)
}

// How long the numbers and the texture coordinates of the covered patch are: 9, 10, or both lengths.
pub fn sphere_lengths(rings: u32, sectors: u32, bounds: Bounds) -> Result<GridLengths, Refusal>
    ensures { grid_lengths_says result ≡ both_lengths (sphere_numbers rings sectors bounds) (sphere_uvs rings sectors) }
{
    let patch = Patch::new(rings, sectors, bounds)?;
    Ok(GridLengths {
        numbers: patch.numbers(),
        floats: 2 * patch.grid.vertices(),
    })
}
