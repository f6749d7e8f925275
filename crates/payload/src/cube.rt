// The cube map: the triangles and the vertices of six faces, each a grid of cells.
ghost use Rattle.std.specs.Prelude.{◌≡◌, ◌+◌, ◌*◌, ◌<◌, ◌≤◌, false, [], ◌∷◌, length, IfOk, MatchResult};
ghost use Rattle.std.proofs.lemmas.List.Edits.{sets};
ghost use Rattle.bits.specs.Says.{says};
ghost use Rattle.payload.specs.Fill.{filled_says, both_lengths, grid_lengths_says};
ghost use Rattle.payload.specs.Lent.{in_items, answer_for, buffers_after, at_entry};
ghost use Rattle.payload.specs.Float.{ratio};
ghost use Rattle.payload.specs.Cube.{cells_usable, share_usable, cube_row, cube_face, cube_triangles, cube_numbers};
ghost use Rattle.payload.specs.Cube.{point_face, cube_points, cube_floats};
ghost use Rattle.payload.specs.InternalCube.{cell_of, Makes, face_of, along, between, point_of, row_of};

use super::answers::{Filled, GridLengths};
use super::{put, put_each, small_ratio};
use bits::{FillError, Refusal, float_bits, nearest_f32};

// How many cells an edge of a face has: so few that the numbers of the cube's vertices fit a u16.
#[derive(Clone, Copy)]
struct Cells {
    n: u32,
    ghost few: { (1 ≤ n) × (n ≤ 103) },
}

impl Cells {
    fn new(n: u32) -> Result<Cells, Refusal>
        ensures { MatchResult result (λ c. c.n ≡ n) (λ e. (e ≡ Refusal.Grid) × (cells_usable n ≡ false)) }
    {
        if n < 1 || 103 < n {
            return Err(Refusal::Grid);
        }
        Ok(Cells { n })
    }

    // How many numbers the triangles have: two triangles to a cell.
    fn numbers(self) -> usize
        ensures { result ≡ length (cube_triangles self.n) }
    {
        let n = self.n as usize;
        36 * (n * n)
    }

    fn vertices(self) -> usize
        ensures number { result ≡ 6 * ((self.n + 1) * (self.n + 1)) }
        ensures few { result ≤ 64896 }
    {
        let n = self.n as usize + 1;
        6 * (n * n)
    }
}

// ---- triangles

// The two triangles of a cell with a and b in one row of the grid and c and d in the next, stride vertices on.
fn cell_of(a: u16, stride: u16) -> [u16; 6]
    requires { a + stride + 1 < 65536 }
    ensures { result ≡ cell_of a stride }
{
    let b = a + 1;
    let c = a + stride;
    let d = c + 1;
    [a, d, c, a, b, d]
}

// A row of cells, from out[at] on. The answer is the place after it, here and below.
fn index_row(cells: Cells, face: u32, y: u32, at: usize, out: &mut [u16]) -> usize
    requires cell_bound { (face < 6) × (y < cells.n) }
    requires room { at + length (cube_row cells.n face y) ≤ length out.old }
    ensures place { result ≡ at + length (cube_row cells.n face y) }
    ensures numbers { out.new ≡ sets out.old at (cube_row cells.n face y) }
{
    let stride = cells.n + 1;
    let first = face * (stride * stride) + y * stride;
    let mut to = at;
    for x in 0..cells.n {
        to = put(out, to, &cell_of((first + x) as u16, stride as u16));
    }
    to
}

fn index_face(cells: Cells, face: u32, at: usize, out: &mut [u16]) -> usize
    requires face_bound { face < 6 }
    requires room { at + length (cube_face cells.n face) ≤ length out.old }
    ensures place { result ≡ at + length (cube_face cells.n face) }
    ensures numbers { out.new ≡ sets out.old at (cube_face cells.n face) }
{
    put_each(
        cells.n,
        at,
        out,
        |y, to, out| index_row(cells, face, y, to, out),
    )
}

fn index_cube(cells: Cells, out: &mut [u16])
    requires { length (cube_triangles cells.n) ≤ length out.old }
    ensures { out.new ≡ sets out.old 0 (cube_triangles cells.n) }
{
    put_each(6, 0, out, |face, to, out| index_face(cells, face, to, out));
}

// Puts the triangles into out: 9, 12, or how many numbers.
pub fn cubemap_indices(cells: u32, out: &mut [u16]) -> Filled
    ensures answer { filled_says result
        ≡ answer_for (in_items 1 (cube_numbers cells)) (at_entry (out ∷ [])) }
    ensures buffers { out.new ∷ []
        ≡ buffers_after (in_items 1 (cube_numbers cells)) (at_entry (out ∷ [])) }
{
    let cells = Cells::new(cells)?;
    let count = cells.numbers();
    if out.len() < count {
        return Err(FillError::Needs(count));
    }
    index_cube(cells, out);
    Ok(count)
}

// ---- vertices

// For each face the directions of its centre, of image-right and of image-up, along x, y and z each: codes of a byte,
// since a viewer's boot image is short of constant space. `face_of` makes floats of them.
const CUBE_FACES: [[i8; 9]; 6] = [
    [1, 0, 0, 0, 0, 1, 0, 1, 0],
    [-1, 0, 0, 0, 0, -1, 0, 1, 0],
    [0, 1, 0, -1, 0, 0, 0, 0, -1],
    [0, -1, 0, -1, 0, 0, 0, 0, 1],
    [0, 0, -1, 1, 0, 0, 0, 1, 0],
    [0, 0, 1, -1, 0, 0, 0, 1, 0],
];

// What a face has along one axis of space.
#[derive(Clone, Copy)]
struct Axis {
    centre: f32,
    right: f32,
    up: f32,
}

// A face, and where its picture lies in the frame.
#[derive(Clone, Copy)]
struct Face {
    x: Axis,
    y: Axis,
    z: Axis,
    u0: f32,
    u1: f32,
    v0: f32,
    v1: f32,
}

// The codes are the face's nine. The frame has 3 columns and 2 rows of pictures, of each of which share is cut off on
// every side. v runs upward.
fn face_of(codes: [i8; 9], face: u32, share: f32) -> Face
    requires { (face < 6) × Makes codes face }
    ensures { result ≡ face_of face share }
{
    let column = (face % 3) as f32;
    let row = (face / 3) as f32;
    Face {
        x: Axis {
            centre: codes[0] as f32,
            right: codes[3] as f32,
            up: codes[6] as f32,
        },
        y: Axis {
            centre: codes[1] as f32,
            right: codes[4] as f32,
            up: codes[7] as f32,
        },
        z: Axis {
            centre: codes[2] as f32,
            right: codes[5] as f32,
            up: codes[8] as f32,
        },
        u0: (column + share) / 3.0,
        u1: (column + 1.0 - share) / 3.0,
        v0: (2.0 - row - 1.0 + share) / 2.0,
        v1: (2.0 - row - share) / 2.0,
    }
}

// a and b run from -1 to 1, right and up from the face's middle.
fn along(radius: f32, axis: Axis, a: f32, b: f32) -> u32
    ensures { result ≡ along radius axis a b }
{
    float_bits(radius * (axis.centre + axis.right * a + axis.up * b))
}

fn between(low: f32, high: f32, s: f32) -> u32
    ensures { result ≡ between low high s }
{
    float_bits(low + (high - low) * s)
}

// The point at the shares s and t of a face's width and height.
fn point_of(radius: f32, face: Face, s: f32, t: f32) -> [u32; 5]
    ensures { result ≡ point_of radius face s t }
{
    let a = 2.0 * s - 1.0;
    let b = 2.0 * t - 1.0;
    [
        along(radius, face.x, a, b),
        along(radius, face.y, a, b),
        along(radius, face.z, a, b),
        between(face.u0, face.u1, s),
        between(face.v0, face.v1, t),
    ]
}

// A row of points, from out[at] on.
fn point_row(cells: Cells, radius: f32, face: Face, y: u32, at: usize, out: &mut [u32]) -> usize
    requires row_bound { y ≤ cells.n }
    requires room { at + length (row_of cells.n radius face y) ≤ length out.old }
    ensures place { result ≡ at + length (row_of cells.n radius face y) }
    ensures floats { out.new ≡ sets out.old at (row_of cells.n radius face y) }
{
    let t = small_ratio(y, cells.n);
    let mut to = at;
    for x in 0..cells.n + 1 {
        to = put(out, to, &point_of(radius, face, small_ratio(x, cells.n), t));
    }
    to
}

fn point_face(
    cells: Cells,
    radius: f32,
    share: f32,
    codes: [i8; 9],
    face: u32,
    at: usize,
    out: &mut [u32],
) -> usize
    requires face_bound { face < 6 }
    requires made { Makes codes face }
    requires room { at + length (point_face cells.n radius share face) ≤ length out.old }
    ensures place { result ≡ at + length (point_face cells.n radius share face) }
    ensures floats { out.new ≡ sets out.old at (point_face cells.n radius share face) }
{
    let f = face_of(codes, face, share);
    put_each(
        cells.n + 1,
        at,
        out,
        |y, to, out| point_row(cells, radius, f, y, to, out),
    )
}

fn point_cube(cells: Cells, radius: f32, share: f32, out: &mut [u32])
    requires { length (cube_points cells.n radius share) ≤ length out.old }
    ensures { out.new ≡ sets out.old 0 (cube_points cells.n radius share) }
{
    // taken once: taken for each face it would be laid out anew, and a cube of one cell take a sixth longer
    let faces = CUBE_FACES;
    let mut to: usize = 0;
    for face in 0..6 {
        to = point_face(cells, radius, share, faces[face as usize], face, to, out);
    }
}

// A NaN and the infinities fail one of the comparisons.
fn share_usable(x: f32) -> bool
    ensures { result ≡ share_usable x }
{
    (0.0 <= x) & (x < 0.5)
}

// The cells of a cube whose vertices can have this radius and padding.
fn mesh_cells(cells: u32, radius: f32, padding: f32) -> Result<Cells, Refusal>
    ensures size { IfOk result (λ c. c.n ≡ cells) }
    ensures floats { says (λ c. cube_points c.n radius padding) result ≡ cube_floats cells radius padding }
{
    let cells = Cells::new(cells)?;
    if !(radius.is_finite() & share_usable(padding)) {
        return Err(Refusal::RadiusOrFaceWidth);
    }
    Ok(cells)
}

// Puts the vertices into out, x y z u v each, as the bits of floats: 9, 11, 12, or how many vertices.
pub fn cubemap_mesh(cells: u32, radius: f32, padding: f32, out: &mut [u32]) -> Filled
    ensures answer { filled_says result
        ≡ answer_for (in_items 5 (cube_floats cells radius padding)) (at_entry (out ∷ [])) }
    ensures buffers { out.new ∷ []
        ≡ buffers_after (in_items 5 (cube_floats cells radius padding)) (at_entry (out ∷ [])) }
{
    let cells = mesh_cells(cells, radius, padding)?;
    let count = cells.vertices();
    if out.len() < 5 * count {
        return Err(FillError::Needs(5 * count));
    }
    point_cube(cells, radius, padding, out);
    Ok(count)
}

// How long the numbers and the vertices' floats are: 9, 11, or both lengths.
pub fn cubemap_lengths(cells: u32, radius: f32, padding: f32) -> Result<GridLengths, Refusal>
    ensures { grid_lengths_says result ≡ both_lengths (cube_numbers cells) (cube_floats cells radius padding) }
{
    let cells = mesh_cells(cells, radius, padding)?;
    Ok(GridLengths {
        numbers: cells.numbers(),
        floats: 5 * cells.vertices(),
    })
}

// The share of a face's width that its padding takes on each side.
pub fn padding_share(padding: u32, face_width: u32) -> f32
    ensures { result ≡ ratio padding face_width }
{
    nearest_f32(padding) / nearest_f32(face_width)
}
