// The filling pass over a mesh list that was measured: nothing is tested again, and nothing can fail. Vertices'
// coordinate numbers go to `numbers` first; points read them back from there, and their words from the payload, so that
// no memory is needed beside the buffers. A mesh with many points for its vertices has its vertices expanded first, the
// five words of each, where its last points will go; a point before them is then one copy, not ten reads far apart.
ghost use Rattle.std.specs.Prelude.{◌≡◌, ◌+◌, ◌*◌, ◌<◌, ◌≤◌, [], ◌∷◌, length};
ghost use Rattle.std.proofs.lemmas.List.Edits.{sets};
ghost use Rattle.payload.specs.MeshRead.{read_meshes};
ghost use Rattle.payload.specs.MeshDrawing.{submesh_words, point_count, drawn_numbers, drawn_floats};
ghost use Rattle.payload.specs.Internal.{WasRead, word_at, words_from, Pooled};
ghost use Rattle.payload.specs.Internal.{ExpandedFrom, mesh_read, meshes_from, FillRoom};
ghost use Rattle.payload.specs.Internal.{after_meshes};
ghost use Rattle.payload.specs.InternalWalk.{submeshes_in};
ghost use Rattle.payload.specs.Lent.{answer_for, buffers_after, at_entry};
ghost use Rattle.payload.specs.Meshes.{meshes_plan, meshes_says};

use super::head::mesh_head;
use super::measure::{MeshListSize, measure_meshes};
use super::meshes::{MeshWalk, ReadMesh};
use super::points::{draw_run, word_at};
use super::records::record_boxes;
use super::submeshes::SubmeshWalk;
use super::vertices::fill_vertices;
use bits::FillError;

// How many points some submeshes have.
fn count_points(submeshes: SubmeshWalk<'_>) -> usize
    requires all_bound { point_count (submeshes_in submeshes) < 18446744073709551616 }
    ensures { result ≡ point_count (submeshes_in submeshes.entry) }
{
    let mut points: usize = 0;
    for submesh in submeshes {
        points += submesh.run.count as usize;
    }
    points
}

// Stores the words of some submeshes, and returns the place after them. `expanded` is where the vertices are expanded,
// and 0 where they are not.
fn draw_submeshes(
    submeshes: SubmeshWalk<'_>,
    numbers: &[u16],
    base: usize,
    words: &mut [u32],
    at: usize,
    expanded: usize,
) -> usize
    requires pooled { Pooled submeshes.s.now numbers.now base (5 * submeshes.rest.vertices) }
    requires all_in_bounds { at + 5 * point_count (submeshes_in submeshes) ≤ length words.old }
    requires expanded_from { ExpandedFrom at submeshes.s.now numbers.now base (5 * submeshes.rest.vertices)
        words.old expanded }
    ensures place { result ≡ at + 5 * point_count (submeshes_in submeshes.entry) }
    ensures floats { words.new
        ≡ sets words.old at
        (submesh_words (word_at submeshes.entry.s.now numbers.now) base (submeshes_in submeshes.entry)) }
{
    let s = submeshes.s;
    let mut to = at;
    for submesh in submeshes {
        draw_run(s, submesh.run, numbers, base, words, to, expanded);
        to += 5 * (submesh.run.count as usize);
    }
    to
}

// Stores the words of count coordinates, whose numbers stand in numbers from base on.
fn expand_vertices(
    s: &[u8],
    numbers: &[u16],
    base: usize,
    count: usize,
    words: &mut [u32],
    at: usize,
)
    requires { (length s.now ≤ 67108864) × (at + count ≤ length words.old)
        × Pooled s.now numbers.now base count }
    ensures { words.new ≡ sets words.old at
        (words_from (word_at s.now numbers.now) base count) }
{
    for i in 0..count {
        words[at + i] = word_at(s, numbers, base + i);
    }
}

// Stores the words of all submeshes of a mesh, and returns the place after them. The vertices are expanded where the
// points are three for each vertex or more: with fewer it costs more than it saves, and with few vertices the counting
// does.
fn draw_expanded(
    submeshes: SubmeshWalk<'_>,
    numbers: &[u16],
    base: usize,
    words: &mut [u32],
    at: usize,
) -> usize
    requires pooled { Pooled submeshes.s.now numbers.now base (5 * submeshes.rest.vertices) }
    requires all_in_bounds { at + 5 * point_count (submeshes_in submeshes) ≤ length words.old }
    ensures place { result ≡ at + 5 * point_count (submeshes_in submeshes.entry) }
    ensures floats { words.new
        ≡ sets words.old at
        (submesh_words (word_at submeshes.entry.s.now numbers.now) base (submeshes_in submeshes.entry)) }
{
    let vertices = submeshes.rest.vertices as usize;
    if vertices < 64 {
        return draw_submeshes(submeshes, numbers, base, words, at, 0);
    }
    let points = count_points(submeshes);
    if points < 3 * vertices {
        return draw_submeshes(submeshes, numbers, base, words, at, 0);
    }
    let expanded = at + 5 * (points - vertices);
    expand_vertices(submeshes.s, numbers, base, 5 * vertices, words, expanded);
    draw_submeshes(submeshes, numbers, base, words, at, expanded)
}

// Where the next mesh's coordinate numbers and words go.
#[derive(Clone, Copy)]
struct DrawPlace {
    numbers: usize,
    floats: usize,
}

// Stores a mesh that is known to be read whole, and returns the places after it.
fn draw_mesh(mesh: ReadMesh<'_>, numbers: &mut [u16], words: &mut [u32], to: DrawPlace) -> DrawPlace
    requires { FillRoom (mesh_read mesh.s.now ∷ []) to (length numbers.old) (length words.old) }
    ensures places { result ≡ after_meshes to (mesh_read mesh.entry.s.now ∷ []) }
    ensures numbers { numbers.new
        ≡ sets numbers.old to.numbers (drawn_numbers (mesh_read mesh.entry.s.now ∷ [])) }
    ensures floats { words.new
        ≡ sets words.old to.floats (drawn_floats (mesh_read mesh.entry.s.now ∷ [])) }
{
    let s = mesh.s;
    let h = mesh_head(s);
    let base = to.numbers;
    let at = to.floats;
    fill_vertices(s, h.vertices, numbers, base);
    let submeshes = SubmeshWalk {
        s,
        rest: h.submeshes,
    };
    let end = draw_expanded(submeshes, &numbers[..], base, words, at);
    DrawPlace {
        numbers: base + 5 * (h.vertices.count as usize),
        floats: end,
    }
}

// Stores the meshes of a list of boxes that is known to be read whole.
fn draw_boxes(s: &[u8], numbers: &mut [u16], words: &mut [u32])
    requires s_len_bound { (length s.now ≤ 67108864) × WasRead (read_meshes s.now) }
    requires s_in_bounds { (length (drawn_numbers (meshes_from s.now 0)) ≤ length numbers.old)
        × (length (drawn_floats (meshes_from s.now 0)) ≤ length words.old) }
    ensures numbers { numbers.new
        ≡ sets numbers.old 0 (drawn_numbers (meshes_from s.now 0)) }
    ensures floats { words.new
        ≡ sets words.old 0 (drawn_floats (meshes_from s.now 0)) }
{
    let mut to = DrawPlace {
        numbers: 0,
        floats: 0,
    };
    for mesh in (MeshWalk { s, at: 0 }) {
        to = draw_mesh(mesh, numbers, words, to);
    }
}

// How long the three lists of a mesh list's drawing are.
#[derive(Clone, Copy)]
pub struct DrawingLengths {
    pub numbers: usize,
    pub floats: usize,
    pub records: usize,
}

// Draws a mesh list, and answers its size: 2, then 3, 6, 7, 8, 17 and 18 in payload order, then 12. Unless it answers
// `Ok`, the buffers stay as they were.
pub fn parse_meshes(
    payload: &[u8],
    numbers: &mut [u16],
    floats: &mut [u32],
    records: &mut [u32],
) -> Result<MeshListSize, FillError<DrawingLengths>>
    ensures answer { meshes_says result
        ≡ answer_for (meshes_plan payload.now) (at_entry (numbers ∷ floats ∷ records ∷ [])) }
    ensures buffers { numbers.new ∷ floats.new ∷ records.new ∷ []
        ≡ buffers_after (meshes_plan payload.now) (at_entry (numbers ∷ floats ∷ records ∷ [])) }
{
    let n = measure_meshes(payload)?;
    if (n.numbers <= numbers.len()) & (n.floats <= floats.len()) & (n.records <= records.len()) {
        draw_boxes(payload, numbers, floats);
        record_boxes(payload, n.meshes, records);
        return Ok(n);
    }
    Err(FillError::Needs(DrawingLengths {
        numbers: n.numbers,
        floats: n.floats,
        records: n.records,
    }))
}
