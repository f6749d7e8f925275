// The records of a mesh list that was measured, five words for each submesh, in file order.
ghost use Rattle.std.specs.Prelude.{◌≡◌, ◌+◌, ◌*◌, ◌<◌, ◌≤◌, [], ◌∷◌, length};
ghost use Rattle.std.proofs.lemmas.List.Edits.{sets};
ghost use Rattle.payload.specs.MeshRead.{read_meshes};
ghost use Rattle.payload.specs.MeshDrawing.{submesh_records, point_count, records_from, first_eye, drawn_records};
ghost use Rattle.payload.specs.Records.{record_words};
ghost use Rattle.payload.specs.Internal.{WasRead, mesh_read};
ghost use Rattle.payload.specs.Internal.{meshes_from, RecordRoom, after_records};
ghost use Rattle.payload.specs.InternalWalk.{submeshes_in};
ghost use Rattle.payload.specs.Lent.{answer_for, buffers_after, at_entry};
ghost use Rattle.payload.specs.Meshes.{records_plan, records_says};

use super::head::mesh_head;
use super::measure::measure_meshes;
use super::meshes::{MeshWalk, ReadMesh};
use super::submeshes::SubmeshWalk;
use bits::FillError;

// A submesh's record: its eye, its texture and mode, its first point among all, and how many points it has.
#[derive(Clone, Copy)]
pub struct Record {
    pub eye: u32,
    pub texture: u32,
    pub mode: u32,
    pub first: u32,
    pub points: u32,
}

// A store for each word: copied in as one array they go through memory, which is slower.
fn put_record(out: &mut [u32], at: usize, r: Record)
    requires { at + 5 ≤ length out.old }
    ensures { out.new ≡ sets out.old at (record_words r) }
{
    out[at] = r.eye;
    out[at + 1] = r.texture;
    out[at + 2] = r.mode;
    out[at + 3] = r.first;
    out[at + 4] = r.points;
}

// The next record's eye and first point, and where it goes.
#[derive(Clone, Copy)]
struct RecordPlace {
    eye: u32,
    first: u32,
    at: usize,
}

// Stores the records of some submeshes, and returns the first point after them.
fn fill_records(submeshes: SubmeshWalk<'_>, records: &mut [u32], to: RecordPlace) -> u32
    requires left_in_bounds { to.at + 5 * submeshes.rest.left ≤ length records.old }
    requires all_bound { to.first + point_count (submeshes_in submeshes) < 4294967296 }
    ensures first { result ≡ to.first + point_count (submeshes_in submeshes.entry) }
    ensures records { records.new
        ≡ sets records.old to.at
        (submesh_records to.eye to.first (submeshes_in submeshes.entry)) }
{
    let eye = to.eye;
    let mut first = to.first;
    let mut at = to.at;
    for submesh in submeshes {
        let points = submesh.run.count;
        let record = Record {
            eye,
            texture: submesh.texture,
            mode: submesh.mode,
            first,
            points,
        };
        put_record(records, at, record);
        first += points;
        at += 5;
    }
    first
}

// Stores the records of a mesh that is known to be read whole, and returns the place of the next one.
fn record_mesh(mesh: ReadMesh<'_>, records: &mut [u32], to: RecordPlace) -> RecordPlace
    requires { RecordRoom (mesh_read mesh.s.now ∷ []) to (length records.old) }
    ensures place { result ≡ after_records to (mesh_read mesh.entry.s.now ∷ []) }
    ensures records { records.new
        ≡ sets records.old to.at
        (records_from to.eye to.first (mesh_read mesh.entry.s.now ∷ [])) }
{
    let s = mesh.s;
    let h = mesh_head(s);
    let submeshes = SubmeshWalk {
        s,
        rest: h.submeshes,
    };
    let first = fill_records(submeshes, records, to);
    RecordPlace {
        eye: to.eye + 1,
        first,
        at: to.at + 5 * (h.submeshes.left as usize),
    }
}

// The eye of the first of so many meshes: 0 stands for both eyes, where there is no second mesh, and 1 for the left.
fn first_eye(meshes: usize) -> u32
    ensures { result ≡ first_eye meshes }
{
    if meshes == 2 {
        return 1;
    }
    0
}

// Stores the records of a list of boxes that is known to be read whole, with so many meshes.
pub(in crate::mesh) fn record_boxes(s: &[u8], meshes: usize, records: &mut [u32])
    requires { (length s.now ≤ 67108864) × WasRead (read_meshes s.now)
        × (length (drawn_records (meshes_from s.now 0)) ≤ length records.old)
        × (meshes ≡ length (meshes_from s.now 0)) }
    ensures { records.new
        ≡ sets records.old 0 (drawn_records (meshes_from s.now 0)) }
{
    let mut to = RecordPlace {
        eye: first_eye(meshes),
        first: 0,
        at: 0,
    };
    for mesh in (MeshWalk { s, at: 0 }) {
        to = record_mesh(mesh, records, to);
    }
}

// How many meshes, submeshes and points a mesh list has.
#[derive(Clone, Copy)]
pub struct ListCounts {
    pub meshes: usize,
    pub submeshes: usize,
    pub points: usize,
}

// The records of a mesh list, without its points: 2, then 3, 6, 7, 8, 17 and 18 in payload order, then 12. Unless
// it answers `Ok`, the buffer stays as it was.
pub fn mesh_records(payload: &[u8], records: &mut [u32]) -> Result<ListCounts, FillError<usize>>
    ensures answer { records_says result
        ≡ answer_for (records_plan payload.now) (at_entry (records ∷ [])) }
    ensures buffers { records.new ∷ []
        ≡ buffers_after (records_plan payload.now) (at_entry (records ∷ [])) }
{
    let n = measure_meshes(payload)?;
    if records.len() < n.records {
        return Err(FillError::Needs(n.records));
    }
    record_boxes(payload, n.meshes, records);
    Ok(ListCounts {
        meshes: n.meshes,
        submeshes: n.submeshes,
        points: n.points,
    })
}
