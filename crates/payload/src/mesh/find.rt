// Where the points of a submesh stand that is named by its record number.
ghost use Rattle.std.specs.Prelude.{◌≡◌, ◌<◌, ◌≤◌, length};
ghost use Rattle.bits.specs.Verdict.{accepted, mapped};
ghost use Rattle.payload.specs.MeshRead.{read_meshes};
ghost use Rattle.payload.specs.Internal.{WasRead, meshes_from};
ghost use Rattle.payload.specs.InternalWalk.{submeshes_in};
ghost use Rattle.payload.specs.Places.{submesh_from, standing_from, place_found, found_says};

use super::head::mesh_head;
use super::measure::measure_meshes;
use super::meshes::MeshWalk;
use super::submeshes::SubmeshWalk;
use bits::{Refusal, Run};

// Where the points of a submesh stand: the body of its mesh begins and ends there in the payload, and the fields of its
// points are that run of the body.
#[derive(Clone, Copy)]
pub struct PointFields {
    pub body: usize,
    pub end: usize,
    pub run: Run,
}

// The run of the points of submesh number j of some submeshes.
fn points_run(mut submeshes: SubmeshWalk<'_>, j: u32) -> Run
    requires { j < submeshes.rest.left }
    ensures { accepted result
        ≡ mapped (λ x. x.1) (submesh_from submeshes.entry.rest.vertices submeshes.entry.rest.bit
        (submeshes_in submeshes.entry) j) }
{
    submeshes.nth(j as usize).unwrap().run
}

// Submesh number `number` of a list that is known to be read whole, counted through all its meshes: 24 where there is
// none.
fn find_in(s: &[u8], number: u32) -> Result<PointFields, Refusal>
    requires { (length s.now ≤ 67108864) × WasRead (read_meshes s.now) }
    ensures { found_says result
        ≡ mapped (λ x. x.place) (standing_from s.now 0 (meshes_from s.now 0) number) }
{
    let mut skip = number;
    for mesh in (MeshWalk { s, at: 0 }) {
        let rest = mesh_head(mesh.s).submeshes;
        if skip < rest.left {
            let run = points_run(SubmeshWalk { s: mesh.s, rest }, skip);
            return Ok(PointFields {
                body: mesh.body,
                end: mesh.end,
                run,
            });
        }
        skip -= rest.left;
    }
    Err(Refusal::Question)
}

// Where the points of the submesh with that record number stand: 2, then 3, 6, 7, 8, 17 and 18 in payload order, then
// 24 where there is no such submesh.
pub fn find_submesh(payload: &[u8], number: u32) -> Result<PointFields, Refusal>
    ensures { found_says result ≡ place_found payload.now number }
{
    measure_meshes(payload)?;
    find_in(payload, number)
}
