// Vertex numbers at points of a submesh, as many as are asked, from one walk over its fields.
ghost use Rattle.std.specs.Prelude.{◌≡◌, [], ◌∷◌};
ghost use Rattle.payload.specs.Lent.{answer_for, buffers_after, at_entry};
ghost use Rattle.alignment.specs.LookUp.{farthest, looked_up, look_up_says};
ghost use Rattle.alignment.specs.Internal.{SomePoints, Answers};

use super::walk::walk_asked;
use bits::{FillError, Refusal, Run};

// The largest asked number plus one, or 0 for no question.
fn farthest_asked(asked: &[u32]) -> u64
    ensures { result ≡ farthest asked.now }
{
    let mut far: u64 = 0;
    for k in asked {
        far = far.max(*k as u64 + 1);
    }
    far
}

// Looks up points of a submesh whose points are that run of its mesh's body: 24, then 12.
fn look_up_in(
    body: &[u8],
    run: Run,
    asked: &[u32],
    vertices: &mut [u16],
) -> Result<u32, FillError<usize>>
    requires { SomePoints body.now run }
    ensures { Answers body.now run asked.now vertices.old
        (look_up_says result) vertices.new }
{
    if 256 < asked.len() {
        return Err(FillError::Refused(Refusal::Question));
    }
    let far = farthest_asked(asked);
    if (run.count as u64) < far {
        return Err(FillError::Refused(Refusal::Question));
    }
    if vertices.len() < asked.len() {
        return Err(FillError::Needs(asked.len()));
    }
    let walked = Run {
        bit: run.bit,
        limit: run.limit,
        count: far as u32,
    };
    let last = walk_asked(body, walked, asked, vertices);
    Ok(last.taken)
}

// Puts the vertex numbers at the asked points of the submesh with that record number into `vertices`, in the order
// asked: 2, then 3, 6, 7, 8, 17 and 18 in payload order, then 24, then 12, or how many of the submesh's fields were
// walked for it. Unless it answers `Ok`, the buffer stays as it was.
pub fn look_up(
    payload: &[u8],
    number: u32,
    asked: &[u32],
    vertices: &mut [u16],
) -> Result<u32, FillError<usize>>
    ensures answer { look_up_says result
        ≡ answer_for (looked_up payload.now number asked.now) (at_entry (vertices ∷ [])) }
    ensures buffers { vertices.new ∷ []
        ≡ buffers_after (looked_up payload.now number asked.now) (at_entry (vertices ∷ [])) }
{
    let found = payload::find_submesh(payload, number)?;
    let body = &payload[found.body..found.end];
    look_up_in(body, found.run, asked, vertices)
}
