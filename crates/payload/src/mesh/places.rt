// Where the bodies of a list's meshes stand, one after the other.
ghost use Rattle.std.specs.Prelude.{◌≡◌};
ghost use Rattle.payload.specs.Places.{next_body};
ghost use Rattle.payload.specs.InternalPlaces.{next_says};

use super::MESH;
use bits::{BoxHeader, ByteCursor};

// Where a mesh's body begins and ends.
#[derive(Clone, Copy)]
pub(in crate::mesh) struct MeshBody {
    pub body: usize,
    pub end: usize,
}

// The first mesh from the box at `from` on, if there is one; boxes of other types are skipped. The next one is sought
// from where its body ends.
pub(in crate::mesh) fn next_mesh(s: &[u8], from: usize) -> Option<MeshBody>
    ensures { next_says result ≡ next_body s.now from }
{
    let mut at = from;
    // no index is counted here: a turn goes on where the box ends
    loop {
        match bits::box_header(s, ByteCursor { at }) {
            BoxHeader::ListEnd => {
                return None;
            }
            // A list that was read has none.
            BoxHeader::BadSize => {
                return None;
            }
            BoxHeader::Header { fourcc, body, end } => {
                if fourcc == MESH {
                    return Some(MeshBody { body, end });
                }
                at = end;
            }
            // Nor one of these.
            BoxHeader::Refused {
                fourcc: _,
                refusal: _,
            } => {
                return None;
            }
        }
    }
}
