// What is listed, and the printing of it.
ghost use Rattle.std.specs.Prelude.{◌≡◌, [], ◌∷◌, ◌*◌, ◌≤◌, length};
ghost use Rattle.payload.specs.Lent.{buffers_after, at_entry};
ghost use Rattle.meshlist.specs.Listing.{listing_says, listing, listing_plan, record_lines, texture_lines};

use crate::print::{print_lines, print_refusal};
use bits::{FillError, Refusal};
use payload::ListCounts;
use std::io;

// The counts of a mesh list, and how many textures it has.
#[derive(Clone, Copy)]
struct Listing {
    counts: ListCounts,
    textures: usize,
}

// The records and the textures of a payload of at most 16,384 bytes. A submesh takes 48 bits or more, so 5 words for
// each of 2,730 are long enough; a texture is a byte, so 512 words hold them all.
fn list_payload(
    payload: &[u8],
    records: &mut [u32],
    textures: &mut [u32],
) -> Result<Listing, FillError<usize>>
    requires { (13650 ≤ length records.old) × (512 ≤ length textures.old) }
    ensures answer { listing_says result ≡ listing payload.now }
    ensures lines { (5 * record_lines result ≤ length records.new)
        × (2 * texture_lines result ≤ length textures.new) }
    ensures buffers { records.new ∷ textures.new ∷ []
        ≡ buffers_after (listing_plan payload.now) (at_entry (records ∷ textures ∷ [])) }
{
    if 16_384 < payload.len() {
        return Err(FillError::Refused(Refusal::PayloadTooLong));
    }
    let counts = payload::mesh_records(payload, records)?;
    let n = payload::texture_points(payload, textures)?;
    Ok(Listing {
        counts,
        textures: n,
    })
}

// Prints the listing of a payload, and fails where not all of it was written.
pub fn list(rt: &impl Print, payload: &[u8]) -> io::Result<()> {
    let mut records = [0u32; 13650];
    let mut words = [0u32; 512];
    match list_payload(payload, &mut records, &mut words) {
        Ok(Listing { counts, textures }) => print_lines(
            rt,
            counts,
            &records[..5 * counts.submeshes],
            &words[..2 * textures],
        ),
        Err(FillError::Refused(refusal)) => print_refusal(rt, refusal),
        // the buffers are long enough for every payload that is read
        Err(FillError::Needs(_)) => unreachable!(),
    }
}
