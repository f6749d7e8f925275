// What a display makes of the records of a drawing, and how it shares out a frame. Any words may be handed in: each
// call judges what it is handed before it changes anything, so a refusal leaves all as it was.
#![tactic(auto)]

ghost use Rattle.std.specs.Prelude.{◌≡◌, ◌+◌, ◌≤◌, length};
ghost use Rattle.display.specs.Internal.{record_at};

use payload::Record;

mod shares;
mod shown;
mod triangulation;

pub use shares::share_points;
pub use shown::{Shown, ShownAnswer, hide, none_shown, show};
pub use triangulation::triangles;

// The record whose first word is records[at].
fn record_at(records: &[u32], at: usize) -> Record
    requires { at + 5 ≤ length records.now }
    ensures { result ≡ record_at records.now at }
{
    Record {
        eye: records[at],
        texture: records[at + 1],
        mode: records[at + 2],
        first: records[at + 3],
        points: records[at + 4],
    }
}
