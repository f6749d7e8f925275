// What equi and cbmp payloads begin with: a version byte and three free bytes.
ghost use Rattle.std.specs.Prelude.{◌≡◌};
ghost use Rattle.payload.specs.Payload.{full_box, full_box_says};

use bits::{ByteCursor, Refusal};

// The place where the body begins.
pub(crate) fn full_box(s: &[u8]) -> Result<ByteCursor, Refusal>
    ensures { full_box_says result ≡ full_box s.now }
{
    let (version, after) = ByteCursor::new().u8(s)?;
    if version != 0 {
        return Err(Refusal::Version);
    }
    after.skip(s, 3)
}
