// Kind 1: the cbmp payload, the padding of a cube map's faces in pixels.
ghost use Rattle.std.specs.Prelude.{◌≡◌, [], ◌∷◌};
ghost use Rattle.payload.specs.Fill.{filled_says};
ghost use Rattle.payload.specs.Lent.{in_items, answer_for, buffers_after, at_entry};
ghost use Rattle.bits.specs.Verdict.{limited};
ghost use Rattle.payload.specs.Cbmp.{layout_then_padding, cbmp_read, cbmp_says, cbmp_written};

use super::answers::Filled;
use super::full_box::full_box;
use super::words::fill_words;
use bits::{ByteCursor, FillError, Refusal};

// The padding behind a layout, which must be 0.
fn layout_then_padding(s: &[u8], start: ByteCursor) -> Result<u32, Refusal>
    ensures { cbmp_says result ≡ layout_then_padding s.now start.at }
{
    let (layout, after) = start.u32(s)?;
    if layout != 0 {
        return Err(Refusal::CubeLayout);
    }
    let (padding, _) = after.u32(s)?;
    if 4096 < padding {
        return Err(Refusal::CubeLayout);
    }
    Ok(padding)
}

// Reads a cbmp payload, its padding: 2, then 3, 4 and 5 in field order.
pub fn parse_cbmp(payload: &[u8]) -> Result<u32, Refusal>
    ensures { cbmp_says result ≡ limited payload.now (cbmp_read payload.now) }
{
    if 67_108_864 < payload.len() {
        return Err(Refusal::PayloadTooLong);
    }
    layout_then_padding(payload, full_box(payload)?)
}

// Writes a cbmp payload of 12 bytes at the front of a buffer: 5, then 12.
pub fn write_cbmp(padding: u32, out: &mut [u8]) -> Filled
    ensures answer { filled_says result
        ≡ answer_for (in_items 1 (cbmp_written padding)) (at_entry (out ∷ [])) }
    ensures buffers { out.new ∷ []
        ≡ buffers_after (in_items 1 (cbmp_written padding)) (at_entry (out ∷ [])) }
{
    if 4096 < padding {
        return Err(FillError::Refused(Refusal::CubeLayout));
    }
    let words = [0, 0, padding];
    fill_words(out, &words)
}
