// Kind 0: the equi payload, how much of the sphere is missing at each edge.
ghost use Rattle.std.specs.Prelude.{◌≡◌, [], ◌∷◌};
ghost use Rattle.bits.specs.Verdict.{mapped};
ghost use Rattle.payload.specs.Fill.{filled_says};
ghost use Rattle.payload.specs.Lent.{in_items, answer_for, buffers_after, at_entry};
ghost use Rattle.bits.specs.Verdict.{limited};
ghost use Rattle.payload.specs.Equi.{crop_of, four_words, equi_fields, equi_usable, equi_read, with_crop};
ghost use Rattle.payload.specs.Equi.{equi_read_says, equi_says, equi_written};

use super::answers::Filled;
use super::crop::Bounds;
use super::full_box::full_box;
use super::words::fill_words;
use bits::{ByteCursor, FillError, Refusal};

// The four fields, each a fraction of 32 bits.
#[derive(Clone, Copy)]
pub struct EquiFields {
    pub t: u32,
    pub b: u32,
    pub l: u32,
    pub r: u32,
}

impl EquiFields {
    pub fn crop(self) -> Bounds
        ensures { result ≡ crop_of self }
    {
        Bounds {
            top: bits::scale(self.t),
            bottom: bits::scale(self.b),
            left: bits::scale(self.l),
            right: bits::scale(self.r),
        }
    }
}

fn four_words(s: &[u8], start: ByteCursor) -> Result<EquiFields, Refusal>
    ensures { equi_read_says result ≡ four_words s.now start.at }
{
    let (t, after_t) = start.u32(s)?;
    let (b, after_b) = after_t.u32(s)?;
    let (l, after_l) = after_b.u32(s)?;
    let (r, _) = after_l.u32(s)?;
    Ok(EquiFields { t, b, l, r })
}

// The fields of a payload, whatever crop they make.
fn equi_fields(s: &[u8]) -> Result<EquiFields, Refusal>
    ensures { equi_read_says result ≡ equi_fields s.now }
{
    four_words(s, full_box(s)?)
}

// The fields with their crop, which must be usable.
fn judged(fields: EquiFields) -> Result<(EquiFields, Bounds), Refusal>
    ensures { equi_says result ≡ mapped with_crop (equi_usable fields) }
{
    let crop = fields.crop();
    if crop.is_usable() {
        return Ok((fields, crop));
    }
    Err(Refusal::Crop)
}

// Reads an equi payload, and its crop: 2, then 3 and 4 in field order, then 10.
pub fn parse_equi(payload: &[u8]) -> Result<(EquiFields, Bounds), Refusal>
    ensures { equi_says result ≡ limited payload.now (mapped with_crop (equi_read payload.now)) }
{
    if 67_108_864 < payload.len() {
        return Err(Refusal::PayloadTooLong);
    }
    judged(equi_fields(payload)?)
}

// Writes an equi payload of 20 bytes at the front of a buffer: 10, then 12.
pub fn write_equi(fields: EquiFields, out: &mut [u8]) -> Filled
    ensures answer { filled_says result
        ≡ answer_for (in_items 1 (equi_written fields)) (at_entry (out ∷ [])) }
    ensures buffers { out.new ∷ []
        ≡ buffers_after (in_items 1 (equi_written fields)) (at_entry (out ∷ [])) }
{
    if !fields.crop().is_usable() {
        return Err(FillError::Refused(Refusal::Crop));
    }
    let words = [0, fields.t, fields.b, fields.l, fields.r];
    fill_words(out, &words)
}
