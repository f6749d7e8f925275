// The calls on crops, and the readers and writers of equi and cbmp payloads.
ghost use Rattle.std.specs.Prelude.{◌≡◌, [], ◌∷◌};
ghost use Rattle.bits.specs.Verdict.{accepted, mapped, limited};
ghost use Rattle.payload.specs.Lent.{in_items, answer_for, buffers_after, at_entry};
ghost use Rattle.payload.specs.Crop.{usable};
ghost use Rattle.payload.specs.Equi.{crop_of, equi_read, with_crop, equi_written};
ghost use Rattle.payload.specs.Cbmp.{cbmp_read, cbmp_written};
ghost use Rattle.capi.specs.Answer.{code_of, words_after, one, truth};
ghost use Rattle.capi.specs.Values.{sides, side_words, fields, reading};

use super::words::{Words, fill_reply, reply};
use super::{flag, hand_out};
use payload::{Bounds, EquiFields};

pub fn capi_is_usable(top: f32, bottom: f32, left: f32, right: f32) -> i64
    ensures { result ≡ truth (usable (sides top bottom left right)) }
{
    let crop = Bounds {
        top,
        bottom,
        left,
        right,
    };
    flag(crop.is_usable())
}

pub fn capi_equi_crop(t: u32, b: u32, l: u32, r: u32, words: &mut [u64]) -> i64
    ensures answer { result ≡ code_of (accepted (side_words (crop_of (fields t b l r)))) }
    ensures words { words.new
        ≡ words_after words.old (accepted (side_words (crop_of (fields t b l r)))) }
{
    hand_out(words, EquiFields { t, b, l, r }.crop().accept())
}

pub fn capi_parse_equi(payload: &[u8], words: &mut [u64]) -> i64
    ensures answer { result ≡ code_of (mapped reading
        (limited payload.now (mapped with_crop (equi_read payload.now)))) }
    ensures words { words.new ≡ words_after words.old
        (mapped reading (limited payload.now (mapped with_crop (equi_read payload.now)))) }
{
    hand_out(words, reply(payload::parse_equi(payload)))
}

pub fn capi_write_equi(t: u32, b: u32, l: u32, r: u32, out: &mut [u8], words: &mut [u64]) -> i64
    ensures answer { result ≡ code_of (mapped one
        (answer_for (in_items 1 (equi_written (fields t b l r))) (at_entry (out ∷ [])))) }
    ensures words { words.new ≡ words_after words.old (mapped one
        (answer_for (in_items 1 (equi_written (fields t b l r))) (at_entry (out ∷ [])))) }
    ensures buffers { out.new ∷ []
        ≡ buffers_after (in_items 1 (equi_written (fields t b l r))) (at_entry (out ∷ [])) }
{
    hand_out(
        words,
        fill_reply(payload::write_equi(EquiFields { t, b, l, r }, out)),
    )
}

pub fn capi_parse_cbmp(payload: &[u8], words: &mut [u64]) -> i64
    ensures answer { result
        ≡ code_of (mapped one (limited payload.now (cbmp_read payload.now))) }
    ensures words { words.new
        ≡ words_after words.old
        (mapped one (limited payload.now (cbmp_read payload.now))) }
{
    hand_out(words, reply(payload::parse_cbmp(payload)))
}

pub fn capi_write_cbmp(padding: u32, out: &mut [u8], words: &mut [u64]) -> i64
    ensures answer { result ≡ code_of (mapped one
        (answer_for (in_items 1 (cbmp_written padding)) (at_entry (out ∷ [])))) }
    ensures words { words.new ≡ words_after words.old (mapped one
        (answer_for (in_items 1 (cbmp_written padding)) (at_entry (out ∷ [])))) }
    ensures buffers { out.new ∷ []
        ≡ buffers_after (in_items 1 (cbmp_written padding)) (at_entry (out ∷ [])) }
{
    hand_out(words, fill_reply(payload::write_cbmp(padding, out)))
}
