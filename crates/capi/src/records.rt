// The calls on the records of a drawing.
ghost use Rattle.std.specs.Prelude.{◌≡◌, [], ◌∷◌};
ghost use Rattle.bits.specs.Verdict.{mapped};
ghost use Rattle.payload.specs.Lent.{in_items, answer_for, buffers_after, at_entry};
ghost use Rattle.display.specs.Triangles.{triangles_made};
ghost use Rattle.capi.specs.Answer.{code_of, words_after, one};

use super::hand_out;
use super::words::fill_reply;

pub fn capi_triangles(records: &[u32], out: &mut [u32], words: &mut [u64]) -> i64
    ensures answer { result ≡ code_of (mapped one
        (answer_for (in_items 1 (triangles_made records.now)) (at_entry (out ∷ [])))) }
    ensures words { words.new ≡ words_after words.old (mapped one
        (answer_for (in_items 1 (triangles_made records.now)) (at_entry (out ∷ [])))) }
    ensures buffers { out.new ∷ []
        ≡ buffers_after (in_items 1 (triangles_made records.now)) (at_entry (out ∷ [])) }
{
    hand_out(words, fill_reply(display::triangles(records, out)))
}
