// The calls of the alignment bench.
ghost use Rattle.std.specs.Prelude.{◌≡◌, [], ◌∷◌};
ghost use Rattle.bits.specs.Verdict.{mapped};
ghost use Rattle.payload.specs.Lent.{answer_for, buffers_after, at_entry};
ghost use Rattle.alignment.specs.LookUp.{looked_up};
ghost use Rattle.capi.specs.Answer.{code_of, words_after, one};

use super::hand_out;
use super::words::fill_reply;

pub fn capi_look_up(
    payload: &[u8],
    number: u32,
    asked: &[u32],
    vertices: &mut [u16],
    words: &mut [u64],
) -> i64
    ensures answer { result ≡ code_of (mapped one
        (answer_for (looked_up payload.now number asked.now) (at_entry (vertices ∷ [])))) }
    ensures words { words.new ≡ words_after words.old (mapped one
        (answer_for (looked_up payload.now number asked.now) (at_entry (vertices ∷ [])))) }
    ensures buffers { vertices.new ∷ []
        ≡ buffers_after (looked_up payload.now number asked.now) (at_entry (vertices ∷ [])) }
{
    hand_out(
        words,
        fill_reply(alignment::look_up(payload, number, asked, vertices)),
    )
}
