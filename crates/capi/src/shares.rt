// A frame's points shared out among windows.
ghost use Rattle.std.specs.Prelude.{◌≡◌, [], ◌∷◌};
ghost use Rattle.bits.specs.Verdict.{mapped};
ghost use Rattle.payload.specs.Lent.{in_items, answer_for, buffers_after, at_entry};
ghost use Rattle.display.specs.Turns.{sharing};
ghost use Rattle.capi.specs.Answer.{code_of, words_after, one};

use super::hand_out;
use super::words::fill_reply;

pub fn capi_share_points(points: u32, wishes: &[u32], shares: &mut [u32], words: &mut [u64]) -> i64
    ensures answer { result ≡ code_of (mapped one
        (answer_for (in_items 1 (sharing points wishes.now)) (at_entry (shares ∷ [])))) }
    ensures words { words.new ≡ words_after words.old (mapped one
        (answer_for (in_items 1 (sharing points wishes.now)) (at_entry (shares ∷ [])))) }
    ensures buffers { shares.new ∷ []
        ≡ buffers_after (in_items 1 (sharing points wishes.now)) (at_entry (shares ∷ [])) }
{
    hand_out(
        words,
        fill_reply(display::share_points(points, wishes, shares)),
    )
}
