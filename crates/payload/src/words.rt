// Words put at the front of a lent buffer, one after the other, big end first.
ghost use Rattle.std.specs.Prelude.{◌≡◌, ◌*◌, ◌≤◌, [], ◌∷◌, length};
ghost use Rattle.std.proofs.lemmas.List.Edits.{sets};
ghost use Rattle.bits.specs.Verdict.{accepted};
ghost use Rattle.payload.specs.Fill.{filled_says};
ghost use Rattle.payload.specs.Lent.{in_items, answer_for, buffers_after, at_entry};
ghost use Rattle.payload.specs.Words.{word_bytes};

use super::answers::Filled;
use bits::FillError;

fn put_words(out: &mut [u8], words: &[u32])
    requires { 4 * length words.now ≤ length out.old }
    ensures { out.new ≡ sets out.old 0 (word_bytes words.now) }
{
    for (i, word) in words.iter().enumerate() {
        bits::put_word(out, 4 * i, *word).unwrap();
    }
}

// Fills the front of the buffer where the words fit.
pub(crate) fn fill_words(out: &mut [u8], words: &[u32]) -> Filled
    ensures answer { filled_says result
        ≡ answer_for (in_items 1 (accepted (word_bytes words.now))) (at_entry (out ∷ [])) }
    ensures buffers { out.new ∷ []
        ≡ buffers_after (in_items 1 (accepted (word_bytes words.now))) (at_entry (out ∷ [])) }
{
    let n = 4 * words.len();
    if out.len() < n {
        return Err(FillError::Needs(n));
    }
    put_words(out, words);
    Ok(n)
}
