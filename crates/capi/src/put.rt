// The calls that write.
ghost use Rattle.std.specs.Prelude.{◌≡◌};
ghost use Rattle.bits.specs.Verdict.{mapped};
ghost use Rattle.bits.specs.Put.{word_put, word_put_answer, field_put, field_put_answer};
ghost use Rattle.capi.specs.Answer.{code_of, words_after, none};

use super::hand_out;
use super::words::fill_reply;

pub fn capi_put_word(out: &mut [u8], at: usize, x: u32, words: &mut [u64]) -> i64
    ensures answer { result ≡ code_of (mapped none (word_put_answer out.old at)) }
    ensures words { words.new
        ≡ words_after words.old (mapped none (word_put_answer out.old at)) }
    ensures out_after { out.new ≡ word_put out.old at x }
{
    hand_out(words, fill_reply(bits::put_word(out, at, x)))
}

pub fn capi_put_field(out: &mut [u8], bit: usize, width: u32, value: u32, words: &mut [u64]) -> i64
    ensures answer { result ≡ code_of (mapped none (field_put_answer out.old bit width)) }
    ensures words { words.new
        ≡ words_after words.old (mapped none (field_put_answer out.old bit width)) }
    ensures out_after { out.new ≡ field_put out.old bit width value }
{
    hand_out(words, fill_reply(bits::put_field(out, bit, width, value)))
}
