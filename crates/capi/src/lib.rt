// The C interface: every public call of `bits`, `payload`, `scene`, `display` and `alignment` as a function on numbers
// and slices. `capi_c` makes C functions of them, and a Rattle crate can call them here.
//
// A slice crosses as a pointer and the count of its items. A float in a buffer, among the words or as an answer is its
// bits. A call answers an i64. One that is lent a slice of words answers
//   n, at least 0: the value is the first n words;
//   -12: a lent buffer is too short, and the first words are the lengths that the lent buffers need, in their order;
//   -k: refusal k, and no words.
// Words that do not fit are not stored: eight words are always enough. A call that is lent no words answers its value
// itself, 1 or 0 for yes or no, and -k for refusal k; `capi_zigzag`, which refuses nothing, may answer below 0.
// Each contract is an equation with the definitions that the call's own contract cites, put into words by
// specs/Answer.antt, Values.antt, ShownLists.antt and Scene.antt.
#![tactic(auto, unfolding(crate::specs::Answer::code_of, crate::specs::Answer::words_after))]

ghost use Rattle.std.specs.Prelude.{◌≡◌, ◌≤◌, length, neg_ℤ, pos};
ghost use Rattle.bits.specs.Verdict.{accepted, declined};
ghost use Rattle.bits.specs.Float.{bits_of};
ghost use Rattle.bits.specs.Says.{number_of};
ghost use Rattle.capi.specs.Answer.{stored, truth};
ghost use Rattle.capi.specs.Reply.{Holds, Says, used_words};
ghost use Rattle.capi.specs.Values.{side_words};

use bits::Refusal;
use payload::Bounds;

pub mod alignment_calls;
pub mod bytes;
pub mod counts;
pub mod crops;
pub mod fields;
pub mod grids;
pub mod meshes;
pub mod numbers;
pub mod put;
pub mod records;
pub mod runs;
pub mod scene_call;
pub mod shares;
pub mod shown;
pub mod view;
mod words;

// What a call answered: the i64, and the words that go with it. An array with how many of it count: no heap, and no
// answer has more than eight words.
#[derive(Clone, Copy)]
struct Reply {
    code: i64,
    words: [u64; 8],
    used: usize,
}

// Stores words from place 0 on, where they fit.
fn store(words: &mut [u64], given: &[u64])
    ensures { words.new ≡ stored words.old given.now }
{
    if given.len() <= words.len() {
        words[..given.len()].copy_from_slice(given);
    }
}

// Answers a reply, and stores its words where they fit.
fn hand_out(words: &mut [u64], reply: Reply) -> i64
    requires { reply.used ≤ length reply.words }
    ensures answer { result ≡ reply.code }
    ensures words { words.new ≡ stored words.old (used_words reply) }
{
    store(words, &reply.words[..reply.used]);
    reply.code
}

// A code with the words that go with it.
fn with_words(code: i64, given: &[u64]) -> Reply
    requires { length given.now ≤ 8 }
    ensures { Holds result code given.now }
{
    let mut words = [0u64; 8];
    store(&mut words, given);
    Reply {
        code,
        words,
        used: given.len(),
    }
}

// A value, in at most eight words.
fn accept(given: &[u64]) -> Reply
    requires { length given.now ≤ 8 }
    ensures { Says result (accepted given.now) }
{
    with_words(given.len() as i64, given)
}

// A refusal as a number below 0.
fn below(refusal: Refusal) -> i64
    ensures { result ≡ neg_ℤ (pos (number_of refusal)) }
{
    -(refusal.number() as i64)
}

// The number of a refusal.
fn decline(refusal: Refusal) -> Reply
    ensures { Says result (declined (number_of refusal)) }
{
    with_words(below(refusal), &[])
}

fn flag(x: bool) -> i64
    ensures { result ≡ truth x }
{
    x as i64
}

// A float as a word.
fn word(x: f32) -> u64
    ensures { result ≡ bits_of x }
{
    bits::float_bits(x) as u64
}

// A crop as words.
fn side_words(b: Bounds) -> [u64; 4]
    ensures { result ≡ side_words b }
{
    [word(b.top), word(b.bottom), word(b.left), word(b.right)]
}
