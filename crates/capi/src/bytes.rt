// The calls of the byte cursor, four bytes as a word, and box headers.
ghost use Rattle.std.specs.Prelude.{◌≡◌, ◌+◌, ◌-◌, ◌*◌, ◌^◌, length, pos};
ghost use Rattle.bits.specs.Verdict.{accepted, and_then, mapped};
ghost use Rattle.bits.specs.Read.{number_at, place_in};
ghost use Rattle.bits.specs.Header.{header_at, placed, header_says};
ghost use Rattle.capi.specs.Answer.{code_of, words_after, one, two};
ghost use Rattle.capi.specs.Reply.{Says};

use super::words::{Words, reply};
use super::{Reply, accept, decline, hand_out};
use bits::{BoxHeader, ByteCursor, Refusal};

fn of_header(x: BoxHeader) -> Reply
    ensures { Says result (and_then (header_says x) placed) }
{
    match x {
        BoxHeader::Header { fourcc, body, end } => {
            accept(&[fourcc as u64, body as u64, end as u64])
        }
        BoxHeader::ListEnd => accept(&[]),
        BoxHeader::BadSize => decline(Refusal::BoxSize),
        BoxHeader::Refused { fourcc: _, refusal } => decline(refusal),
    }
}

pub fn capi_byte_new(words: &mut [u64]) -> i64
    ensures answer { result ≡ code_of (accepted (one 0)) }
    ensures words { words.new ≡ words_after words.old (accepted (one 0)) }
{
    hand_out(words, ByteCursor::new().accept())
}

pub fn capi_position(at: usize, words: &mut [u64]) -> i64
    ensures answer { result ≡ code_of (accepted (one at)) }
    ensures words { words.new ≡ words_after words.old (accepted (one at)) }
{
    hand_out(words, ByteCursor { at }.position().accept())
}

pub fn capi_remaining(s: &[u8], at: usize, words: &mut [u64]) -> i64
    ensures answer { result ≡ code_of (accepted (one (length s.now - at))) }
    ensures words { words.new
        ≡ words_after words.old (accepted (one (length s.now - at))) }
{
    hand_out(words, ByteCursor { at }.remaining(s).accept())
}

pub fn capi_seek(s: &[u8], at: usize, to: usize, words: &mut [u64]) -> i64
    ensures answer { result ≡ code_of (mapped one (place_in s.now to)) }
    ensures words { words.new
        ≡ words_after words.old (mapped one (place_in s.now to)) }
{
    hand_out(words, reply(ByteCursor { at }.seek(s, to)))
}

pub fn capi_skip(s: &[u8], at: usize, n: usize, words: &mut [u64]) -> i64
    ensures answer { result ≡ code_of (mapped one (place_in s.now (at + n))) }
    ensures words { words.new
        ≡ words_after words.old (mapped one (place_in s.now (at + n))) }
{
    hand_out(words, reply(ByteCursor { at }.skip(s, n)))
}

pub fn capi_u8(s: &[u8], at: usize, words: &mut [u64]) -> i64
    ensures answer { result ≡ code_of (mapped two (number_at 1 s.now at)) }
    ensures words { words.new
        ≡ words_after words.old (mapped two (number_at 1 s.now at)) }
{
    hand_out(words, reply(ByteCursor { at }.u8(s)))
}

pub fn capi_u32(s: &[u8], at: usize, words: &mut [u64]) -> i64
    ensures answer { result ≡ code_of (mapped two (number_at 4 s.now at)) }
    ensures words { words.new
        ≡ words_after words.old (mapped two (number_at 4 s.now at)) }
{
    hand_out(words, reply(ByteCursor { at }.u32(s)))
}

pub fn capi_header(s: &[u8], at: usize, words: &mut [u64]) -> i64
    ensures answer { result ≡ code_of (and_then (header_at s.now at) placed) }
    ensures words { words.new
        ≡ words_after words.old (and_then (header_at s.now at) placed) }
{
    hand_out(words, of_header(bits::box_header(s, ByteCursor { at })))
}

pub fn capi_word_of(a: u8, b: u8, c: u8, d: u8) -> i64
    ensures { result ≡ pos (a * 2 ^ 24 + b * 2 ^ 16 + c * 2 ^ 8 + d) }
{
    bits::word_of(a, b, c, d) as i64
}
