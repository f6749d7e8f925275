// The calls of the byte cursor, four bytes as a word, and box headers.
ghost use Rattle.std.specs.Prelude.{◌≡◌, ◌+◌, ◌-◌, ◌*◌, ◌^◌, length, pos};
ghost use Rattle.bits.specs.Verdict.{accepted, and_then, mapped};
ghost use Rattle.bits.specs.Read.{number_at, place_in};
ghost use Rattle.bits.specs.Header.{header_at, placed};
ghost use Rattle.capi.specs.Answer.{code_of, words_after, one, two};

#[unsafe(no_mangle)]
pub extern "C" fn capi_byte_new(words: &mut [u64]) -> i64
    ensures answer { result ≡ code_of (accepted (one 0)) }
    ensures words { words.new ≡ words_after words.old (accepted (one 0)) }
{
    capi::bytes::capi_byte_new(words)
}

#[unsafe(no_mangle)]
pub extern "C" fn capi_position(at: usize, words: &mut [u64]) -> i64
    ensures answer { result ≡ code_of (accepted (one at)) }
    ensures words { words.new ≡ words_after words.old (accepted (one at)) }
{
    capi::bytes::capi_position(at, words)
}

#[unsafe(no_mangle)]
pub extern "C" fn capi_remaining(s: &[u8], at: usize, words: &mut [u64]) -> i64
    ensures answer { result ≡ code_of (accepted (one (length s.now - at))) }
    ensures words { words.new
        ≡ words_after words.old (accepted (one (length s.now - at))) }
{
    capi::bytes::capi_remaining(s, at, words)
}

#[unsafe(no_mangle)]
pub extern "C" fn capi_seek(s: &[u8], at: usize, to: usize, words: &mut [u64]) -> i64
    ensures answer { result ≡ code_of (mapped one (place_in s.now to)) }
    ensures words { words.new
        ≡ words_after words.old (mapped one (place_in s.now to)) }
{
    capi::bytes::capi_seek(s, at, to, words)
}

#[unsafe(no_mangle)]
pub extern "C" fn capi_skip(s: &[u8], at: usize, n: usize, words: &mut [u64]) -> i64
    ensures answer { result ≡ code_of (mapped one (place_in s.now (at + n))) }
    ensures words { words.new
        ≡ words_after words.old (mapped one (place_in s.now (at + n))) }
{
    capi::bytes::capi_skip(s, at, n, words)
}

#[unsafe(no_mangle)]
pub extern "C" fn capi_u8(s: &[u8], at: usize, words: &mut [u64]) -> i64
    ensures answer { result ≡ code_of (mapped two (number_at 1 s.now at)) }
    ensures words { words.new
        ≡ words_after words.old (mapped two (number_at 1 s.now at)) }
{
    capi::bytes::capi_u8(s, at, words)
}

#[unsafe(no_mangle)]
pub extern "C" fn capi_u32(s: &[u8], at: usize, words: &mut [u64]) -> i64
    ensures answer { result ≡ code_of (mapped two (number_at 4 s.now at)) }
    ensures words { words.new
        ≡ words_after words.old (mapped two (number_at 4 s.now at)) }
{
    capi::bytes::capi_u32(s, at, words)
}

#[unsafe(no_mangle)]
pub extern "C" fn capi_header(s: &[u8], at: usize, words: &mut [u64]) -> i64
    ensures answer { result ≡ code_of (and_then (header_at s.now at) placed) }
    ensures words { words.new
        ≡ words_after words.old (and_then (header_at s.now at) placed) }
{
    capi::bytes::capi_header(s, at, words)
}

#[unsafe(no_mangle)]
pub extern "C" fn capi_word_of(a: u8, b: u8, c: u8, d: u8) -> i64
    ensures { result ≡ pos (a * 2 ^ 24 + b * 2 ^ 16 + c * 2 ^ 8 + d) }
{
    capi::bytes::capi_word_of(a, b, c, d)
}
