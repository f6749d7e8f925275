// The calls of the bit cursor, and a sum of fields.
ghost use Rattle.std.specs.Prelude.{◌≡◌, ◌+◌, ◌*◌, ◌/◌};
ghost use Rattle.bits.specs.Verdict.{accepted, mapped};
ghost use Rattle.bits.specs.Field.{capped};
ghost use Rattle.bits.specs.Read.{field_at, two_at};
ghost use Rattle.capi.specs.Answer.{code_of, words_after, one, two, three};
ghost use Rattle.capi.specs.Total.{total_of, wrapped};

#[unsafe(no_mangle)]
pub extern "C" fn capi_bit_new(byte_offset: usize, words: &mut [u64]) -> i64
    ensures answer { result ≡ code_of (accepted (one (capped (8 * byte_offset)))) }
    ensures words { words.new
        ≡ words_after words.old (accepted (one (capped (8 * byte_offset)))) }
{
    capi::fields::capi_bit_new(byte_offset, words)
}

#[unsafe(no_mangle)]
pub extern "C" fn capi_align(bit: usize, words: &mut [u64]) -> i64
    ensures answer { result ≡ code_of (accepted (one (capped (8 * ((bit + 7) / 8))))) }
    ensures words { words.new
        ≡ words_after words.old (accepted (one (capped (8 * ((bit + 7) / 8))))) }
{
    capi::fields::capi_align(bit, words)
}

#[unsafe(no_mangle)]
pub extern "C" fn capi_read(s: &[u8], bit: usize, width: u32, words: &mut [u64]) -> i64
    ensures answer { result ≡ code_of (mapped two (field_at s.now bit width)) }
    ensures words { words.new
        ≡ words_after words.old (mapped two (field_at s.now bit width)) }
{
    capi::fields::capi_read(s, bit, width, words)
}

#[unsafe(no_mangle)]
pub extern "C" fn capi_read_two(s: &[u8], bit: usize, width: u32, words: &mut [u64]) -> i64
    ensures answer { result ≡ code_of (mapped three (two_at s.now bit width)) }
    ensures words { words.new
        ≡ words_after words.old (mapped three (two_at s.now bit width)) }
{
    capi::fields::capi_read_two(s, bit, width, words)
}

#[unsafe(no_mangle)]
pub extern "C" fn capi_sum_fields(s: &[u8], width: u32, count: u64, words: &mut [u64]) -> i64
    ensures answer { result ≡ code_of (mapped wrapped (total_of s.now width count)) }
    ensures words { words.new
        ≡ words_after words.old (mapped wrapped (total_of s.now width count)) }
{
    capi::fields::capi_sum_fields(s, width, count, words)
}
