// The calls on numbers and floats.
ghost use Rattle.std.specs.Prelude.{◌≡◌, pos};
ghost use Rattle.bits.specs.Verdict.{accepted};
ghost use Rattle.bits.specs.Number.{meaning, stepped_to, ran_on, width_of};
ghost use Rattle.bits.specs.Float.{nearest, scaled, bits_of};
ghost use Rattle.capi.specs.Answer.{code_of, words_after, one, numbered};

#[unsafe(no_mangle)]
pub extern "C" fn capi_zigzag(n: u32) -> i64
    ensures { result ≡ meaning n }
{
    capi::numbers::capi_zigzag(n)
}

#[unsafe(no_mangle)]
pub extern "C" fn capi_stepped(last: u32, field: u32, words: &mut [u64]) -> i64
    ensures answer { result ≡ code_of (accepted (one (stepped_to last field))) }
    ensures words { words.new
        ≡ words_after words.old (accepted (one (stepped_to last field))) }
{
    capi::numbers::capi_stepped(last, field, words)
}

#[unsafe(no_mangle)]
pub extern "C" fn capi_run_on(last: u32, field: u32, limit: u32) -> i64
    ensures { result ≡ numbered (ran_on limit last field) }
{
    capi::numbers::capi_run_on(last, field, limit)
}

#[unsafe(no_mangle)]
pub extern "C" fn capi_bit_width(count: u32) -> i64
    ensures { result ≡ pos (width_of count) }
{
    capi::numbers::capi_bit_width(count)
}

#[unsafe(no_mangle)]
pub extern "C" fn capi_nearest(v: u32) -> i64
    ensures { result ≡ pos (bits_of (nearest v)) }
{
    capi::numbers::capi_nearest(v)
}

#[unsafe(no_mangle)]
pub extern "C" fn capi_scale(v: u32) -> i64
    ensures { result ≡ pos (bits_of (scaled v)) }
{
    capi::numbers::capi_scale(v)
}

#[unsafe(no_mangle)]
pub extern "C" fn capi_float_bits(x: f32) -> i64
    ensures { result ≡ pos (bits_of x) }
{
    capi::numbers::capi_float_bits(x)
}
