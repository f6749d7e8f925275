// The viewer's small calls. A layout, a pair and a projection come as their raw numbers, an eye as 0 for the left one.
ghost use Rattle.std.specs.Prelude.{◌≡◌, map, pos};
ghost use Rattle.bits.specs.Verdict.{accepted};
ghost use Rattle.bits.specs.Float.{bits_of};
ghost use Rattle.payload.specs.View.{layout_of, pair_of, projection_of, windowed, panoramic, patch_of};
ghost use Rattle.payload.specs.View.{window_of, mix_of, fov_for_zoom, zoom_for_fov};
ghost use Rattle.capi.specs.Answer.{code_of, words_after, truth};
ghost use Rattle.capi.specs.Values.{layout_number, pair_number, projection_number, eye_of, patch_words};

#[unsafe(no_mangle)]
pub extern "C" fn capi_layout_from_raw(v: u32) -> i64
    ensures { result ≡ pos (layout_number (layout_of v)) }
{
    capi::view::capi_layout_from_raw(v)
}

#[unsafe(no_mangle)]
pub extern "C" fn capi_pair_from_raw(v: u32) -> i64
    ensures { result ≡ pos (pair_number (pair_of v)) }
{
    capi::view::capi_pair_from_raw(v)
}

#[unsafe(no_mangle)]
pub extern "C" fn capi_projection_from_raw(v: u32) -> i64
    ensures { result ≡ pos (projection_number (projection_of v)) }
{
    capi::view::capi_projection_from_raw(v)
}

#[unsafe(no_mangle)]
pub extern "C" fn capi_is_windowed(layout: u32) -> i64
    ensures { result ≡ truth (windowed (layout_of layout)) }
{
    capi::view::capi_is_windowed(layout)
}

#[unsafe(no_mangle)]
pub extern "C" fn capi_is_panoramic(projection: u32) -> i64
    ensures { result ≡ truth (panoramic (projection_of projection)) }
{
    capi::view::capi_is_panoramic(projection)
}

#[unsafe(no_mangle)]
pub extern "C" fn capi_projection_bounds(projection: u32, words: &mut [u64]) -> i64
    ensures answer { result ≡ code_of (accepted (patch_words (patch_of (projection_of projection)))) }
    ensures words { words.new
        ≡ words_after words.old (accepted (patch_words (patch_of (projection_of projection)))) }
{
    capi::view::capi_projection_bounds(projection, words)
}

#[unsafe(no_mangle)]
pub extern "C" fn capi_uv_window(layout: u32, eye: u32, words: &mut [u64]) -> i64
    ensures answer { result ≡ code_of (accepted (map bits_of (window_of (layout_of layout) (eye_of eye)))) }
    ensures words { words.new
        ≡ words_after words.old (accepted (map bits_of (window_of (layout_of layout) (eye_of eye)))) }
{
    capi::view::capi_uv_window(layout, eye, words)
}

#[unsafe(no_mangle)]
pub extern "C" fn capi_anaglyph_mix(pair: u32, eye: u32, words: &mut [u64]) -> i64
    ensures answer { result ≡ code_of (accepted (map bits_of (mix_of (pair_of pair) (eye_of eye)))) }
    ensures words { words.new
        ≡ words_after words.old (accepted (map bits_of (mix_of (pair_of pair) (eye_of eye)))) }
{
    capi::view::capi_anaglyph_mix(pair, eye, words)
}

#[unsafe(no_mangle)]
pub extern "C" fn capi_fov_for_zoom(zoom: f32) -> i64
    ensures { result ≡ pos (bits_of (fov_for_zoom zoom)) }
{
    capi::view::capi_fov_for_zoom(zoom)
}

#[unsafe(no_mangle)]
pub extern "C" fn capi_zoom_for_fov(fov: f32) -> i64
    ensures { result ≡ pos (bits_of (zoom_for_fov fov)) }
{
    capi::view::capi_zoom_for_fov(fov)
}
