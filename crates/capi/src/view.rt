// The viewer's small calls. A layout, a pair and a projection come as their raw numbers, an eye as 0 for the left one.
// The numbers that C has are written here, variant by variant: a cast would follow the order of the declarations in
// `payload`, where a projection's is another. And no `From` fits: `impl From<u32> for Eye` has no type of this crate.
ghost use Rattle.std.specs.Prelude.{◌≡◌, map, pos};
ghost use Rattle.bits.specs.Verdict.{accepted};
ghost use Rattle.bits.specs.Float.{bits_of};
ghost use Rattle.payload.specs.View.{layout_of, pair_of, projection_of, windowed, panoramic, patch_of};
ghost use Rattle.payload.specs.View.{window_of, mix_of, fov_for_zoom, zoom_for_fov};
ghost use Rattle.capi.specs.Answer.{code_of, words_after, truth};
ghost use Rattle.capi.specs.Values.{layout_number, pair_number, projection_number, eye_of, patch_words};

use super::words::Words;
use super::{accept, flag, hand_out, word};
use payload::{AnaglyphPair, Eye, Projection, StereoLayout};

pub fn capi_layout_from_raw(v: u32) -> i64
    ensures { result ≡ pos (layout_number (layout_of v)) }
{
    match StereoLayout::from_raw(v) {
        StereoLayout::Mono => 0,
        StereoLayout::OverUnder => 1,
        StereoLayout::SideBySide => 2,
        StereoLayout::Anaglyph => 3,
        StereoLayout::RowInterleaved => 4,
    }
}

pub fn capi_pair_from_raw(v: u32) -> i64
    ensures { result ≡ pos (pair_number (pair_of v)) }
{
    match AnaglyphPair::from_raw(v) {
        AnaglyphPair::RedCyan => 0,
        AnaglyphPair::GreenMagenta => 1,
        AnaglyphPair::YellowBlue => 2,
    }
}

pub fn capi_projection_from_raw(v: u32) -> i64
    ensures { result ≡ pos (projection_number (projection_of v)) }
{
    match Projection::from_raw(v) {
        Projection::Equirect360 => 0,
        Projection::Equirect180 => 1,
        Projection::Flat => 2,
        Projection::Cubemap => 3,
    }
}

pub fn capi_is_windowed(layout: u32) -> i64
    ensures { result ≡ truth (windowed (layout_of layout)) }
{
    flag(StereoLayout::from_raw(layout).is_windowed())
}

pub fn capi_is_panoramic(projection: u32) -> i64
    ensures { result ≡ truth (panoramic (projection_of projection)) }
{
    flag(Projection::from_raw(projection).is_panoramic())
}

pub fn capi_projection_bounds(projection: u32, words: &mut [u64]) -> i64
    ensures answer { result ≡ code_of (accepted (patch_words (patch_of (projection_of projection)))) }
    ensures words { words.new
        ≡ words_after words.old (accepted (patch_words (patch_of (projection_of projection)))) }
{
    hand_out(words, Projection::from_raw(projection).bounds().accept())
}

fn eye_of(v: u32) -> Eye
    ensures { result ≡ eye_of v }
{
    if v == 0 { Eye::Left } else { Eye::Right }
}

pub fn capi_uv_window(layout: u32, eye: u32, words: &mut [u64]) -> i64
    ensures answer { result ≡ code_of (accepted (map bits_of (window_of (layout_of layout) (eye_of eye)))) }
    ensures words { words.new
        ≡ words_after words.old (accepted (map bits_of (window_of (layout_of layout) (eye_of eye)))) }
{
    let w = payload::uv_window(StereoLayout::from_raw(layout), eye_of(eye));
    hand_out(words, accept(&w.map(word)))
}

pub fn capi_anaglyph_mix(pair: u32, eye: u32, words: &mut [u64]) -> i64
    ensures answer { result ≡ code_of (accepted (map bits_of (mix_of (pair_of pair) (eye_of eye)))) }
    ensures words { words.new
        ≡ words_after words.old (accepted (map bits_of (mix_of (pair_of pair) (eye_of eye)))) }
{
    let m = payload::anaglyph_mix(AnaglyphPair::from_raw(pair), eye_of(eye));
    hand_out(words, accept(&m.map(word)))
}

pub fn capi_fov_for_zoom(zoom: f32) -> i64
    ensures { result ≡ pos (bits_of (fov_for_zoom zoom)) }
{
    bits::float_bits(payload::fov_for_zoom(zoom)) as i64
}

pub fn capi_zoom_for_fov(fov: f32) -> i64
    ensures { result ≡ pos (bits_of (zoom_for_fov fov)) }
{
    bits::float_bits(payload::zoom_for_fov(fov)) as i64
}
