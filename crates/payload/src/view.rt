// The viewer's small calls: stereo layouts, projections, texture windows, zoom and field of view.
ghost use Rattle.std.specs.Prelude.{◌≡◌};
ghost use Rattle.payload.specs.View.{layout_of, pair_of, projection_of, windowed, panoramic, patch_of};
ghost use Rattle.payload.specs.View.{window_of, mix_of, unusable, fov_for_zoom, zoom_for_fov};

use super::crop::Bounds;

// Limits on the field of view, in degrees of vertical angle.
pub const MIN_FOV_DEG: f32 = 10.0;

pub const MAX_FOV_DEG: f32 = 100.0;

// The vertical angle at which a panorama is life-size.
pub const DEFAULT_FOV_DEG: f32 = 25.76;

// How a frame holds the pictures of the two eyes.
#[derive(Clone, Copy, Debug, PartialEq, Eq)]
pub enum StereoLayout {
    Mono,
    OverUnder,
    SideBySide,
    Anaglyph,
    RowInterleaved,
}

impl From<u32> for StereoLayout {
    ghost from_gives = { λ v layout. layout ≡ layout_of v };

    fn from(v: u32) -> StereoLayout {
        match v {
            1 => StereoLayout::OverUnder,
            2 => StereoLayout::SideBySide,
            3 => StereoLayout::Anaglyph,
            4 => StereoLayout::RowInterleaved,
            _ => StereoLayout::Mono,
        }
    }
}

impl StereoLayout {
    pub fn from_raw(v: u32) -> StereoLayout
        ensures { result ≡ layout_of v }
    {
        v.into()
    }

    // Whether each eye's picture is a rectangle of the frame.
    pub fn is_windowed(self) -> bool
        ensures { result ≡ windowed self }
    {
        !matches!(self, StereoLayout::Anaglyph | StereoLayout::RowInterleaved)
    }
}

// The two colours of an anaglyph frame, the left eye's first.
#[derive(Clone, Copy, Debug, PartialEq, Eq)]
pub enum AnaglyphPair {
    RedCyan,
    GreenMagenta,
    YellowBlue,
}

impl From<u32> for AnaglyphPair {
    ghost from_gives = { λ v pair. pair ≡ pair_of v };

    fn from(v: u32) -> AnaglyphPair {
        match v {
            1 => AnaglyphPair::GreenMagenta,
            2 => AnaglyphPair::YellowBlue,
            _ => AnaglyphPair::RedCyan,
        }
    }
}

impl AnaglyphPair {
    pub fn from_raw(v: u32) -> AnaglyphPair
        ensures { result ≡ pair_of v }
    {
        v.into()
    }
}

// How much of the sphere a frame covers. A flat one stands in the room as a screen.
#[derive(Clone, Copy, Debug, PartialEq, Eq)]
pub enum Projection {
    Equirect360,
    Equirect180,
    Cubemap,
    Flat,
}

impl From<u32> for Projection {
    ghost from_gives = { λ v projection. projection ≡ projection_of v };

    fn from(v: u32) -> Projection {
        match v {
            1 => Projection::Equirect180,
            2 => Projection::Flat,
            3 => Projection::Cubemap,
            _ => Projection::Equirect360,
        }
    }
}

impl Projection {
    pub fn from_raw(v: u32) -> Projection
        ensures { result ≡ projection_of v }
    {
        v.into()
    }

    // Whether the picture goes around the viewer.
    pub fn is_panoramic(self) -> bool
        ensures { result ≡ panoramic self }
    {
        !matches!(self, Projection::Flat)
    }

    // The patch of the sphere that it is short for, if it is one.
    pub fn bounds(self) -> Option<Bounds>
        ensures { result ≡ patch_of self }
    {
        match self {
            Projection::Equirect360 => Some(Bounds::FULL),
            // The front half: a quarter of the sphere left out on each side.
            Projection::Equirect180 => Some(Bounds {
                top: 0.0,
                bottom: 0.0,
                left: 0.25,
                right: 0.25,
            }),
            Projection::Cubemap | Projection::Flat => None,
        }
    }
}

#[derive(Clone, Copy, Debug, PartialEq, Eq)]
pub enum Eye {
    Left,
    Right,
}

// u scale, u offset, v scale, v offset.
pub type UvWindow = [f32; 4];

// Red, green, blue.
pub type ChannelMix = [f32; 3];

// The part of the texture that an eye samples: u scale, u offset, v scale, v offset.
// v runs from the bottom up, so the left eye's upper half is the one with the offset.
pub fn uv_window(layout: StereoLayout, eye: Eye) -> UvWindow
    ensures { result ≡ window_of layout eye }
{
    match (layout, eye) {
        (StereoLayout::OverUnder, Eye::Left) => [1.0, 0.0, 0.5, 0.5],
        (StereoLayout::OverUnder, Eye::Right) => [1.0, 0.0, 0.5, 0.0],
        (StereoLayout::SideBySide, Eye::Left) => [0.5, 0.0, 1.0, 0.0],
        (StereoLayout::SideBySide, Eye::Right) => [0.5, 0.5, 1.0, 0.0],
        (StereoLayout::Mono | StereoLayout::Anaglyph | StereoLayout::RowInterleaved, _) => {
            [1.0, 0.0, 1.0, 0.0]
        }
    }
}

// How much of red, green and blue carries an eye's picture.
pub fn anaglyph_mix(pair: AnaglyphPair, eye: Eye) -> ChannelMix
    ensures { result ≡ mix_of pair eye }
{
    match (pair, eye) {
        (AnaglyphPair::RedCyan, Eye::Left) => [1.0, 0.0, 0.0],
        (AnaglyphPair::RedCyan, Eye::Right) => [0.0, 0.5, 0.5],
        (AnaglyphPair::GreenMagenta, Eye::Left) => [0.0, 1.0, 0.0],
        (AnaglyphPair::GreenMagenta, Eye::Right) => [0.5, 0.0, 0.5],
        (AnaglyphPair::YellowBlue, Eye::Left) => [0.5, 0.5, 0.0],
        (AnaglyphPair::YellowBlue, Eye::Right) => [0.0, 0.0, 1.0],
    }
}

// A NaN, an infinity, or not above 0.
fn is_unusable(x: f32) -> bool
    ensures { result ≡ unusable x }
{
    !x.is_finite() || x <= 0.0
}

// The vertical field of view, in degrees, at a zoom factor.
pub fn fov_for_zoom(zoom: f32) -> f32
    ensures { result ≡ fov_for_zoom zoom }
{
    if is_unusable(zoom) {
        return DEFAULT_FOV_DEG;
    }
    (DEFAULT_FOV_DEG / zoom).clamp(MIN_FOV_DEG, MAX_FOV_DEG)
}

// The zoom factor of a vertical field of view in degrees.
pub fn zoom_for_fov(fov: f32) -> f32
    ensures { result ≡ zoom_for_fov fov }
{
    if is_unusable(fov) {
        return 1.0;
    }
    DEFAULT_FOV_DEG / fov
}
