// A crop of the sphere: how much of it a frame leaves out on each side.
ghost use Rattle.std.specs.Prelude.{◌≡◌};
ghost use Rattle.payload.specs.Crop.{side_usable, usable};

#[derive(Clone, Copy)]
pub struct Bounds {
    pub top: f32,
    pub bottom: f32,
    pub left: f32,
    pub right: f32,
}

// Finite, at least 0 and below 1: the two comparisons fail for a NaN and for the infinities.
fn side_usable(x: f32) -> bool
    ensures { result ≡ side_usable x }
{
    (0.0 <= x) & (x < 1.0)
}

impl Bounds {
    // The whole sphere.
    pub const FULL: Bounds = Bounds {
        top: 0.0,
        bottom: 0.0,
        left: 0.0,
        right: 0.0,
    };

    // Whether the crop leaves anything to draw. The sums are rounded to f32.
    pub fn is_usable(self) -> bool
        ensures { result ≡ usable self }
    {
        let t = self.top;
        let b = self.bottom;
        let l = self.left;
        let r = self.right;
        side_usable(t)
            & side_usable(b)
            & side_usable(l)
            & side_usable(r)
            & (t + b < 1.0)
            & (l + r < 1.0)
    }
}
