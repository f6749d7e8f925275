// The sphere's grid of rings and sectors, and the patch of it that a crop leaves.
ghost use Rattle.std.specs.Prelude.{◌≡◌, ◌+◌, ◌*◌, ◌<◌, ◌≤◌, false, true, length, IfOk, MatchResult};
ghost use Rattle.bits.specs.Says.{says};
ghost use Rattle.payload.specs.Sphere.{grid_usable, grid_triangles, sphere_numbers};

use super::crop::Bounds;
use bits::Refusal;

// A closed surface whose vertex numbers fit a u16.
#[derive(Clone, Copy)]
pub(crate) struct Grid {
    pub(crate) rings: u32,
    pub(crate) sectors: u32,
    ghost usable: { grid_usable rings sectors ≡ true },
}

impl Grid {
    pub(crate) fn new(rings: u32, sectors: u32) -> Result<Grid, Refusal>
        ensures { MatchResult result (λ g. (g.rings ≡ rings) × (g.sectors ≡ sectors))
            (λ e. (e ≡ Refusal.Grid) × (grid_usable rings sectors ≡ false)) }
    {
        // for all u32, this number of the last vertex fits a u64
        let last = rings as u64 * (sectors as u64 + 1) + sectors as u64;
        if rings < 2 || sectors < 3 || 65_535 < last {
            return Err(Refusal::Grid);
        }
        Ok(Grid { rings, sectors })
    }

    // The number of a ring's first vertex. Its ring's numbers and those of the next ring fit a u16.
    pub(crate) fn first_of(self, ring: u32) -> u16
        requires { ring < self.rings }
        ensures number { result ≡ ring * (self.sectors + 1) }
        ensures fits { result + 2 * (self.sectors + 1) ≤ 65536 }
    {
        (ring * (self.sectors + 1)) as u16
    }

    pub(crate) fn vertices(self) -> usize
        ensures number { result ≡ (self.rings + 1) * (self.sectors + 1) }
        ensures few { result ≤ 65536 }
    {
        (self.rings as usize + 1) * (self.sectors as usize + 1)
    }
}

// A grid, and which of its poles the patch reaches.
#[derive(Clone, Copy)]
pub(crate) struct Patch {
    pub(crate) grid: Grid,
    pub(crate) zenith: bool,
    pub(crate) nadir: bool,
}

impl Patch {
    // Only an edge that is not cropped reaches a pole.
    pub(crate) fn new(rings: u32, sectors: u32, bounds: Bounds) -> Result<Patch, Refusal>
        ensures sizes { IfOk result (λ p. (p.grid.rings ≡ rings) × (p.grid.sectors ≡ sectors)) }
        ensures numbers { says (λ p. grid_triangles p.grid.rings p.grid.sectors p.zenith p.nadir) result
            ≡ sphere_numbers rings sectors bounds }
    {
        let grid = Grid::new(rings, sectors)?;
        if !bounds.is_usable() {
            return Err(Refusal::Crop);
        }
        let zenith = bounds.top == 0.0;
        let nadir = bounds.bottom == 0.0;
        Ok(Patch {
            grid,
            zenith,
            nadir,
        })
    }

    // How many numbers its triangles have: two triangles to a cell, less one for each cell that touches a pole.
    pub(crate) fn numbers(self) -> usize
        ensures { result ≡ length (grid_triangles self.grid.rings self.grid.sectors self.zenith self.nadir) }
    {
        let rings = self.grid.rings as usize;
        let sectors = self.grid.sectors as usize;
        let poles = self.zenith as usize + self.nadir as usize;
        6 * rings * sectors - 3 * sectors * poles
    }
}
