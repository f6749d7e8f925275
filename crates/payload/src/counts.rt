// How many vertices and indices a grid asks for.
ghost use Rattle.std.specs.Prelude.{◌≡◌, ◌*◌};
ghost use Rattle.payload.specs.Count.{counted_says, counted, vertex_count, index_count};
ghost use Rattle.payload.specs.Count.{cubemap_vertex_count, cubemap_index_count};

use bits::Refusal;

// a * b, or 14 where it does not fit 64 bits.
fn product(a: u64, b: u64) -> Result<u64, Refusal>
    ensures { counted_says result ≡ counted (a * b) }
{
    match a.checked_mul(b) {
        Some(n) => Ok(n),
        None => Err(Refusal::CountTooLarge),
    }
}

// The vertices of a sphere's grid, which has one line more than cells each way.
pub fn vertex_count(rings: u32, sectors: u32) -> Result<u64, Refusal>
    ensures { counted_says result ≡ vertex_count rings sectors }
{
    product(rings as u64 + 1, sectors as u64 + 1)
}

// Room for the indices of a sphere, an upper bound: at the poles some triangles are left out.
pub fn index_count(rings: u32, sectors: u32) -> Result<u64, Refusal>
    ensures { counted_says result ≡ index_count rings sectors }
{
    if rings < 2 {
        return Ok(0);
    }
    product(6 * rings as u64, sectors as u64)
}

// The vertices of a cube's six faces, which share none.
pub fn cubemap_vertex_count(cells: u32) -> Result<u64, Refusal>
    ensures { counted_says result ≡ cubemap_vertex_count cells }
{
    product(6 * (cells as u64 + 1), cells as u64 + 1)
}

// The indices of a cube: two triangles for each cell of its six faces.
pub fn cubemap_index_count(cells: u32) -> Result<u64, Refusal>
    ensures { counted_says result ≡ cubemap_index_count cells }
{
    product(36 * cells as u64, cells as u64)
}
