// What the Rust viewer links: a mesh list measured, and the four counts. Each answers one number: a length, or the
// number of a refusal, negative.
#![tactic(auto)]

ghost use Rattle.std.specs.Prelude.{◌≡◌};
ghost use Rattle.bits.specs.Verdict.{limited, mapped};
ghost use Rattle.payload.specs.Count.{counted_says, vertex_count, index_count, cubemap_vertex_count};
ghost use Rattle.payload.specs.Count.{cubemap_index_count};
ghost use Rattle.payload.specs.MeshRead.{read_meshes};
ghost use Rattle.payload.specs.MeshDrawing.{point_total};
ghost use Rattle.viewer.specs.Number.{number};

use bits::Refusal;

// A count as it is, and -14 from 2^63 on; a refusal as its number, negative.
fn number(answer: Result<u64, Refusal>) -> i64
    ensures { result ≡ number (counted_says answer) }
{
    match answer {
        Ok(n) if n <= i64::MAX as u64 => n as i64,
        Ok(_) => -14,
        Err(refusal) => -(refusal.number() as i64),
    }
}

#[unsafe(no_mangle)]
pub extern "C" fn hoodsorrel_vertex_count(rings: u32, sectors: u32) -> i64
    ensures { result ≡ number (vertex_count rings sectors) }
{
    number(payload::vertex_count(rings, sectors))
}

#[unsafe(no_mangle)]
pub extern "C" fn hoodsorrel_index_count(rings: u32, sectors: u32) -> i64
    ensures { result ≡ number (index_count rings sectors) }
{
    number(payload::index_count(rings, sectors))
}

#[unsafe(no_mangle)]
pub extern "C" fn hoodsorrel_cubemap_vertex_count(cells: u32) -> i64
    ensures { result ≡ number (cubemap_vertex_count cells) }
{
    number(payload::cubemap_vertex_count(cells))
}

#[unsafe(no_mangle)]
pub extern "C" fn hoodsorrel_cubemap_index_count(cells: u32) -> i64
    ensures { result ≡ number (cubemap_index_count cells) }
{
    number(payload::cubemap_index_count(cells))
}

#[unsafe(no_mangle)]
pub extern "C" fn hoodsorrel_measure_meshes(payload: &[u8]) -> i64
    ensures { result
        ≡ number (limited payload.now (mapped point_total (read_meshes payload.now))) }
{
    number(payload::measure_meshes(payload).map(|size| size.points as u64))
}
