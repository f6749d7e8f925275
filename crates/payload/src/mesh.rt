// Kind 2, a list of mesh boxes: the page that names its parts. All of them read bodies of at most 67,108,864 bytes.
// What they share, and what asks something of its caller, is seen in this folder only.
mod draw;
mod fields;
mod find;
mod head;
mod judge;
mod measure;
mod meshes;
mod places;
mod points;
mod records;
mod submeshes;
mod tables;
mod textures;
mod vertices;
mod write;

pub use draw::{DrawingLengths, parse_meshes};
pub use find::{PointFields, find_submesh};
pub use measure::{MeshListSize, TableLengths, measure_mesh, measure_meshes};
pub use records::{ListCounts, Record, mesh_records};
pub use tables::parse_mesh;
pub use textures::texture_points;
pub use write::write_mesh;

// 'mesh', the type of a mesh box.
const MESH: u32 = 0x6D65_7368;

// A place in the pool.
#[derive(Clone, Copy)]
pub struct CoordinateNumber(pub u16);

// A place among the vertices.
#[derive(Clone, Copy)]
pub struct VertexNumber(pub u16);
