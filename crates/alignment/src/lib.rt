// What the alignment bench asks of a mesh list: the vertex numbers at points of a submesh.
#![tactic(auto)]

mod lookup;
mod questions;
mod walk;

pub use lookup::look_up;
