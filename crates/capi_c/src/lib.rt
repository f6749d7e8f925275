// The C functions of `capi`, as a static library: each calls the function of `capi` with its name, in the module with
// its name, and promises what that promises. What crosses, and how an answer is told, stands in crates/capi/src/lib.rt.
// The clauses of `capi` stand here again for the C interface: a C function states its own contract.
#![tactic(auto)]

mod alignment_calls;
mod bytes;
mod counts;
mod crops;
mod fields;
mod grids;
mod meshes;
mod numbers;
mod put;
mod records;
mod runs;
mod scene_call;
mod shares;
mod shown;
mod view;
