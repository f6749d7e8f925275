// Bytes and bits of a payload: cursors, fields, zigzag numbers, box headers, floats, and words and fields put into a
// buffer.
// What each call answers is an equation with a definition of specs/.
#![tactic(auto)]

mod bytes;
mod fields;
mod floats;
mod headers;
mod numbers;
mod put;
mod refusals;

pub use bytes::{ByteCursor, word_of};
pub use fields::{BitCursor, Run, Two, check_fives, check_run, fill_fives, fill_run};
pub use floats::{float_bits, nearest_f32, scale};
pub use headers::{BoxHeader, box_header};
pub use numbers::{bit_width, run_on, stepped, zigzag};
pub use put::{put_field, put_word};
pub use refusals::{FillError, Refusal};
