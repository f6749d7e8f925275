// What calls answer that fill one lent buffer, and how long the two lists of a grid are.
use bits::FillError;

// How many items it made, or why it made none: with the length that the buffer needs, where that is why.
pub type Filled = Result<usize, FillError<usize>>;

// How long the numbers and the floats of a grid are.
#[derive(Clone, Copy)]
pub struct GridLengths {
    pub numbers: usize,
    pub floats: usize,
}
