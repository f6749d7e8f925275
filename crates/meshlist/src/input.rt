// Standard input as one slice.
ghost use Rattle.std.specs.Prelude.{◌≤◌, length};
ghost use Rattle.meshlist.specs.Listing.{input_length};

use std::io;
use std::io::Read;

// Reads until the input ends or buf is full, and returns how many bytes came. A read that fails is not the end of the
// input.
pub fn read_input(reader: &mut impl Read, buf: &mut [u8]) -> io::Result<usize>
    ensures { input_length result ≤ length buf.new }
{
    let mut n = 0;
    // no index is counted here: each read tells how many bytes came
    while n < buf.len() {
        match reader.read(&mut buf[n..])? {
            0 => break,
            k => n += k,
        }
    }
    Ok(n)
}
