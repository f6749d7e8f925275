// Items that are spelled big end first, one after the other.
use crate::item::Item;
use bits::BitCursor;

// The items that are left of the data.
#[derive(Drop)]
pub struct Items<'a> {
    data: &'a [u8],
    at: BitCursor,
}

impl<'a> Items<'a> {
    pub fn of(data: &'a [u8]) -> Items<'a> {
        Items {
            data,
            at: BitCursor { bit: 0 },
        }
    }

    // The next item of so many bits; 0 where the data ends before it, or the width is above 32.
    fn next(&mut self, width: u32) -> u32 {
        match self.at.read(self.data, width) {
            Ok((value, next)) => {
                self.at = next;
                value
            }
            Err(_) => 0,
        }
    }

    // Fills out with the next items.
    pub fn fill<T: Item>(&mut self, out: &mut [T]) {
        for x in out.iter_mut() {
            *x = T::low(u64::from(self.next(T::BYTES * 8)));
        }
    }
}
