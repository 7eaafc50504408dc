// The hash of a line's number in the index.
ghost use Rattle.std.specs.Prelude.{◌≡◌};

use std::default::Default;
use std::hash::Hasher;

/// 2^32 divided by the golden ratio. However many of its multiples follow each other, they are spread evenly below 2^32.
const SPREAD: u64 = 0x9E37_79B1;

/// Hashes the number that was written last. Eight neighbours are looked up at one place of the index, and four such eights, a block,
/// at places beside each other, so that lines with numbers in a row take little of it anew. Blocks are spread: what finds its place
/// full goes on to the next ones, and if blocks stood in a row too, a search among a million lines could go through thousands. The
/// number within eight is in the highest bits, by which the index tells apart what is at one place.
#[derive(Clone, Copy)]
pub(crate) struct LineHasher {
    number: u32,
}

impl Default for LineHasher {
    fn default() -> LineHasher {
        LineHasher { number: 0 }
    }
}

impl Hasher for LineHasher {
    ghost use Rattle.cov_order.specs.Hashing.{with_bytes, hash_of};

    ghost write = { with_bytes };

    ghost finish = { hash_of };

    fn finish(&self) -> u64 {
        let block = u64::from(self.number / 32) * SPREAD / 0x1_0000 % 0x800_0000;
        block * 4 + u64::from(self.number / 8 % 4) + u64::from(self.number % 8) * 0x2000_0000
    }

    fn write(&mut self, bytes: &[u8]) {
        let mut number = 0;
        'bytes: for byte in bytes {
            number = number / 256 + u32::from(*byte) * 0x100_0000;
        }
        self.number = number;
    }

    fn write_u32(&mut self, number: u32) {
        self.number = number;
    }
}
