//! How keys are hashed, and contexts by their rows.
//!
//! Most programs need a name at one time after another. So four times in a row of one name in one context hash to one group of a map's
//! index, which is one line of a processor's cache, each with a tag of its own. The groups themselves are spread.
ghost use Rattle.std.specs.Prelude.{◌≡◌};
ghost use Rattle.lucid_tags.specs.Hashing as hashing;

use std::hash::Hasher;

// Odd numbers without a pattern in their bits. The second one is 2^64 divided by the golden ratio: its multiples lie evenly.
const FACTOR: u64 = 0xf135_7aea_2e62_a9c5;

const SPREAD: u64 = 0x9e37_79b9_7f4a_7c15;

// How many times in a row share a group.
const TIMES: u64 = 4;

// What a tag is worth in a hash.
const TAG: u64 = 1 << 24;

/// A hasher for keys, and for all that is made of some numbers. It isn't cryptographic: whoever picks the keys can make them collide, which costs time alone.
#[derive(Clone, Copy)]
pub struct KeyHasher {
    state: u64,
}

impl Default for KeyHasher {
    ghost is_default = { λ s. s ≡ record { state = 0 } };

    fn default() -> KeyHasher {
        KeyHasher { state: 0 }
    }
}

impl KeyHasher {
    // One number more: the state is a polynomial whose last coefficient is the time.
    #[inline(always)]
    fn add(&mut self, number: u64)
        ensures { self.new ≡ hashing.added self.old number }
    {
        self.state = self.state.wrapping_mul(FACTOR).wrapping_add(number);
    }
}

impl Hasher for KeyHasher {
    ghost write = { hashing.write };

    ghost finish = { hashing.finish };

    // A map takes the lowest bits for the group, and bits 24 to 31 for the tag.
    #[inline(always)]
    fn finish(&self) -> u64 {
        let spread = (self.state / TIMES).wrapping_mul(SPREAD);
        let tag = ((spread >> 32) ^ self.state) % 256;
        (spread >> 40) + tag * TAG
    }

    // Keys write numbers of four and of eight bytes. Of anything else the length alone counts.
    fn write(&mut self, bytes: &[u8]) {
        match bytes {
            [a, b, c, d] => self.add(u64::from(u32::from_le_bytes([*a, *b, *c, *d]))),
            [a, b, c, d, e, f, g, h] => {
                self.add(u64::from_le_bytes([*a, *b, *c, *d, *e, *f, *g, *h]));
            }
            _ => self.add(bytes.len() as u64),
        }
    }

    #[inline(always)]
    fn write_u32(&mut self, number: u32) {
        self.add(u64::from(number));
    }

    #[inline(always)]
    fn write_u64(&mut self, number: u64) {
        self.add(number);
    }
}
