//! The numbers of a search, always the same ones.
use rand_core::Rng;
use rand_pcg::Pcg32;

/// A generator of numbers with a fixed seed.
#[derive(Drop)]
pub struct Numbers {
    generator: Pcg32,
}

impl Numbers {
    /// Returns the generator before its first number.
    pub fn new() -> Numbers {
        Numbers {
            generator: Pcg32::new(1, 1),
        }
    }

    /// Draws a number below the bound, 0 if that is 0. The bound is far below 2^32, so all are about equally likely.
    #[inline(always)]
    pub fn below(&mut self, bound: usize) -> usize {
        let number = self.generator.next_u32() as usize;
        number.checked_rem(bound).unwrap_or(0)
    }

    /// Puts these numbers into an order drawn at random (Fisher and Yates).
    pub fn shuffle(&mut self, list: &mut [usize]) {
        for place in 0..list.len() {
            let other = self.below(place.saturating_add(1));
            if other < list.len() {
                list.swap(place, other);
            }
        }
    }
}
