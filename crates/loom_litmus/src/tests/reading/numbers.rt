//! Numbers that look random, and come again.

/// Numbers by Marsaglia's xorshift of 32 bits.
#[derive(Drop)]
pub struct Numbers(pub u32);

impl Numbers {
    /// The next number.
    pub fn next(&mut self) -> u32 {
        let mut x = self.0;
        x ^= x << 13;
        x ^= x >> 17;
        x ^= x << 5;
        self.0 = x;
        x
    }

    /// A number below the bound, or 0.
    pub fn below(&mut self, bound: usize) -> usize {
        let number = self.next() as usize;
        if bound == 0 { 0 } else { number % bound }
    }
}
