// Numbers that look random and come again from the same seed.
#[derive(Drop)]
pub struct Random {
    state: u64,
}

impl Random {
    // The numbers of this history.
    pub fn of(seed: u64, history: u64) -> Random {
        let mixed = seed.wrapping_mul(0x9e37_79b9_7f4a_7c15)
            ^ history.wrapping_mul(0xbf58_476d_1ce4_e5b9);
        let mut random = Random { state: mixed | 1 };
        for _ in 0..8u8 {
            let _ = random.next();
        }
        random
    }

    pub fn next(&mut self) -> u64 {
        let mut x = self.state;
        x ^= x << 13;
        x ^= x >> 7;
        x ^= x << 17;
        self.state = x;
        x.wrapping_mul(0x2545_f491_4f6c_dd1d) >> 16
    }

    pub fn bytes(&mut self) -> [u8; 4] {
        let bytes = self.next().to_be_bytes();
        [bytes[4], bytes[5], bytes[6], bytes[7]]
    }

    // One of so many, from 0 on.
    pub fn one_of(&mut self, count: usize) -> usize {
        (self.next() as usize).checked_rem(count).unwrap_or(0)
    }

    // True in so many of a thousand cases.
    pub fn chance(&mut self, thousandths: usize) -> bool {
        self.one_of(1000) < thousandths
    }
}
