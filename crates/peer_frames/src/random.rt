//! Numbers that a seed decides.

ghost use Rattle.std.specs.Prelude.{◌<◌};

const GOLDEN: u64 = 0x9e37_79b9_7f4a_7c15;

const FIRST_FACTOR: u64 = 0xbf58_476d_1ce4_e5b9;

const SECOND_FACTOR: u64 = 0x94d0_49bb_1331_11eb;

/// Numbers in the order that a seed decides (splitmix64): they look random, and the same seed gives the same ones.
#[derive(Clone, Copy, Debug)]
pub struct Random {
    state: u64,
}

impl Random {
    /// The numbers of this seed.
    pub fn new(seed: u64) -> Random {
        Random { state: seed }
    }

    /// The next number.
    pub fn next(&mut self) -> u64 {
        self.state = self.state.wrapping_add(GOLDEN);
        let mixed = self.state;
        let mixed = (mixed ^ (mixed >> 30)).wrapping_mul(FIRST_FACTOR);
        let mixed = (mixed ^ (mixed >> 27)).wrapping_mul(SECOND_FACTOR);
        mixed ^ (mixed >> 31)
    }

    /// A number below this one; 0 if that is 0.
    pub fn below(&mut self, count: u32) -> u32
        ensures { 0 < count → result < count }
    {
        let next = self.next();
        if count == 0 {
            return 0;
        }
        (next % u64::from(count)) as u32
    }

    /// A place in a list of this length; 0 if it is empty.
    pub fn place(&mut self, len: usize) -> usize
        ensures { 0 < len → result < len }
    {
        let next = self.next();
        if len == 0 {
            return 0;
        }
        (next % len as u64) as usize
    }

    /// Any byte.
    pub fn byte(&mut self) -> u8 {
        (self.next() % 256) as u8
    }

    /// Whether something happens that happens so often in 100 times.
    pub fn in_hundred(&mut self, often: u32) -> bool {
        self.below(100) < often
    }

    /// One or the other.
    pub fn flag(&mut self) -> bool {
        self.below(2) == 0
    }

    /// One or the other, or nothing.
    pub fn flag_or_none(&mut self) -> Option<bool> {
        match self.below(3) {
            0 => None,
            1 => Some(false),
            _ => Some(true),
        }
    }

    /// Any number of 32 bits.
    pub fn any(&mut self) -> u32 {
        (self.next() % 0x1_0000_0000) as u32
    }

    /// A number as peers send that are wrong or hostile: mostly one at an end or in the middle of the range.
    pub fn absurd(&mut self) -> u32 {
        match self.below(10) {
            0 => 0,
            1 => 1,
            2 => u32::MAX,
            3 => u32::MAX - 1,
            4 => 0x8000_0000,
            5 => 0x7fff_ffff,
            6 => 0x8000_0001,
            7 | 8 => self.below(300),
            _ => self.any(),
        }
    }

    /// The same of 64 bits.
    pub fn long_absurd(&mut self) -> u64 {
        match self.below(6) {
            0 => u64::MAX,
            1 => 0x8000_0000_0000_0000,
            2 => self.next(),
            3 => 0x1_0000_0000,
            _ => u64::from(self.absurd()),
        }
    }

    /// Such a number, or none.
    pub fn absurd_or_none(&mut self) -> Option<u32> {
        if self.in_hundred(20) {
            return None;
        }
        Some(self.absurd())
    }
}
