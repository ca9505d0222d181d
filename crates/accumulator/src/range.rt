// The numbers -2^k .. 2^k - 1, for k up to 39.
ghost use Rattle.std.specs.Prelude.{◌≡◌, ◌≤◌};
ghost use Rattle.integers.specs.Range.{lowest, highest, outside, nearer, limited_to};

// Those of k + 1 bits, read as signed.
#[derive(Clone, Copy, Debug, PartialEq, Eq)]
pub struct Width {
    pub k: u32,
    pub ghost bound: { k ≤ 39 },
}

impl Width {
    // The least of them.
    pub fn lowest(self) -> i64
        ensures { result ≡ lowest self.k }
    {
        let power: i64 = 1 << self.k;
        -power
    }

    // The greatest of them.
    pub fn highest(self) -> i64
        ensures { result ≡ highest self.k }
    {
        let power: i64 = 1 << self.k;
        power - 1
    }

    // Whether z is none of them.
    #[tactic(auto, unfolding(integers::specs::Range::outside))]
    pub fn outside(self, z: i64) -> bool
        ensures { result ≡ outside self.k z }
    {
        z < self.lowest() || self.highest() < z
    }

    // Of z outside them, the nearer limit.
    pub fn nearer(self, z: i64) -> i64
        ensures { result ≡ nearer self.k z }
    {
        if z < 0 { self.lowest() } else { self.highest() }
    }

    // z limited to them.
    pub fn limited_to(self, z: i64) -> i64
        ensures { result ≡ limited_to self.k z }
    {
        if self.outside(z) { self.nearer(z) } else { z }
    }
}
