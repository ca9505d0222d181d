// The accumulators.

// A and B: their values, their flags O and S.
#[derive(Clone, Copy, Debug, PartialEq, Eq)]
pub struct Sums {
    pub values: [i64; 2],
    pub overflow: [bool; 2],
    pub saturation: [bool; 2],
}
