//! Points of two and three words.

/// A point of the plane, by the words of its coordinates, x first.
#[derive(Clone, Copy, Debug, PartialEq, Eq)]
pub struct Point2 {
    /// The word of x, a 64-bit floating-point number by its bits.
    pub x: u64,
    /// The word of y.
    pub y: u64,
}

/// A point of space, by the words of its coordinates, x first.
#[derive(Clone, Copy, Debug, PartialEq, Eq)]
pub struct Point3 {
    /// The word of x, a 64-bit floating-point number by its bits.
    pub x: u64,
    /// The word of y.
    pub y: u64,
    /// The word of z.
    pub z: u64,
}
