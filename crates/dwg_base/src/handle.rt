//! Handles: the numbers by which objects name each other.

ghost use Rattle.std.specs.Prelude.{◌≡◌, ◌^◌, ◌<◌};
ghost use Rattle.std.specs.Option.{SomeIff};

use std::marker::Model;

/// The number of an object, below 2^63. 0 is the null handle, which names none (Open Design Specification, "Handle
/// references"; the bound is a rule of this project).
///
/// Contracts see a handle as its number.
#[derive(Clone, Copy, Debug, PartialEq, Eq, PartialOrd, Ord)]
pub struct Handle {
    number: u64,
}

impl Model for Handle {
    ghost use Rattle.std.specs.Prelude.{ℕ, ◌^◌, ◌<◌};

    ghost Value = { ℕ };

    ghost view = { λ handle. handle.number };

    ghost invariant = { λ handle. handle.number < 2 ^ 63 };

    ghost inverse = { λ number. record { number = number } };
}

impl Handle {
    /// The null handle, which names no object.
    pub const NULL: Handle = Handle { number: 0 };

    /// The handle of a number. None exactly where the number is 2^63 or more.
    pub fn new(value: u64) -> Option<Handle>
        ensures { SomeIff result (value < 2 ^ 63) value }
    {
        if value < 1 << 63 {
            Some(Handle { number: value })
        } else {
            None
        }
    }

    /// The number, below 2^63.
    pub fn value(self) -> u64
        ensures value { result ≡ self }
        ensures bound { result < 2 ^ 63 }
    {
        self.number
    }
}
