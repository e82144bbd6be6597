//! References and points, by their numbers.

ghost use Rattle.std.specs.Prelude.{◌≡◌, ◌^◌, ◌<◌};
ghost use Rattle.dwg_make.specs.Parts.{soft_owner, hard_owner, soft_pointer, hard_pointer, flat_point, point};

use dwg_base::Handle;
use dwg_codes::{Point2, Point3};
use dwg_handles::Ref;

/// The word of 1.0.
pub(crate) const ONE: u64 = 0x3FF0_0000_0000_0000;

/// The handle of a number.
pub(crate) fn handle(number: u64) -> Handle
    requires { number < 2 ^ 63 }
    ensures { result ≡ number }
{
    match Handle::new(number) {
        Some(handle) => handle,
        None => unreachable!(),
    }
}

/// A soft owner.
pub(crate) fn soft_owner(target: u64) -> Ref
    requires { target < 2 ^ 63 }
    ensures { result ≡ soft_owner target }
{
    Ref {
        code: 2,
        target: handle(target),
    }
}

/// A hard owner.
pub(crate) fn hard_owner(target: u64) -> Ref
    requires { target < 2 ^ 63 }
    ensures { result ≡ hard_owner target }
{
    Ref {
        code: 3,
        target: handle(target),
    }
}

/// A soft pointer.
pub(crate) fn soft_pointer(target: u64) -> Ref
    requires { target < 2 ^ 63 }
    ensures { result ≡ soft_pointer target }
{
    Ref {
        code: 4,
        target: handle(target),
    }
}

/// A hard pointer.
pub(crate) fn hard_pointer(target: u64) -> Ref
    requires { target < 2 ^ 63 }
    ensures { result ≡ hard_pointer target }
{
    Ref {
        code: 5,
        target: handle(target),
    }
}

/// A point of the plane, by its words.
pub(crate) fn flat_point(x: u64, y: u64) -> Point2
    ensures { result ≡ flat_point x y }
{
    Point2 { x, y }
}

/// A point of space, by its words.
pub(crate) fn point(x: u64, y: u64, z: u64) -> Point3
    ensures { result ≡ point x y z }
{
    Point3 { x, y, z }
}
