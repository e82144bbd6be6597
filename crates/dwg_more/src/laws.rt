//! Laws of these bodies, as the contract of a function without code.

ghost use Rattle.std.specs.Prelude.{◌^◌, ◌<◌, ℕ};
ghost use Rattle.dwg_grammar.specs.Bodies.{IsFreeBody};
ghost use Rattle.dwg_more.specs.Ellipses.{ellipse_body};
ghost use Rattle.dwg_more.specs.Faces.{face_body};
ghost use Rattle.dwg_more.specs.Groups.{group_body};
ghost use Rattle.dwg_more.specs.Polylines.{polyline_body, vertex_body};
ghost use Rattle.dwg_more.specs.Rays.{ray_body, xline_body};
ghost use Rattle.dwg_more.specs.Solids.{solid_body, trace_body};

/// What holds of these bodies, in the object of any handle: main bits and reference bits spell at most one by their prefixes;
/// just those that fit are spelled, each by what is written of it, and none by fewer main bits or fewer reference bits; and
/// other bits that spell the same references spell the same, and any bits may follow these.
pub fn more_laws()
    ensures ellipse { (base : ℕ) → base < 2 ^ 63 → IsFreeBody base (ellipse_body base) }
    ensures ray { (base : ℕ) → base < 2 ^ 63 → IsFreeBody base (ray_body base) }
    ensures xline { (base : ℕ) → base < 2 ^ 63 → IsFreeBody base (xline_body base) }
    ensures solid { (base : ℕ) → base < 2 ^ 63 → IsFreeBody base (solid_body base) }
    ensures trace { (base : ℕ) → base < 2 ^ 63 → IsFreeBody base (trace_body base) }
    ensures face { (base : ℕ) → base < 2 ^ 63 → IsFreeBody base (face_body base) }
    ensures polyline { (base : ℕ) → base < 2 ^ 63 → IsFreeBody base (polyline_body base) }
    ensures vertex { (base : ℕ) → base < 2 ^ 63 → IsFreeBody base (vertex_body base) }
    ensures group { (base : ℕ) → base < 2 ^ 63 → IsFreeBody base (group_body base) }
{}
