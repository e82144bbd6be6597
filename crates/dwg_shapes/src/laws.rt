//! Laws of the bodies of shapes, as the contract of a function without code.

ghost use Rattle.std.specs.Prelude.{◌^◌, ◌<◌, ℕ};
ghost use Rattle.dwg_base.specs.declared.version.Version.{Version};
ghost use Rattle.dwg_grammar.specs.Bodies.{IsFreeBody};
ghost use Rattle.dwg_shapes.specs.Arcs.{arc_body};
ghost use Rattle.dwg_shapes.specs.Circles.{circle_body};
ghost use Rattle.dwg_shapes.specs.Lines.{line_body};
ghost use Rattle.dwg_shapes.specs.LwPolylines.{lwpolyline_body};
ghost use Rattle.dwg_shapes.specs.Points.{point_body};

/// What holds of the bodies of lines, points, circles, arcs and lightweight polylines, in the object of any handle: main bits
/// spell at most one by their prefixes; just those that fit are spelled, each by what is written of it, and none by fewer main
/// bits; and any bits may follow.
pub fn shape_laws()
    ensures line { (version : Version) (base : ℕ) → base < 2 ^ 63 → IsFreeBody base (line_body version base) }
    ensures point { (version : Version) (base : ℕ) → base < 2 ^ 63 → IsFreeBody base (point_body version base) }
    ensures circle { (version : Version) (base : ℕ) → base < 2 ^ 63 → IsFreeBody base (circle_body version base) }
    ensures arc { (version : Version) (base : ℕ) → base < 2 ^ 63 → IsFreeBody base (arc_body version base) }
    ensures lwpolyline { (version : Version) (base : ℕ) → base < 2 ^ 63 → IsFreeBody base (lwpolyline_body version base) }
{}
