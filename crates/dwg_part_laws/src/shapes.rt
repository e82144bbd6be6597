//! The bodies of shapes.

ghost use Rattle.std.specs.Prelude.{ℕ};
ghost use Rattle.dwg_common.specs.declared.bit_layout.Layout.{Layout};
ghost use Rattle.dwg_part_laws.specs.AsDefined.{IsDefinedBy};
ghost use Rattle.dwg_shapes.specs.Arcs.{arc_body};
ghost use Rattle.dwg_shapes.specs.Circles.{circle_body};
ghost use Rattle.dwg_shapes.specs.Lines.{line_body};
ghost use Rattle.dwg_shapes.specs.LwPolylines.{lwpolyline_body};
ghost use Rattle.dwg_shapes.specs.Points.{point_body};
ghost use Rattle.dwg_shapes.specs.contracts.arc.ArcBodyCode.TheImpl as arc;
ghost use Rattle.dwg_shapes.specs.contracts.circle.CircleBodyCode.TheImpl as circle;
ghost use Rattle.dwg_shapes.specs.contracts.line.LineBodyCode.TheImpl as line;
ghost use Rattle.dwg_shapes.specs.contracts.lwpolyline.LwPolylineBodyCode.TheImpl as lwpolyline;
ghost use Rattle.dwg_shapes.specs.contracts.point.PointBodyCode.TheImpl as point;

/// These bodies are read, given to fit, measured and written by the definition of the version of their layout, or by the one of both
/// versions.
#[tactic(auto, using(crate::proofs::AsDefined::by_itself))]
pub fn shapes_as_defined()
    ensures arc { (layout : Layout) (base : ℕ) → IsDefinedBy (arc.ghosts.grammar layout base) (arc_body layout.version base) }
    ensures circle { (layout : Layout) (base : ℕ) → IsDefinedBy (circle.ghosts.grammar layout base) (circle_body layout.version base) }
    ensures line { (layout : Layout) (base : ℕ) → IsDefinedBy (line.ghosts.grammar layout base) (line_body layout.version base) }
    ensures lwpolyline { (layout : Layout) (base : ℕ) → IsDefinedBy (lwpolyline.ghosts.grammar layout base) (lwpolyline_body layout.version base) }
    ensures point { (layout : Layout) (base : ℕ) → IsDefinedBy (point.ghosts.grammar layout base) (point_body layout.version base) }
{}
