//! The bodies of the kinds that AC1015 alone has.

ghost use Rattle.std.specs.Prelude.{ℕ};
ghost use Rattle.dwg_common.specs.declared.bit_layout.Layout.{Layout};
ghost use Rattle.dwg_part_laws.specs.AsDefined.{IsDefinedBy};
ghost use Rattle.dwg_more.specs.Ellipses.{ellipse_body};
ghost use Rattle.dwg_more.specs.Faces.{face_body};
ghost use Rattle.dwg_more.specs.Groups.{group_body};
ghost use Rattle.dwg_more.specs.Polylines.{polyline_body, vertex_body};
ghost use Rattle.dwg_more.specs.Rays.{ray_body, xline_body};
ghost use Rattle.dwg_more.specs.Solids.{solid_body, trace_body};
ghost use Rattle.dwg_more.specs.contracts.ellipse.EllipseBodyCode.TheImpl as ellipse;
ghost use Rattle.dwg_more.specs.contracts.face.Face3dBodyCode.TheImpl as face3d;
ghost use Rattle.dwg_more.specs.contracts.group.GroupBodyCode.TheImpl as group;
ghost use Rattle.dwg_more.specs.contracts.polyline.Polyline3dBodyCode.TheImpl as polyline3d;
ghost use Rattle.dwg_more.specs.contracts.ray.RayBodyCode.TheImpl as ray;
ghost use Rattle.dwg_more.specs.contracts.solid.SolidBodyCode.TheImpl as solid;
ghost use Rattle.dwg_more.specs.contracts.trace.TraceBodyCode.TheImpl as trace;
ghost use Rattle.dwg_more.specs.contracts.vertex.Vertex3dBodyCode.TheImpl as vertex3d;
ghost use Rattle.dwg_more.specs.contracts.xline.XLineBodyCode.TheImpl as xline;

/// These bodies are read, given to fit, measured and written by one definition, whatever the layout: AC1014 has none of them.
#[tactic(auto, using(crate::proofs::AsDefined::by_itself))]
pub fn more_as_defined()
    ensures ellipse { (layout : Layout) (base : ℕ) → IsDefinedBy (ellipse.ghosts.grammar layout base) (ellipse_body base) }
    ensures face3d { (layout : Layout) (base : ℕ) → IsDefinedBy (face3d.ghosts.grammar layout base) (face_body base) }
    ensures group { (layout : Layout) (base : ℕ) → IsDefinedBy (group.ghosts.grammar layout base) (group_body base) }
    ensures polyline3d { (layout : Layout) (base : ℕ) → IsDefinedBy (polyline3d.ghosts.grammar layout base) (polyline_body base) }
    ensures ray { (layout : Layout) (base : ℕ) → IsDefinedBy (ray.ghosts.grammar layout base) (ray_body base) }
    ensures solid { (layout : Layout) (base : ℕ) → IsDefinedBy (solid.ghosts.grammar layout base) (solid_body base) }
    ensures trace { (layout : Layout) (base : ℕ) → IsDefinedBy (trace.ghosts.grammar layout base) (trace_body base) }
    ensures vertex3d { (layout : Layout) (base : ℕ) → IsDefinedBy (vertex3d.ghosts.grammar layout base) (vertex_body base) }
    ensures xline { (layout : Layout) (base : ℕ) → IsDefinedBy (xline.ghosts.grammar layout base) (xline_body base) }
{}
