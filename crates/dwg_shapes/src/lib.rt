//! Simple shapes: lines, points, circles, arcs and lightweight polylines (Open Design Specification, "LINE", "POINT",
//! "CIRCLE", "ARC" and "LWPOLYLINE").
#![tactic(auto)]

mod arc;
mod circle;
mod laws;
mod line;
mod lists;
mod lwpolyline;
mod point;
mod vertices;
mod width;

pub use arc::Arc;
pub use circle::Circle;
pub use laws::shape_laws;
pub use line::Line;
pub use lwpolyline::{LwPolyline, Width};
pub use point::Point;
