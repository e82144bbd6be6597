//! The bodies of further kinds: ellipses, rays and lines without ends, solids and traces, faces, polylines and vertices in
//! space, and groups (Open Design Specification, "ELLIPSE", "RAY", "XLINE", "SOLID", "TRACE", "3DFACE", "POLYLINE (3D)",
//! "VERTEX (3D)" and "GROUP").
#![tactic(auto)]

mod corners;
mod ellipse;
mod face;
mod group;
mod laws;
mod polyline;
mod ray;
mod solid;
mod trace;
mod vertex;
mod xline;

pub use ellipse::Ellipse;
pub use face::Face3d;
pub use group::Group;
pub use laws::more_laws;
pub use polyline::Polyline3d;
pub use ray::Ray;
pub use solid::Solid;
pub use trace::Trace;
pub use vertex::Vertex3d;
pub use xline::XLine;
