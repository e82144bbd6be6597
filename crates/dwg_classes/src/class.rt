//! A class as a value.

use dwg_base::ByteRun;

/// What the objects of a type number are (Open Design Specification, "Classes").
#[derive(Drop)]
pub struct Class {
    /// The type number of its objects, at least 500 in a drawing.
    pub number: u16,
    /// The version, kept without meaning.
    pub version: u16,
    /// The application that made it, at most 65,535 bytes.
    pub application: ByteRun,
    /// Its name in C++, at most 65,535 bytes.
    pub cpp_name: ByteRun,
    /// Its name in DXF, at most 65,535 bytes.
    pub dxf_name: ByteRun,
    /// Whether its objects were proxies.
    pub proxy: bool,
    /// 498 where its objects are entities, 499 where they are other objects; any other value is kept.
    pub item: u16,
}
