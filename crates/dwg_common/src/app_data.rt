//! Application data of an object as a value.

use dwg_base::ByteRun;
use dwg_handles::Ref;

/// What an application keeps with an object (Open Design Specification, "Extended object data").
#[derive(Drop)]
pub struct AppData {
    /// The application.
    pub application: Ref,
    /// What it keeps: 1 to 65,535 bytes, kept without meaning.
    pub bytes: ByteRun,
}
