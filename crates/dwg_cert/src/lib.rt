//! Certificates: what one holds, when one is accepted, and the bytes that it is written as. They know nothing of the audit.
#![tactic(auto)]

mod acceptance;
mod accepting;
mod byte_layout;
mod certificate;
mod certifying;
mod checker;
mod counting;
mod ends;
mod entry;
mod laws;
mod lookup;
mod needs;
mod placing;
mod reading;
mod writing;

pub use acceptance::acceptance_laws;
pub use accepting::accepts;
pub use certificate::Certificate;
pub use certifying::certify;
pub use entry::Entry;
pub use laws::certificate_laws;
pub use reading::{ReadCertificate, read_certificate};
pub use writing::{certificate_length, write_certificate};
