//! Certificates as values.

ghost use Rattle.std.specs.Prelude.{◌≡◌};
ghost use Rattle.dwg_cert.specs.Certificates.{IsCertificate};

use crate::entry::Entry;
use dwg_base::Items;
use std::marker::Model;

/// A list of entries whose handles ascend, each above the one before it, and whose ranks and places are below 2^62 (a rule of
/// this project).
///
/// Contracts see the list of the entries.
#[derive(Drop)]
pub struct Certificate {
    entries: Items<Entry>,
}

impl Model for Certificate {
    ghost use Rattle.std.specs.Prelude.{List};
    ghost use Rattle.dwg_cert.specs.declared.entry.Entry.{Entry};
    ghost use Rattle.dwg_cert.specs.Certificates.{IsCertificate};

    ghost Value = { List Entry };

    ghost view = { λ certificate. certificate.entries };

    ghost invariant = { λ certificate. IsCertificate certificate.entries };
}

impl Certificate {
    /// The certificate of these entries. The caller sees to it that their handles ascend and that their numbers are below 2^62.
    pub fn build(entries: Items<Entry>) -> Certificate
        requires { IsCertificate entries }
        ensures { result ≡ entries }
    {
        Certificate { entries }
    }

    /// The entries, in ascending order of their handles.
    pub fn entries(&self) -> &[Entry]
        ensures list { result.now ≡ self.now }
        ensures certificate { IsCertificate self.now }
    {
        self.entries.as_slice()
    }
}
