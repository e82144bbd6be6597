//! Laws of certificates, as the contract of a function without code.

ghost use Rattle.dwg_cert.specs.CertificateLaws.{LinesAreExact, PassingBytesBeginWithCertificate, CertificateIsRead, CertificateIsUnique, WrittenIsRead, RefusedEntryIsFirst, ReadEntriesAreCertificate, CertificateIsCounted, FormIsBytes};

/// What holds of certificates (a rule of this project): no line on a certificate fails exactly where the input begins with
/// the form of one, and then that one is read, with the rest after it; an input begins with the form of at most one; what is
/// written of a certificate is read back, whatever follows; the line on entries refuses the first entry that fails, and where
/// none does, the entries are those of a certificate; the form's length follows from the count of the entries, and it is bytes.
pub fn certificate_laws()
    ensures exact { LinesAreExact }
    ensures sound { PassingBytesBeginWithCertificate }
    ensures complete { CertificateIsRead }
    ensures unique { CertificateIsUnique }
    ensures read_back { WrittenIsRead }
    ensures refused { RefusedEntryIsFirst }
    ensures entries { ReadEntriesAreCertificate }
    ensures counted { CertificateIsCounted }
    ensures bytes { FormIsBytes }
{}
