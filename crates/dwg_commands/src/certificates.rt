//! What the commands on certificates answer to an input within the limit.

ghost use Rattle.std.specs.Prelude.{◌≡◌, ◌*◌, ◌%◌, ◌<◌, ◌≤◌, None, drop, length, is_some, IfErr, IfOk, IfSome, OnOk};
ghost use Rattle.dwg_base.specs.Bytes.{AreBytes};
ghost use Rattle.dwg_base.specs.Devices.{MOST_BYTES};
ghost use Rattle.dwg_base.specs.Refusals.{first_fault};
ghost use Rattle.dwg_bits.specs.Bits.{bits};
ghost use Rattle.dwg_cert.specs.AcceptTests.{is_accepted};
ghost use Rattle.dwg_cert.specs.CertificateLines.{CERTIFICATE_LINES};
ghost use Rattle.dwg_cert.specs.Certified.{certificate_of};
ghost use Rattle.dwg_cert.specs.WrittenForm.{certificate_bytes};
ghost use Rattle.dwg_file.specs.Contents.{contents_of};
ghost use Rattle.dwg_file.specs.DrawingAt.{drawing_at};
ghost use Rattle.dwg_commands.specs.CertifiedInput.{cert_in, drawing_bytes};
ghost use Rattle.dwg_commands.specs.Commands.{lines_of};
ghost use Rattle.dwg_commands.specs.Answered.{acceptance, acceptance_line, acceptance_status, accepted, certified};
ghost use Rattle.dwg_commands.specs.Outcome.{outcome_within};
ghost use Rattle.dwg_commands.specs.Pendings.{comes_to, IsRefused};

use crate::drawings::drawing_of;
use crate::outcome::printed_outcome;
use crate::pending::Pending;
use crate::status::Status;
use crate::words::Command;
use dwg_audit::auditable_laws;
use dwg_base::{ByteRun, Fault, NoMemory, bytes_after, bytes_with_range};
use dwg_bits::BitSink;
use dwg_cert::{
    Certificate, ReadCertificate, acceptance_laws, accepts, certificate_laws, certificate_length,
    certify, read_certificate, write_certificate,
};
use dwg_file::Drawing;
use dwg_messages::{accept_no, accept_yes};
use dwg_text::unsound_note;
use std::alloc::Global;

/// The bytes of a sink that holds whole bytes.
fn bytes_of(sink: &BitSink) -> &[u8]
    requires { length sink.now.written % 8 ≡ 0 }
    ensures held { bits result.now ≡ sink.now.written }
    ensures bytes { AreBytes result.now }
{
    bytes_with_range(sink.as_bytes())
}

/// The bytes that a certificate is written as. Err: out of memory.
#[tactic(auto, using(crate::proofs::CertificateOutcomes::holds_whole))]
fn written_form(alloc: Global, cert: &Certificate) -> Result<ByteRun, NoMemory>
    requires { length cert.now ≤ MOST_BYTES }
    ensures { IfOk result (λ run. run ≡ certificate_bytes cert.now) }
{
    certificate_laws();
    let mut sink = BitSink::new(alloc);
    if !sink.reserve(8 * certificate_length(cert)) {
        return Err(NoMemory);
    }
    write_certificate(cert, &mut sink);
    ByteRun::from_slice(alloc, bytes_of(&sink))
}

/// The certificate of a drawing, where its references hold together. Err: out of memory.
fn certificate_of_drawing(
    alloc: Global,
    drawing: &Drawing<'_>,
) -> Result<Option<Certificate>, NoMemory>
    ensures certified { IfOk result (λ found. IfSome found (λ cert. cert ≡ certificate_of (contents_of drawing.now).objects)) }
    ensures reported { IfOk result (λ found. is_some found ≡ is_accepted (contents_of drawing.now).objects (certificate_of (contents_of drawing.now).objects)) }
{
    auditable_laws();
    acceptance_laws();
    let parts = drawing.parts();
    certify(alloc, parts.objects.as_slice())
}

/// What is answered of a drawing's certificate. Err: out of memory.
#[tactic(auto, using(crate::proofs::CertificateOutcomes::certified_some, crate::proofs::CertificateOutcomes::certified_none))]
fn certified_pending<'a>(alloc: Global, drawing: &Drawing<'_>) -> Result<Pending<'a>, NoMemory>
    requires { length (contents_of drawing.now).objects ≤ MOST_BYTES }
    ensures { IfOk result (λ pending. comes_to pending ≡ certified (contents_of drawing.now)) }
{
    match certificate_of_drawing(alloc, drawing)? {
        Some(cert) => {
            let text = written_form(alloc, &cert)?;
            Ok(Pending::Whole(printed_outcome(alloc, text)))
        }
        None => Ok(Pending::Fixed {
            output: b"",
            note: unsound_note(),
            status: Status::Found,
        }),
    }
}

/// What `certify` answers.
#[tactic(auto, unfolding(crate::specs::Outcome::outcome_within, crate::specs::Commands::row_of))]
pub(crate) fn certify_pending<'a>(alloc: Global, bytes: &'a [u8]) -> Result<Pending<'a>, Fault>
    requires { length bytes.now ≤ MOST_BYTES }
    ensures reported { IfOk result (λ pending. comes_to pending ≡ outcome_within Command.Certify bytes.now) }
    ensures refused { IfErr result (λ fault. IsRefused Command.Certify bytes.now fault) }
{
    let drawing = drawing_of(alloc, bytes)?;
    Ok(certified_pending(alloc, &drawing)?)
}

/// Whether a certificate is one of a drawing's objects. Err: out of memory.
fn accepts_drawing(
    alloc: Global,
    drawing: &Drawing<'_>,
    cert: &Certificate,
) -> Result<bool, NoMemory>
    ensures { IfOk result (λ is. is ≡ is_accepted (contents_of drawing.now).objects cert.now) }
{
    auditable_laws();
    let parts = drawing.parts();
    accepts(alloc, parts.objects.as_slice(), cert)
}

/// The line that says whether a certificate is accepted.
fn acceptance_line(is: bool) -> &'static [u8]
    ensures { result.now ≡ acceptance_line is }
{
    if is { accept_yes() } else { accept_no() }
}

/// How `accept` ends by that.
fn acceptance_status(is: bool) -> Status
    ensures { result ≡ acceptance_status is }
{
    if is { Status::Done } else { Status::Found }
}

/// What is answered of whether a certificate is accepted.
fn acceptance_pending<'a>(is: bool) -> Pending<'a>
    ensures { comes_to result ≡ acceptance is }
{
    Pending::Fixed {
        output: acceptance_line(is),
        note: b"",
        status: acceptance_status(is),
    }
}

/// What is answered of a certificate before a drawing. Err: out of memory.
#[tactic(auto, unfolding(crate::specs::Answered::accepted))]
fn accepted_pending<'a>(
    alloc: Global,
    drawing: &Drawing<'_>,
    cert: &Certificate,
) -> Result<Pending<'a>, NoMemory>
    ensures { IfOk result (λ pending. comes_to pending ≡ accepted (contents_of drawing.now) cert.now) }
{
    let is = accepts_drawing(alloc, drawing, cert)?;
    Ok(acceptance_pending(is))
}

/// The certificate that an input begins with.
#[tactic(auto, using(crate::proofs::CertificateOutcomes::read_is_in, crate::proofs::CertificateOutcomes::read_is_before, crate::proofs::Faults::refused_by_certificate))]
fn certificate_before(alloc: Global, bytes: &[u8]) -> Result<ReadCertificate, Fault>
    ensures cert { IfOk result (λ read. read.certificate ≡ cert_in bytes.now) }
    ensures after { IfOk result (λ read. drop read.end bytes.now ≡ drawing_bytes bytes.now) }
    ensures within { IfOk result (λ read. read.end ≤ length bytes.now) }
    ensures holds { OnOk result (first_fault CERTIFICATE_LINES bytes.now ≡ None) }
    ensures refused { IfErr result (λ fault. IsRefused Command.Accept bytes.now fault) }
{
    read_certificate(alloc, bytes)
}

/// The drawing after the certificate that an input begins with, which ends at this place.
#[tactic(auto, using(crate::proofs::Faults::passes_after, crate::proofs::Faults::refused_after))]
fn drawing_after<'a>(alloc: Global, bytes: &'a [u8], end: usize) -> Result<Drawing<'a>, Fault>
    requires few { length bytes.now ≤ MOST_BYTES }
    requires within { end ≤ length bytes.now }
    requires after { drop end bytes.now ≡ drawing_bytes bytes.now }
    requires passes { first_fault CERTIFICATE_LINES bytes.now ≡ None }
    ensures drawing { IfOk result (λ drawing. contents_of drawing ≡ drawing_at (drawing_bytes bytes.now)) }
    ensures holds { OnOk result (first_fault (lines_of Command.Accept) bytes.now ≡ None) }
    ensures refused { IfErr result (λ fault. IsRefused Command.Accept bytes.now fault) }
{
    drawing_of(alloc, bytes_after(bytes, end))
}

/// What `accept` answers.
#[tactic(auto, unfolding(crate::specs::Outcome::outcome_within, crate::specs::Commands::row_of))]
pub(crate) fn accept_pending<'a>(alloc: Global, bytes: &'a [u8]) -> Result<Pending<'a>, Fault>
    requires { length bytes.now ≤ MOST_BYTES }
    ensures reported { IfOk result (λ pending. comes_to pending ≡ outcome_within Command.Accept bytes.now) }
    ensures refused { IfErr result (λ fault. IsRefused Command.Accept bytes.now fault) }
{
    let read = certificate_before(alloc, bytes)?;
    let drawing = drawing_after(alloc, bytes, read.end)?;
    Ok(accepted_pending(alloc, &drawing, &read.certificate)?)
}
