//! Reading certificates.

ghost use Rattle.std.specs.Prelude.{◌≡◌, ◌+◌, ◌*◌, ◌≤◌, true, false, [], ◌∷◌, length, take, drop, bytes_eq, IfSome, IfNone, IfOk, IfErr, OnOk};
ghost use Rattle.dwg_base.specs.Refusals.{first_fault, Answers, Reports};
ghost use Rattle.dwg_cert.specs.WrittenForm.{MAGIC, BeginsWithCertificate, size_of};
ghost use Rattle.dwg_cert.specs.CertificateLines.{CERTIFICATE_LINES, count_at, number_at, unstored, entry_stated_at, entry_fails, least_handle, short_line, begin_line, length_line, tried_certificate};

use crate::byte_layout::{
    CHAIN_PLACE, COUNT_PLACE, ENTRIES_PLACE, ENTRY_SIZE, MAGIC_BYTES, RANK_PLACE,
};
use crate::certificate::Certificate;
use crate::entry::Entry;
use dwg_base::refusal_lines::{
    CERTIFICATE_BEGIN, CERTIFICATE_ENTRY, CERTIFICATE_LENGTH, CERTIFICATE_SHORT,
};
use dwg_base::{Fault, Handle, Items, Refusal, vec_with_capacity};
use std::alloc::Global;

/// The most that a rank or a place in a chain is stored as: each is below 2^62, and stored plus 1.
const MOST_STORED: u64 = 1 << 62;

/// A certificate that was read at the begin of an input.
#[derive(Drop)]
pub struct ReadCertificate {
    /// The certificate.
    pub certificate: Certificate,
    /// The place after it, in bytes from the begin of the input.
    pub end: usize,
}

/// The number in the eight bytes at the place, the least significant first.
#[tactic(auto, unfolding(crate::specs::CertificateLines::number_at))]
fn number(bytes: &[u8], place: usize) -> u64
    requires { place + 8 ≤ length bytes.now }
    ensures { result ≡ number_at bytes.now place }
{
    u64::from_le_bytes([
        bytes[place],
        bytes[place + 1],
        bytes[place + 2],
        bytes[place + 3],
        bytes[place + 4],
        bytes[place + 5],
        bytes[place + 6],
        bytes[place + 7],
    ])
}

/// The count of entries that the input says its certificate has.
#[tactic(auto, unfolding(crate::specs::CertificateLines::count_at))]
fn count(bytes: &[u8]) -> u64
    requires { 16 ≤ length bytes.now }
    ensures { result ≡ count_at bytes.now }
{
    number(bytes, COUNT_PLACE)
}

/// Whether the input begins as a certificate does.
fn has_magic(bytes: &[u8]) -> bool
    requires { 16 ≤ length bytes.now }
    ensures { result ≡ bytes_eq (take 8 bytes.now) MAGIC }
{
    bytes.starts_with(&MAGIC_BYTES)
}

/// The first line that fails, of those before the entries. Where none fails, the input has all bytes of the entries.
#[tactic(auto, unfolding(crate::specs::CertificateLines::short_line, crate::specs::CertificateLines::begin_line, crate::specs::CertificateLines::length_line))]
fn refusal_of_prefix(bytes: &[u8]) -> Option<Refusal>
    ensures first { result ≡ first_fault (short_line ∷ begin_line ∷ length_line ∷ []) bytes.now }
    ensures whole { IfNone result (size_of (count_at bytes.now) ≤ length bytes.now) }
{
    let length = bytes.len();
    if length < ENTRIES_PLACE {
        return Some(Refusal::new(CERTIFICATE_SHORT, 0, length as u64));
    }
    if !has_magic(bytes) {
        return Some(Refusal::new(CERTIFICATE_BEGIN, 0, 0));
    }
    // Divided, since the bytes of as many entries as it says may be more than a number can report.
    let most = ((length - ENTRIES_PLACE) / ENTRY_SIZE) as u64;
    if most < count(bytes) {
        return Some(Refusal::new(CERTIFICATE_LENGTH, 0, COUNT_PLACE as u64));
    }
    None
}

/// The number that was stored, or none where that is 0.
fn unstored(number: u64) -> Option<u64>
    ensures { result ≡ unstored number }
{
    if number == 0 { None } else { Some(number - 1) }
}

/// The entry of an index, where it doesn't fail: `least` is the least handle that it may have.
#[tactic(auto, unfolding(crate::specs::CertificateLines::entry_fails, crate::specs::CertificateLines::entry_stated_at))]
fn read_entry(bytes: &[u8], index: usize, least: u64) -> Option<Entry>
    requires within { size_of index + 24 ≤ length bytes.now }
    requires least { least ≡ least_handle bytes.now index }
    ensures passes { IfSome result (λ entry. (entry_fails bytes.now index ≡ false) × (entry ≡ entry_stated_at bytes.now index)) }
    ensures fails { IfNone result (entry_fails bytes.now index ≡ true) }
{
    let place = ENTRIES_PLACE + ENTRY_SIZE * index;
    let handle = number(bytes, place);
    let rank = number(bytes, place + RANK_PLACE);
    let chain = number(bytes, place + CHAIN_PLACE);
    if handle < least || MOST_STORED < rank || MOST_STORED < chain {
        return None;
    }
    match Handle::new(handle) {
        Some(handle) => Some(Entry {
            handle,
            rank: unstored(rank),
            chain: unstored(chain),
        }),
        None => None,
    }
}

/// The entries that are read, or the refusal of the first that fails. Room is taken for as many as the input has.
fn read_entries(alloc: Global, bytes: &[u8], count: usize) -> Result<Items<Entry>, Fault>
    requires counted { count ≡ count_at bytes.now }
    requires within { size_of count ≤ length bytes.now }
    ensures answers { Answers result (tried_certificate bytes.now) }
{
    let mut entries = vec_with_capacity(alloc, count)?;
    let mut least = 0;
    'entries: for index in 0..count {
        let Some(entry) = read_entry(bytes, index, least) else {
            let place = (ENTRIES_PLACE + ENTRY_SIZE * index) as u64;
            return Err(Fault::Refused(Refusal::new(CERTIFICATE_ENTRY, index as u64, place)));
        };
        least = entry.handle.value() + 1;
        entries.push(entry)?;
    }
    Ok(Items::from_vec(entries))
}

/// Reads the certificate at the begin of the input (a rule of this project). It is refused by the first of its lines that
/// fails: the input is short, it begins with other bytes than `DWGCERT1`, it is too short for as many entries as it says, or an
/// entry fails, and then the first such is reported: its handle is 2^63 or more, or isn't above the one before it, or its rank or
/// its place in a chain is stored as more than 2^62. Memory is taken only for entries that are there.
pub fn read_certificate(alloc: Global, bytes: &[u8]) -> Result<ReadCertificate, Fault>
    // The certificate that the input begins with, and the place after it; there is one exactly where no line on it fails.
    ensures begins { IfOk result (λ read. BeginsWithCertificate bytes.now read.certificate (drop read.end bytes.now)) }
    ensures tried { IfOk result (λ read. tried_certificate bytes.now ≡ Ok read.certificate) }
    ensures end { IfOk result (λ read. read.end ≡ size_of (length read.certificate)) }
    ensures within { IfOk result (λ read. read.end ≤ length bytes.now) }
    ensures holds { OnOk result (first_fault CERTIFICATE_LINES bytes.now ≡ None) }

    // The first line that fails, or out of memory.
    ensures refused { IfErr result (λ fault. Reports fault (first_fault CERTIFICATE_LINES bytes.now)) }
{
    if let Some(refusal) = refusal_of_prefix(bytes) {
        return Err(Fault::Refused(refusal));
    }
    let count = count(bytes) as usize;
    let entries = read_entries(alloc, bytes, count)?;
    Ok(ReadCertificate {
        certificate: Certificate::build(entries),
        end: ENTRIES_PLACE + ENTRY_SIZE * count,
    })
}
