//! Writing certificates.

ghost use Rattle.std.specs.Prelude.{◌≡◌, ◌+◌, ◌*◌, ◌%◌, ◌^◌, ◌<◌, ◌≤◌, ◌++◌, ℕ, List, length, flat_map, IfSome};
ghost use Rattle.std.specs.List.{AllByRecursion};
ghost use Rattle.std.specs.Int.{w64, to_le_bytes};
ghost use Rattle.dwg_bits.specs.Bits.{bits};
ghost use Rattle.dwg_bits.specs.Sink.{Extends};
ghost use Rattle.dwg_cert.specs.Certificates.{IsSmallEntry, HaveHandles};
ghost use Rattle.dwg_cert.specs.WrittenForm.{BeginsWithCertificate, certificate_bytes, entry_bytes, size_of, stored};

use crate::byte_layout::{ENTRIES_PLACE, ENTRY_SIZE, MAGIC_BYTES};
use crate::certificate::Certificate;
use crate::entry::Entry;
use dwg_bits::BitSink;

/// How many bytes a certificate is written as: 16, and 24 for each entry (a rule of this project). The caller sees to it that
/// it has fewer than 2^58 entries.
#[tactic(auto, using(crate::proofs::FormBytes::certificate_is_counted))]
pub fn certificate_length(cert: &Certificate) -> u64
    requires { length cert.now < 2 ^ 58 }
    ensures size { result ≡ size_of (length cert.now) }
    ensures form { result ≡ length (certificate_bytes cert.now) }
{
    (ENTRIES_PLACE + ENTRY_SIZE * cert.entries().len()) as u64
}

/// What is stored of a number that may be missing: 0 for none, and else the number plus 1.
fn stored(number: Option<u64>) -> u64
    requires { IfSome number (λ some. some < 2 ^ 62) }
    ensures { result ≡ stored number }
{
    match number {
        Some(number) => number + 1,
        None => 0,
    }
}

/// Appends bytes.
#[tactic(auto, using(dwg_bits::proofs::BitLaws::length_of_bits))]
fn put(bytes: &[u8], sink: &mut BitSink)
    requires { 8 * length bytes.now ≤ sink.old.spare }
    ensures written { Extends sink.old sink.new (bits bytes.now) }
    ensures spare { sink.old.spare ≤ sink.new.spare + 8 * length bytes.now }
{
    sink.push_bytes(bytes);
}

/// Appends a number in eight bytes, the least significant first.
fn put_number(number: u64, sink: &mut BitSink)
    requires { 64 ≤ sink.old.spare }
    ensures written { Extends sink.old sink.new (bits (to_le_bytes w64 number)) }
    ensures spare { sink.old.spare ≤ sink.new.spare + 64 }
{
    put(&number.to_le_bytes(), sink);
}

/// Writes an entry: its handle, and what is stored of its rank and of its place in a chain.
fn write_entry(entry: &Entry, sink: &mut BitSink)
    requires small { IsSmallEntry entry.now }
    requires room { 192 ≤ sink.old.spare }
    ensures written { Extends sink.old sink.new (bits (entry_bytes entry.now)) }
    ensures spare { sink.old.spare ≤ sink.new.spare + 192 }
    ensures handle { entry.now.handle < 2 ^ 63 }
{
    put_number(entry.handle.value(), sink);
    put_number(stored(entry.rank), sink);
    put_number(stored(entry.chain), sink);
}

/// Writes entries, one after the other.
fn write_entries(entries: &[Entry], sink: &mut BitSink)
    requires small { AllByRecursion IsSmallEntry entries.now }
    requires room { 192 * length entries.now ≤ sink.old.spare }
    ensures written { Extends sink.old sink.new (bits (flat_map entry_bytes entries.now)) }
    ensures handles { HaveHandles entries.now }
{
    'entries: for entry in entries {
        write_entry(entry, sink);
    }
}

/// Writes a certificate: the bytes `DWGCERT1`, the count of its entries, and per entry its handle, its rank plus 1 or 0 for
/// none, and its place in a chain plus 1 or 0 for none, each number in eight bytes with the least significant first (a rule of
/// this project). The caller sees to it that it has fewer than 2^58 entries, that the sink holds whole bytes, and that the sink
/// has the spare: 16 bytes, and 24 for each entry.
pub fn write_certificate(cert: &Certificate, sink: &mut BitSink)
    requires few { length cert.now < 2 ^ 58 }
    requires aligned { length sink.old.written % 8 ≡ 0 }
    requires room { 8 * size_of (length cert.now) ≤ sink.old.spare }
    ensures written { Extends sink.old sink.new (bits (certificate_bytes cert.now)) }

    // What was written, whatever follows, begins with this certificate: so it is read back.
    ensures begins { (rest : List ℕ) → BeginsWithCertificate (certificate_bytes cert.now ++ rest) cert.now rest }
{
    let entries = cert.entries();
    put(&MAGIC_BYTES, sink);
    put_number(entries.len() as u64, sink);
    write_entries(entries, sink);
}
