//! Bytes that are appended to a sink of bits.

ghost use Rattle.std.specs.Prelude.{◌*◌, ◌≤◌, length};
ghost use Rattle.dwg_sections.specs.Writing.{Puts};

use dwg_bits::BitSink;

/// Appends bytes.
pub fn put(bytes: &[u8], sink: &mut BitSink)
    requires { 8 * length bytes.now ≤ sink.old.spare }
    ensures { Puts sink.old sink.new bytes.now }
{
    sink.push_bytes(bytes);
}
