//! Bits put after those that bytes hold, the last byte filled up by zero bits.

ghost use Rattle.std.specs.Prelude.{◌≡◌, ◌≢◌, ◌+◌, ◌*◌, ◌%◌, ◌^◌, ◌<◌, ◌≤◌, ◌++◌, false, length, replicate, vec_capacity};
ghost use Rattle.dwg_bits.specs.Bits.{bits, low_bits};
ghost use Rattle.dwg_bits.specs.Cursor.{bits_between};
ghost use Rattle.dwg_bits.specs.Filled.{AreFilled, HoldsMore};
ghost use Rattle.dwg_bits.specs.Sink.{missing_bits};

/// Puts the bits of `low` into the byte that is begun, up to its end.
#[tactic(auto, using(crate::proofs::Filling::byte_completed))]
fn complete(bytes: &mut Vec<u8>, count: u64, low: u8)
    requires filled { AreFilled bytes.old.items count }
    requires begun { count % 8 ≢ 0 }
    requires low { low < 2 ^ missing_bits count }
    ensures bits { bits bytes.new.items ≡ bits_between bytes.old.items 0 count ++ low_bits (missing_bits count) low }
    ensures length { length bytes.new.items ≡ length bytes.old.items }
    ensures capacity { vec_capacity bytes.new ≡ vec_capacity bytes.old }
{
    let last = bytes.len() - 1;
    bytes[last] |= low;
}

/// Appends the low bits of a number, so many, and zero bits up to a whole byte; takes no memory.
#[tactic(auto, using(crate::proofs::Filling::bits_appended))]
fn append(bytes: &mut Vec<u8>, value: u64, width: u32)
    requires some { 1 ≤ width }
    requires most { width ≤ 64 }
    requires room { 8 * length bytes.old.items + width ≤ 8 * vec_capacity bytes.old }
    ensures bits { bits bytes.new.items ≡ bits bytes.old.items ++ (low_bits width value ++ replicate (missing_bits width) false) }
    ensures capacity { vec_capacity bytes.old ≤ vec_capacity bytes.new }
{
    let word = (value << (64 - width)).to_be_bytes();
    match bytes.extend_from_slice(&word[..width.div_ceil(8) as usize]) {
        Ok(()) => {}
        Err(_) => unreachable!(),
    }
}

/// Puts the low bits of a number after the first `count` bits: what the byte that is begun takes, and the rest by whole
/// bytes. Takes no memory.
pub(crate) fn put(bytes: &mut Vec<u8>, count: u64, value: u64, width: u32)
    requires filled { AreFilled bytes.old.items count }
    requires most { width ≤ 64 }
    requires value { value < 2 ^ width }
    requires room { count + width ≤ 8 * vec_capacity bytes.old }
    ensures bits { HoldsMore bytes.old.items bytes.new.items count (low_bits width value) }
    ensures capacity { vec_capacity bytes.old ≤ vec_capacity bytes.new }
{
    let free = ((8 - count % 8) % 8) as u32;
    if width == 0 {
        return;
    }
    if free == 0 {
        append(bytes, value, width);
        return;
    }
    if width <= free {
        complete(bytes, count, (value << (free - width)) as u8);
        return;
    }
    let left = width - free;
    complete(bytes, count, (value >> left) as u8);
    append(bytes, value, left);
}
