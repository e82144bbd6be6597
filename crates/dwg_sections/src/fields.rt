//! Fields of whole bytes, read at their places.

ghost use Rattle.std.specs.Prelude.{◌≡◌, ◌+◌, ◌≤◌, length};
ghost use Rattle.dwg_sections.specs.HeaderLines.{bytes_at, rs_at, rl_at};

/// So many bytes from the place.
pub fn piece(bytes: &[u8], place: usize, count: usize) -> &[u8]
    requires { place + count ≤ length bytes.now }
    ensures { result.now ≡ bytes_at bytes.now place count }
{
    &bytes[place..place + count]
}

/// The RS at the place: two bytes, the low one first.
pub fn rs(bytes: &[u8], place: usize) -> u16
    requires { place + 2 ≤ length bytes.now }
    ensures { result ≡ rs_at bytes.now place }
{
    u16::from_le_bytes([bytes[place], bytes[place + 1]])
}

/// The RL at the place: four bytes, the low one first.
pub fn rl(bytes: &[u8], place: usize) -> u32
    requires { place + 4 ≤ length bytes.now }
    ensures { result ≡ rl_at bytes.now place }
{
    u32::from_le_bytes([
        bytes[place],
        bytes[place + 1],
        bytes[place + 2],
        bytes[place + 3],
    ])
}
