// Numbers in bytes, the most significant byte first, and how many bytes a medium has.
ghost use Rattle.std.specs.Prelude.{◌≡◌, ◌+◌, ◌≤◌, length, Decides};
ghost use Rattle.medium.specs.Bytes.{HoldsSectors, four_at, two_at};

use crate::interface::MOST_SECTORS;

// The number in the two bytes from `at` on.
pub fn two_at(bytes: &[u8], at: usize) -> u16
    requires { at + 2 ≤ length bytes.now }
    ensures { result ≡ two_at bytes.now at }
{
    u16::from_be_bytes([bytes[at], bytes[at + 1]])
}

// The number in the four bytes from `at` on.
pub fn four_at(bytes: &[u8], at: usize) -> u32
    requires { at + 4 ≤ length bytes.now }
    ensures { result ≡ four_at bytes.now at }
{
    u32::from_be_bytes([bytes[at], bytes[at + 1], bytes[at + 2], bytes[at + 3]])
}

// Whether a memory of `len` bytes is that of a medium of `count` sectors, with BYTES bytes for each.
pub fn is_sized<const BYTES: usize>(len: usize, count: u32) -> bool
    ensures { Decides result (HoldsSectors BYTES len count) }
{
    1 <= count && count <= MOST_SECTORS && BYTES.checked_mul(count as usize) == Some(len)
}
