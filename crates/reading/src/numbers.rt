// Numbers of the file, least byte first.
// Each answers the number, and how many bits it has at most.
ghost use Rattle.std.specs.Prelude.{◌≡◌, ◌+◌, ◌≤◌, ◌<◌, length, get_or};
ghost use Rattle.model.specs.Bytes.{u16_at, u32_at};
ghost use Rattle.model.specs.Limits.{value_bound};
ghost use Rattle.reading.specs.Bounds.{byte_bound, short_bound};

// The byte at `i`.
pub fn byte_at(file: &[u8], i: usize) -> u32
    requires { i + 1 ≤ length file.now }
    ensures { (result ≡ get_or file.now i 0) × (result < byte_bound) }
{
    u32::from(file[i])
}

// The 16-bit number that starts at byte `i`. With `u16::from_le_bytes`, which was tried, a look at a state takes two instructions more.
pub fn u16_at(file: &[u8], i: usize) -> u32
    requires { i + 2 ≤ length file.now }
    ensures { (result ≡ u16_at file.now i) × (result < short_bound) }
{
    u32::from(file[i]) + 256 * u32::from(file[i + 1])
}

// The 32-bit number that starts at byte `i`.
pub fn u32_at(file: &[u8], i: usize) -> u32
    requires { i + 4 ≤ length file.now }
    ensures { (result ≡ u32_at file.now i) × (result < value_bound) }
{
    u32::from_le_bytes([file[i], file[i + 1], file[i + 2], file[i + 3]])
}
