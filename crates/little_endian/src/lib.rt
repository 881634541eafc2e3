//! Numbers from their bytes, the lowest first.
#![tactic(auto)]

ghost use Rattle.std.specs.Prelude.{◌≡◌, ◌+◌, ◌*◌};

pub fn wide(x: u8) -> u32
    ensures { result ≡ x }
{
    u32::from(x)
}

pub fn two(a: u8, b: u8) -> u32
    ensures { result ≡ a + 256 * b }
{
    u32::from(u16::from_le_bytes([a, b]))
}

pub fn four(a: u8, b: u8, c: u8, d: u8) -> u32
    ensures { result ≡ a + 256 * b + 65536 * c + 16777216 * d }
{
    u32::from_le_bytes([a, b, c, d])
}
