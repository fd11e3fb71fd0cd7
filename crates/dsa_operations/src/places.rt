//! Numbers of two bytes, the lowest byte first.

ghost use Rattle.std.specs.Prelude.{◌≡◌, ◌+◌, ◌≤◌};
ghost use Rattle.dsa_descriptor.specs.Places.{u16_at};

/// The number in two bytes.
#[tactic(auto, unfolding(dsa_descriptor::specs::Places::u16_at))]
pub(crate) fn u16_at(bytes: &[u8; 64], place: usize) -> u16
    requires { place + 2 ≤ 64 }
    ensures { result ≡ u16_at place bytes.now }
{
    u16::from_le_bytes([bytes[place], bytes[place + 1]])
}
