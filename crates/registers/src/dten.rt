// DTEN: bit 1 of the first byte of CFGA, group 0.
ghost use Rattle.std.specs.Prelude.{◌≡◌, ◌≤◌};
ghost use Rattle.registers.specs.Dten.{with_bit};

pub const CFGA: usize = 0;

// A byte with bit 1 put to `bit`.
#[tactic(auto, unfolding(crate::specs::Dten::with_bit))]
pub fn with_bit(bit: u8, byte: u8) -> u8
    requires { bit ≤ 1 }
    ensures { result ≡ with_bit bit byte }
{
    byte / 4 * 4 + 2 * bit + byte % 2
}
