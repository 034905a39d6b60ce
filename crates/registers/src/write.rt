// A write: each device by its own group alone.
ghost use Rattle.std.specs.Prelude.{◌≡◌, ◌+◌, ◌*◌, ◌<◌, length, take};
ghost use Rattle.lent.specs.Refusal.{pick};
ghost use Rattle.pec.specs.Group.{right};
ghost use Rattle.registers.specs.Dten.{dten, with_dten};
ghost use Rattle.registers.specs.State.{state_length};
ghost use Rattle.registers.specs.Effect.{silence, written, stored_bits};

use crate::dten;
use crate::state::spot;
use frames::size::Devices;

// Six new bytes of a group: all bits are stored, but of CFGA DTEN, which stays.
fn store_six(group: usize, bytes: &[u8], registers: &mut [u8])
    requires { (length bytes.now ≡ 6) × (length registers.old ≡ 6) }
    ensures { registers.new ≡ with_dten group (dten registers.old) bytes.now }
{
    let kept = registers[0] / 2 % 2;
    lent::copy_six(bytes, registers);
    if group != dten::CFGA {
        return;
    }
    registers[0] = dten::with_bit(kept, bytes[0]);
}

// One device and what the wire has for it: it stores the six bytes and answers `bit` where they are right, else keeps what it had and answers 0. Its part of the
// reply is silence, which is laid between the test and the storing, so that a compiler reads the six bytes anew and not one by one.
#[tactic(auto, using(lent::proofs::Over::filled), unfolding(crate::specs::Effect::silence, lent::specs::Refusal::pick))]
fn take_group(group: usize, wire: &[u8], bit: u16, registers: &mut [u8], part: &mut [u8]) -> u16
    requires { (length wire.now ≡ 8) × (length registers.old ≡ 6) × (length part.old ≡ 8) }
    ensures { (result ≡ pick (right wire.now) bit 0)
        × (registers.new ≡ pick (right wire.now) (with_dten group (dten registers.old) (take 6 wire.now)) registers.old)
        × (part.new ≡ silence 8) }
{
    let right = pec::is_right(wire);
    lent::fill(part, 255);
    if right {
        store_six(group, &wire[0..6], registers);
        return bit;
    }
    0
}

// The first group on the wire is device n's. The word has a bit for each device that stored; the part of the reply behind the command is silence.
#[tactic(auto, using(lent::proofs::Over::over_full, crate::proofs::Silence::length_silence), unfolding(crate::specs::State::state_length, crate::specs::State::spot))]
pub fn store_groups(
    n: Devices,
    group: usize,
    frame: &[u8],
    state: &mut [u8],
    part: &mut [u8],
) -> u16
    requires { (group < 18) × (length frame.now ≡ 4 + 8 * n.count) × (length state.old ≡ state_length n.count) × (length part.old ≡ 8 * n.count) }
    ensures { (result ≡ stored_bits n.count n.count frame.now)
        × (state.new ≡ written n.count n.count group frame.now state.old)
        × (part.new ≡ silence (8 * n.count)) }
{
    let mut word: u16 = 0;
    for k in 0..n.count {
        let at = spot(k, group);
        let from = 4 + 8 * (n.count - 1 - k);
        let to = 8 * k;
        word += take_group(
            group,
            &frame[from..from + 8],
            1 << k,
            &mut state[at..at + 6],
            &mut part[to..to + 8],
        );
    }
    word
}
