// A clear: groups of every device become 0xFF.
ghost use Rattle.std.specs.Prelude.{◌≡◌, ◌+◌, ◌*◌, ◌≤◌, length, replicate};
ghost use Rattle.registers.specs.State.{state_length};
ghost use Rattle.registers.specs.Effect.{clear_count, cleared};

use crate::state::spot;
use frames::size::Devices;

// How many groups a clear from a group on sets.
#[tactic(auto, unfolding(crate::specs::Effect::clear_count, lent::specs::Refusal::pick))]
fn clear_count(group: usize) -> usize
    ensures { result ≡ clear_count group }
{
    if group == 2 { 6 } else { 4 }
}

// Those groups of one device. Each end is a number, so that a compiler stores whole words.
#[tactic(auto, using(crate::proofs::ClearLaws::filled_whole), unfolding(crate::specs::Effect::clear_count, lent::specs::Refusal::pick))]
fn clear_device(group: usize, part: &mut [u8])
    requires { length part.old ≡ 6 * clear_count group }
    ensures { part.new ≡ replicate (length part.old) 255 }
{
    if group == 2 {
        lent::fill(&mut part[0..36], 255);
        return;
    }
    lent::fill(&mut part[0..24], 255);
}

// The groups that a clear from a group on sets, of every device.
#[tactic(auto, using(crate::proofs::ClearLaws::clears_some, crate::proofs::ClearLaws::turn), unfolding(crate::specs::State::spot, crate::specs::State::state_length, crate::specs::Effect::cleared))]
pub fn clear_groups(n: Devices, group: usize, state: &mut [u8])
    requires { (group + clear_count group ≤ 18) × (length state.old ≡ state_length n.count) }
    ensures { state.new ≡ cleared n.count group (clear_count group) state.old }
{
    let size = 6 * clear_count(group);
    for k in 0..n.count {
        let at = spot(k, group);
        clear_device(group, &mut state[at..at + size]);
    }
}
