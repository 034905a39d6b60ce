// Where things lie in the lent state. That it is as long as it has to be stands in each `requires`: a struct of lent bytes with a ghost field, given back by the
// function that tests them, has no generated proof yet.
ghost use Rattle.std.specs.Prelude.{◌≡◌, ◌<◌, length};
ghost use Rattle.registers.specs.State.{state_length, pin_above, spot, pin_spot};

use frames::size::Devices;

// How long the state of n devices is.
#[tactic(auto, unfolding(crate::specs::State::state_length))]
pub fn state_length(n: Devices) -> usize
    ensures { result ≡ state_length n.count }
{
    109 * n.count
}

// Where device k + 1's group lies.
#[tactic(auto, unfolding(crate::specs::State::spot))]
pub fn spot(k: usize, group: usize) -> usize
    requires { (k < 16) × (group < 18) }
    ensures { result ≡ spot k group }
{
    109 * k + 6 * group
}

// Where its pin lies.
#[tactic(auto, unfolding(crate::specs::State::pin_spot))]
pub fn pin_spot(k: usize) -> usize
    requires { k < 16 }
    ensures { result ≡ pin_spot k }
{
    109 * k + 108
}

// Whether a pin byte of n devices is above 1. By `any` the archive's write of CFGA for one device takes 1.09 of plain C, and 1.05 so; its bar is 1.1 in every run.
#[tactic(auto, using(crate::proofs::StateLaws::none_yet, crate::proofs::StateLaws::one_above, crate::proofs::StateLaws::pin_room), unfolding(crate::specs::State::pin_above))]
pub fn pin_above(n: Devices, state: &[u8]) -> bool
    requires { length state.now ≡ state_length n.count }
    ensures { result ≡ pin_above n.count state.now }
{
    for k in 0..n.count {
        if 1 < state[pin_spot(k)] {
            return true;
        }
    }
    false
}
