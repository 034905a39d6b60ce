// A read: what the devices answer.
ghost use Rattle.std.specs.Prelude.{◌≡◌, ◌*◌, ◌<◌, ◌≤◌, length};
ghost use Rattle.pec.specs.Group.{with_pec};
ghost use Rattle.registers.specs.Dten.{with_dten};
ghost use Rattle.registers.specs.State.{Sound};
ghost use Rattle.registers.specs.Effect.{answers};

use crate::dten;
use crate::state::{pin_spot, spot};
use frames::groups::put_group;
use frames::size::Devices;

// What one device shows of a group, with its check word, fills a part of eight: of CFGA, DTEN is the pin.
fn put_answer(group: usize, registers: &[u8], pin: u8, part: &mut [u8])
    requires { (length registers.now ≡ 6) × (pin ≤ 1) × (length part.old ≡ 8) }
    ensures { part.new ≡ with_pec (with_dten group pin registers.now) }
{
    if group != dten::CFGA {
        return put_group(registers, part);
    }
    let mut shown = [0; 6];
    lent::copy_six(registers, &mut shown);
    shown[0] = dten::with_bit(pin, registers[0]);
    put_group(&shown, part);
}

// What the devices show of a group fills a part, device 1's first.
#[tactic(auto, using(lent::proofs::Over::over_none, lent::proofs::Over::over_full, crate::proofs::ReadLaws::length_answers), unfolding(crate::specs::State::state_length, crate::specs::State::spot, crate::specs::State::pin_spot, crate::specs::Effect::answers))]
pub fn put_answers(n: Devices, group: usize, state: &[u8], part: &mut [u8])
    requires { (group < 18) × Sound n.count state.now × (length part.old ≡ 8 * n.count) }
    ensures { part.new ≡ answers n.count group state.now }
{
    for k in 0..n.count {
        let from = spot(k, group);
        let pin = pin_spot(k);
        let at = 8 * k;
        put_answer(
            group,
            &state[from..from + 6],
            state[pin],
            &mut part[at..at + 8],
        );
    }
}
