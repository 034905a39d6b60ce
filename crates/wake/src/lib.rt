// The wake rule, over a 32-bit microsecond clock that runs past its end to 0.
#![tactic(auto)]

ghost use Rattle.std.specs.Prelude.{◌≡◌};
ghost use Rattle.wake.specs.Flat.{woken};
ghost use Rattle.wake.specs.Wake.{gap_of, Waits};

use frames::size::Devices;
use lent::refusal::Refusal;

// The shortest tIDLE (documents 000 and 003), in microseconds: from it up the port may be idle.
const IDLE: u32 = 4300;

// tREADY of one device, in microseconds.
const READY: u32 = 10;

// For C: the microseconds to wait before a frame, 0 on refusal.
#[repr(C)]
#[derive(Clone, Copy)]
pub struct Wake {
    pub number: u8,
    pub wait: u32,
}

impl From<Result<u32, Refusal>> for Wake {
    ghost from_gives = { λ given flat. flat ≡ woken given };

    #[tactic(auto, unfolding(crate::specs::Flat::woken))]
    fn from(given: Result<u32, Refusal>) -> Wake {
        match given {
            Ok(wait) => Wake { number: 0, wait },
            Err(refusal) => Wake {
                number: u8::from(refusal),
                wait: 0,
            },
        }
    }
}

// Now minus last, modulo 2^32.
fn gap(last: u32, clock: u32) -> u32
    ensures { result ≡ gap_of last clock }
{
    clock.wrapping_sub(last)
}

// The microseconds to wait before a frame to a chain of n devices, whose last frame was at `last`.
pub fn wait(n: u32, last: u32, clock: u32) -> Result<u32, Refusal>
    ensures { Waits n last clock (woken result) }
{
    Devices::of(n as usize)?;
    Ok(if gap(last, clock) < IDLE {
        0
    } else {
        READY * n
    })
}
