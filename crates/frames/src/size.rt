// The chain size N.
ghost use Rattle.std.specs.Prelude.{◌≡◌, ◌≤◌, IfOk, IfErr, true, false};
ghost use Rattle.frames.specs.Size.{outside};
ghost use Rattle.lent.specs.declared.refusal.Refusal.{Refusal};

use lent::refusal::Refusal;

// Whether N is not 1..16.
#[tactic(auto, unfolding(crate::specs::Size::outside))]
pub fn outside(n: usize) -> bool
    ensures { result ≡ outside n }
{
    n < 1 || 16 < n
}

// How many devices are asked for, and never more than a chain has.
#[derive(Clone, Copy, Debug, PartialEq, Eq)]
pub struct Devices {
    pub count: usize,
    ghost at_most_16: { count ≤ 16 },
}

impl Devices {
    // A chain of 1 to 16 devices.
    #[tactic(auto, using(crate::proofs::Sizes::at_most))]
    pub fn of(n: usize) -> Result<Devices, Refusal>
        ensures ok { IfOk result (λ devices. (devices.count ≡ n) × (outside n ≡ false)) }
        ensures err { IfErr result (λ refusal. (refusal ≡ Refusal.ChainSize) × (outside n ≡ true)) }
    {
        if outside(n) {
            return Err(Refusal::ChainSize);
        }
        Ok(Devices { count: n })
    }
}
