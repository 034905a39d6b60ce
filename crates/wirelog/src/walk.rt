// A walk over a whole log, record after record, that counts them by kind.
ghost use Rattle.std.specs.Prelude.{◌≡◌};
ghost use Rattle.wirelog.specs.Walk.{past, Fits, Walks};

use crate::record::Found;
use crate::{kinds, record};

#[repr(C)]
#[derive(Clone, Copy, Default)]
pub struct Walked {
    // why the walk stopped: 0 at the end, or the refusal
    pub number: u8,
    pub at: usize,
    pub sizes: usize,
    pub frames: usize,
    pub replies: usize,
    pub notes: usize,
    pub unknown: usize,
}

// One record more, of a kind, that ends at `next`.
#[tactic(auto, unfolding(crate::specs::Walk::past, crate::specs::Kinds::known, lent::specs::Refusal::pick))]
fn past_one(walked: Walked, kind: u32, next: usize) -> Walked
    requires { Fits walked }
    ensures { result ≡ past walked kind next }
{
    let mut walked = Walked { at: next, ..walked };
    match kind {
        kinds::SIZE => walked.sizes += 1,
        kinds::FRAME => walked.frames += 1,
        kinds::REPLY => walked.replies += 1,
        kinds::NOTE => walked.notes += 1,
        _ => walked.unknown += 1,
    }
    walked
}

// From place 0 to the end of the log, or to a record that is refused. No count: each record says where the next one is.
pub fn walk(log: &[u8]) -> Walked
    ensures { Walks log.now result }
{
    let mut walked = Walked::default();
    loop {
        match record::record_at(log, walked.at) {
            Ok(Found::Record { kind, next, .. }) => walked = past_one(walked, kind, next),
            Ok(Found::Unknown { kind, next }) => walked = past_one(walked, kind, next),
            Ok(Found::End) => return walked,
            Err(refusal) => {
                return Walked {
                    number: u8::from(refusal),
                    ..walked
                };
            }
        }
    }
}
