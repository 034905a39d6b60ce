// The reader's answer as one record of numbers, for C.
ghost use Rattle.std.specs.Prelude.{◌≡◌};
ghost use Rattle.wirelog.specs.Found.{answered};
ghost use Rattle.wirelog.specs.Flat.{flat, LaysFlat};

use crate::record;
use crate::record::Found;
use lent::refusal::Refusal;

#[repr(C)]
#[derive(Clone, Copy, Default)]
pub struct FlatRecord {
    pub number: u8,
    pub end: u8,
    pub kind: u32,
    pub body: usize,
    pub body_len: usize,
    pub next: usize,
}

// Every field is 0 that the answer does not give.
impl From<Result<Found, Refusal>> for FlatRecord {
    ghost from_gives = { λ given laid. laid ≡ flat (answered given) };

    #[tactic(auto, unfolding(crate::specs::Found::answered))]
    fn from(given: Result<Found, Refusal>) -> FlatRecord {
        let none = FlatRecord::default();
        match given {
            Ok(
                Found::Record {
                    kind,
                    body,
                    body_len,
                    next,
                },
            ) => FlatRecord {
                kind,
                body,
                body_len,
                next,
                ..none
            },
            Ok(Found::Unknown { kind, next }) => FlatRecord { kind, next, ..none },
            Ok(Found::End) => FlatRecord { end: 1, ..none },
            Err(refusal) => FlatRecord {
                number: u8::from(refusal),
                ..none
            },
        }
    }
}

// What stands at a place of a log.
pub fn record_at(log: &[u8], place: usize) -> FlatRecord
    ensures { LaysFlat log.now place result }
{
    FlatRecord::from(record::record_at(log, place))
}
