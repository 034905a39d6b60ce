// Why a call is refused.
ghost use Rattle.std.specs.Prelude.{◌≡◌};
ghost use Rattle.lent.specs.Number.{number, number_given};

// By 01's numbers, and from 9 on by 02's.
#[derive(Clone, Copy, Debug, PartialEq, Eq)]
pub enum Refusal {
    ChainSize = 1,
    UnknownCommand = 2,
    WrongLength = 3,
    WrongPec = 4,
    ShortOutput = 5,
    WrongFrame = 6,
    NoRead = 7,
    TallyFull = 8,
    FieldRange = 9,
    BrokenRecord = 10,
    BodyLimits = 11,
}

impl From<Refusal> for u8 {
    ghost from_gives = { λ refusal n. n ≡ number refusal };

    #[tactic(auto, unfolding(crate::specs::Number::number))]
    fn from(refusal: Refusal) -> u8 {
        refusal as u8
    }
}

// What a call comes back with that has no more to say than whether it was done: 0, or why not.
#[tactic(auto, unfolding(crate::specs::Number::number_given))]
pub fn number<T: Drop>(given: Result<T, Refusal>) -> u8
    ensures { result ≡ number_given given }
{
    match given {
        Ok(_) => 0,
        Err(refusal) => refusal.into(),
    }
}
