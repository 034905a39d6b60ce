// The marks of a reply.
ghost use Rattle.std.specs.Prelude.{◌≡◌};
ghost use Rattle.host.specs.Marks.{was_read, any_above};
ghost use Rattle.host.specs.Sorts.{mark_number};

// Whether a group was read, its PEC is wrong, or its device is silent.
#[derive(Clone, Copy, Debug, PartialEq, Eq)]
pub enum Mark {
    Read,
    Wrong,
    Silent,
}

// A mark is a byte where it is lent.
impl From<Mark> for u8 {
    ghost from_gives = { λ mark n. n ≡ mark_number mark };

    #[tactic(auto, unfolding(crate::specs::Sorts::mark_number))]
    fn from(mark: Mark) -> u8 {
        mark as u8
    }
}

// Whether there is a mark above 2.
#[tactic(auto, unfolding(crate::specs::Marks::any_above))]
pub fn any_above(marks: &[u8]) -> bool
    ensures { result ≡ any_above marks.now }
{
    for mark in marks {
        if (Mark::Silent as u8) < *mark {
            return true;
        }
    }
    false
}

// Whether the group was read.
pub fn was_read(mark: u8) -> bool
    ensures { result ≡ was_read mark }
{
    mark == Mark::Read as u8
}
