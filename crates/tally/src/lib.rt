// The link tally: replies, groups read, groups wrong, groups silent, each a 32-bit count.
#![tactic(auto)]

ghost use Rattle.std.specs.Prelude.{◌≡◌, ◌≤◌, false, length};
ghost use Rattle.lent.specs.Refusal.{pick};
ghost use Rattle.host.specs.Marks.{any_above};
ghost use Rattle.tally.specs.Tally.{past_any, plus, counted, added, Adds};

use frames::size::Devices;
use host::marks;
use host::marks::Mark;
use lent::refusal::Refusal;

#[repr(C)]
#[derive(Clone, Copy)]
pub struct Tally {
    pub replies: u32,
    pub read: u32,
    pub wrong: u32,
    pub silent: u32,
}

// A reply's own tally: one reply, and its marks by sort. No mark is above 2, so what is neither read nor wrong is silent.
fn count_all(reply: &[u8]) -> Tally
    requires { (length reply.now ≤ 16) × (any_above reply.now ≡ false) }
    ensures { result ≡ counted reply.now }
{
    let mut read: u32 = 0;
    let mut wrong: u32 = 0;
    for mark in reply {
        read += u32::from(*mark == Mark::Read as u8);
        wrong += u32::from(*mark == Mark::Wrong as u8);
    }
    let all = reply.len() as u32;
    Tally {
        replies: 1,
        read,
        wrong,
        silent: all - read - wrong,
    }
}

// Both together, where no count would pass 4,294,967,295, which it may reach. By `?` rig.c's tally of one mark takes 1.5 times as long where clang makes it.
fn sum(tally: Tally, more: Tally) -> Option<Tally>
    ensures { result ≡ pick (past_any (plus tally more)) None (Some (plus tally more)) }
{
    let Some(replies) = tally.replies.checked_add(more.replies) else {
        return None;
    };
    let Some(read) = tally.read.checked_add(more.read) else {
        return None;
    };
    let Some(wrong) = tally.wrong.checked_add(more.wrong) else {
        return None;
    };
    let Some(silent) = tally.silent.checked_add(more.silent) else {
        return None;
    };
    Some(Tally {
        replies,
        read,
        wrong,
        silent,
    })
}

// The tally with a reply's marks added.
pub fn add(tally: Tally, marks: &[u8]) -> Result<Tally, Refusal>
    ensures { Adds tally marks.now (added tally result) }
{
    Devices::of(marks.len())?;
    if marks::any_above(marks) {
        return Err(Refusal::WrongLength);
    }
    sum(tally, count_all(marks)).ok_or(Refusal::TallyFull)
}
