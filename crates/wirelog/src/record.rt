// The log's reader: what stands at a place of a log.
ghost use Rattle.std.specs.Prelude.{◌≡◌, ◌≤◌, length};
ghost use Rattle.wirelog.specs.Found.{whole_at, answered, FindsAt};

use crate::kinds;
use lent::refusal::Refusal;

#[derive(Clone, Copy, Debug, PartialEq, Eq)]
pub enum Found {
    // kind 1 to 4; where the body lies in the log, and how long it is
    Record {
        kind: u32,
        body: usize,
        body_len: usize,
        next: usize,
    },
    // any other kind
    Unknown {
        kind: u32,
        next: usize,
    },
    End,
}

// Whether the record at a place of the log has two bytes of length, at least 2 of it, and all that it counts.
#[tactic(auto, using(crate::proofs::FoundLaws::too_short, crate::proofs::FoundLaws::too_low, crate::proofs::FoundLaws::too_long, crate::proofs::FoundLaws::all_there), unfolding(crate::specs::Record::length_at))]
fn is_whole(log: &[u8], place: usize) -> bool
    requires { place ≤ length log.now }
    ensures { result ≡ whole_at log.now place }
{
    let left = log.len() - place;
    if left < 2 {
        return false;
    }
    let counted = usize::from(lent::low_first(log, place));
    2 <= counted && counted <= left - 2
}

// What stands at a place of a log.
pub fn record_at(log: &[u8], place: usize) -> Result<Found, Refusal>
    ensures { FindsAt log.now place (answered result) }
{
    if place == log.len() {
        return Ok(Found::End);
    }
    if log.len() < place || !is_whole(log, place) {
        return Err(Refusal::BrokenRecord);
    }
    let counted = usize::from(lent::low_first(log, place));
    let kind = u32::from(lent::low_first(log, place + 2));
    let body = place + 4;
    let body_len = counted - 2;
    let next = place + 2 + counted;
    if !kinds::is_known(kind) {
        return Ok(Found::Unknown { kind, next });
    }
    if !kinds::is_within(kind, &log[body..next]) {
        return Err(Refusal::BodyLimits);
    }
    Ok(Found::Record {
        kind,
        body,
        body_len,
        next,
    })
}
