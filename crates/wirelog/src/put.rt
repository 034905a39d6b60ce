// The log's writer: one record laid over the start of an output.
ghost use Rattle.std.specs.Prelude.{◌≡◌, ◌++◌, ◌+◌, ◌<◌, ◌≤◌, length};
ghost use Rattle.lent.specs.LowFirst.{low_first};
ghost use Rattle.lent.specs.Memory.{over};
ghost use Rattle.lent.specs.Number.{written};
ghost use Rattle.wirelog.specs.Record.{record_of};
ghost use Rattle.wirelog.specs.Put.{Puts};

use crate::kinds;
use lent::refusal::Refusal;

// Length and kind fill a part of four.
fn put_head(counted: u16, kind: u16, part: &mut [u8])
    requires { length part.old ≡ 4 }
    ensures { part.new ≡ low_first counted ++ low_first kind }
{
    part[0..2].copy_from_slice(&counted.to_le_bytes());
    part[2..4].copy_from_slice(&kind.to_le_bytes());
}

// A record laid over the start of an output that is long enough.
fn put_record(kind: u32, body: &[u8], out: &mut [u8])
    requires { (kind < 65536) × (length body.now < 65534) × (4 + length body.now ≤ length out.old) }
    ensures { out.new ≡ over (record_of kind body.now) out.old }
{
    put_head(2 + body.len() as u16, kind as u16, &mut out[0..4]);
    let end = 4 + body.len();
    out[4..end].copy_from_slice(body);
}

// The record of a kind and a body; how many bytes it has.
pub fn put(kind: u32, body: &[u8], out: &mut [u8]) -> Result<usize, Refusal>
    ensures { Puts kind body.now out.old (written result) out.new }
{
    if !kinds::is_known(kind) || !kinds::is_within(kind, body) {
        return Err(Refusal::BodyLimits);
    }
    let length = 4 + body.len();
    if out.len() < length {
        return Err(Refusal::ShortOutput);
    }
    put_record(kind, body, out);
    Ok(length)
}
