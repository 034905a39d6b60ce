// The frame writer.
ghost use Rattle.std.specs.Prelude.{◌≡◌, ◌≤◌, length};
ghost use Rattle.lent.specs.Memory.{over};
ghost use Rattle.lent.specs.Number.{written};
ghost use Rattle.frames.specs.Answers.{kind_number};
ghost use Rattle.frames.specs.Kind.{data_needed, frame_length};
ghost use Rattle.frames.specs.Commands.{kind_of};
ghost use Rattle.frames.specs.Frame.{frame_of};
ghost use Rattle.frames.specs.Writer.{Wrote};

use crate::commands::Kind;
use crate::size::Devices;
use crate::{commands, groups};
use lent::refusal::Refusal;

// How many bytes of host data a command of a kind takes.
#[tactic(auto, using(crate::proofs::KindCases::needs_data, crate::proofs::KindCases::needs_none), unfolding(crate::specs::Answers::kind_number))]
fn data_needed(n: Devices, kind: Kind) -> usize
    ensures { result ≡ data_needed n.count (kind_number kind) }
{
    if kind == Kind::Write { 6 * n.count } else { 0 }
}

// How many bytes the frame of a command of a kind has, by the number of the kind, since any is answered: of a write or a read, 1 and 2, a group for each device.
#[tactic(auto, unfolding(crate::specs::Kind::frame_length, lent::specs::Refusal::pick))]
pub fn frame_length(n: Devices, kind: u8) -> usize
    ensures { result ≡ frame_length n.count kind }
{
    if 2 < kind { 4 } else { 4 + 8 * n.count }
}

// The frame of a known command, laid over the start of an output that is long enough.
fn put_frame(n: Devices, code: u32, kind: Kind, bytes: &[u8], out: &mut [u8])
    requires { (kind_number kind ≡ kind_of code) × (length bytes.now ≡ data_needed n.count (kind_number kind)) × (frame_length n.count (kind_number kind) ≤ length out.old) }
    ensures { out.new ≡ over (frame_of n.count code bytes.now) out.old }
{
    groups::put_command(code, &mut out[0..4]);
    let end = 4 + 8 * n.count;
    match kind {
        Kind::Write => groups::put_groups(n, bytes, &mut out[4..end]),
        Kind::Read => lent::fill(&mut out[4..end], 255),
        Kind::Clear | Kind::Conversion => {}
    }
}

// The frame of a command for n devices, from their data in device order; how many bytes it has.
pub fn write(n: u32, code: u32, bytes: &[u8], out: &mut [u8]) -> Result<usize, Refusal>
    ensures { Wrote n code bytes.now out.old (written result) out.new }
{
    let devices = Devices::of(n as usize)?;
    let command = commands::find(code).ok_or(Refusal::UnknownCommand)?;
    if bytes.len() != data_needed(devices, command.kind) {
        return Err(Refusal::WrongLength);
    }
    let length = frame_length(devices, command.kind.into());
    if out.len() < length {
        return Err(Refusal::ShortOutput);
    }
    put_frame(devices, code, command.kind, bytes, out);
    Ok(length)
}
