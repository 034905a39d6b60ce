// The host reader: for each device of a reply a mark and six bytes.
ghost use Rattle.std.specs.Prelude.{◌≡◌, ◌+◌, ◌*◌, ◌≤◌, length};
ghost use Rattle.lent.specs.Memory.{over};
ghost use Rattle.lent.specs.Number.{number_given};
ghost use Rattle.frames.specs.Answers.{kind_given, group_given};
ghost use Rattle.frames.specs.Commands.{kind_of, group_of};
ghost use Rattle.host.specs.Marks.{silent, mark_of, bytes_of};
ghost use Rattle.host.specs.Sorts.{mark_number};
ghost use Rattle.host.specs.Reader.{all_bytes, all_marks, HandsOut};

use crate::marks::Mark;
use frames::commands;
use frames::commands::{Command, Kind};
use frames::size::Devices;
use lent::refusal::Refusal;

// Eight bytes 0xFF, as one number.
const SILENCE: u64 = 0xFFFF_FFFF_FFFF_FFFF;

// Whether a group is silent: its eight bytes are 0xFF.
fn is_silent(group: &[u8]) -> bool
    requires { length group.now ≡ 8 }
    ensures { result ≡ silent group.now }
{
    lent::eight_bytes(group) == SILENCE
}

// One device: its mark, and its six bytes fill a part. It is zeroed between the two tests, so that a compiler reads the group anew for the second.
fn read_group(group: &[u8], part: &mut [u8]) -> Mark
    requires { (length group.now ≡ 8) × (length part.old ≡ 6) }
    ensures { (mark_number result ≡ mark_of group.now) × (part.new ≡ bytes_of group.now) }
{
    let silent = is_silent(group);
    lent::fill(part, 0);
    if silent {
        return Mark::Silent;
    }
    if !pec::is_right(group) {
        return Mark::Wrong;
    }
    lent::copy_six(&group[0..6], part);
    Mark::Read
}

// All devices, each by its own eight bytes of the reply.
fn read_groups(n: Devices, reply: &[u8], bytes: &mut [u8], marks: &mut [u8])
    requires { (length reply.now ≡ 4 + 8 * n.count) × (6 * n.count ≤ length bytes.old) × (n.count ≤ length marks.old) }
    ensures { (bytes.new ≡ over (all_bytes n.count reply.now) bytes.old) × (marks.new ≡ over (all_marks n.count reply.now) marks.old) }
{
    for k in 0..n.count {
        let from = 4 + 8 * k;
        let at = 6 * k;
        marks[k] = read_group(&reply[from..from + 8], &mut bytes[at..at + 6]).into();
    }
}

// What a code asks for, by a call: with the search taken into it the archive's `read` takes 1.4 times as long for 16 silent devices, by where its loop then lies.
#[inline(never)]
fn find(code: u32) -> Option<Command>
    ensures { (kind_given result ≡ kind_of code) × (group_given result ≡ group_of code) }
{
    commands::find(code)
}

// The reply to a read command from n devices. The first four bytes, where the command went out, are ignored.
pub fn read(
    n: u32,
    code: u32,
    reply: &[u8],
    bytes: &mut [u8],
    marks: &mut [u8],
) -> Result<(), Refusal>
    ensures { HandsOut n code reply.now bytes.old marks.old (number_given result) bytes.new marks.new }
{
    let devices = Devices::of(n as usize)?;
    let command = find(code).ok_or(Refusal::UnknownCommand)?;
    if command.kind != Kind::Read {
        return Err(Refusal::NoRead);
    }
    if reply.len() != 4 + 8 * devices.count {
        return Err(Refusal::WrongLength);
    }
    if bytes.len() < 6 * devices.count || marks.len() < devices.count {
        return Err(Refusal::ShortOutput);
    }
    read_groups(devices, reply, bytes, marks);
    Ok(())
}
