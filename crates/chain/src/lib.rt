// The chain: a model of 1 to 16 devices, their registers in lent state.
#![tactic(auto)]

ghost use Rattle.std.specs.Prelude.{◌≡◌, ◌+◌, ◌-◌, ◌^◌, ◌<◌, ◌≤◌, length, false, Err};
ghost use Rattle.lent.specs.Memory.{over};
ghost use Rattle.lent.specs.Refusal.{pick};
ghost use Rattle.frames.specs.Size.{outside};
ghost use Rattle.frames.specs.Kind.{is_read, frame_length};
ghost use Rattle.frames.specs.Answers.{kind_number, kind_given, group_given};
ghost use Rattle.frames.specs.Commands.{kind_of, group_of};
ghost use Rattle.registers.specs.State.{Sound};
ghost use Rattle.registers.specs.Effect.{silence, answers, clear_count, changed, report};
ghost use Rattle.chain.specs.Chain.{code_of, Serves};
ghost use Rattle.chain.specs.Flat.{heard};

use frames::commands;
use frames::commands::{Command, Kind};
use frames::size::Devices;
use lent::refusal::Refusal;

// For C: the word, 0 on refusal.
#[repr(C)]
#[derive(Clone, Copy)]
pub struct Heard {
    pub number: u8,
    pub word: u16,
}

impl From<Result<u16, Refusal>> for Heard {
    ghost from_gives = { λ given flat. flat ≡ heard given };

    #[tactic(auto, unfolding(crate::specs::Flat::heard))]
    fn from(given: Result<u16, Refusal>) -> Heard {
        match given {
            Ok(word) => Heard { number: 0, word },
            Err(refusal) => Heard {
                number: u8::from(refusal),
                word: 0,
            },
        }
    }
}

// The word of a command that every device obeys: the low n bits.
fn everyone(n: Devices) -> u16
    ensures { result ≡ 2 ^ n.count - 1 }
{
    let above: u32 = 1 << n.count;
    (above - 1) as u16
}

// What a good frame does to the state, and what its part of the reply behind the command becomes, by the kind of its command; the word.
fn obey(n: Devices, command: Command, frame: &[u8], state: &mut [u8], part: &mut [u8]) -> u16
    requires { (command.group < 18) × (kind_number command.kind ≡ 3 → command.group + clear_count command.group ≤ 18) × (length frame.now ≡ frame_length n.count (kind_number command.kind)) × Sound n.count state.old × (4 + length part.old ≡ length frame.now) }
    ensures { (result ≡ report n.count (kind_number command.kind) frame.now)
        × (state.new ≡ changed n.count (kind_number command.kind) command.group frame.now state.old)
        × (part.new ≡ pick (is_read (kind_number command.kind)) (answers n.count command.group state.old) (silence (length part.old))) }
{
    let group = usize::from(command.group);
    match command.kind {
        Kind::Write => registers::write::store_groups(n, group, frame, state, part),
        Kind::Read => {
            registers::read::put_answers(n, group, &state[..], part);
            0
        }
        Kind::Clear => {
            registers::clear::clear_groups(n, group, state);
            everyone(n)
        }
        Kind::Conversion => everyone(n),
    }
}

// What a frame asks for.
#[tactic(auto, unfolding(crate::specs::Chain::code_of))]
fn asked(frame: &[u8]) -> Option<Command>
    requires { 4 ≤ length frame.now }
    ensures { (kind_given result ≡ kind_of (code_of frame.now)) × (group_given result ≡ group_of (code_of frame.now)) }
{
    let code = u16::from_be_bytes([frame[0], frame[1]]);
    commands::find(code.into())
}

// A refusal that shows the silence of the wire, in as many bytes of the reply as the frame has.
#[tactic(auto, using(registers::proofs::Silence::silence_over), unfolding(registers::specs::Effect::silence))]
fn refuse(refusal: Refusal, count: usize, reply: &mut [u8]) -> Result<u16, Refusal>
    requires { count ≤ length reply.old }
    ensures { (result ≡ Err refusal) × (reply.new ≡ over (silence count) reply.old) }
{
    lent::fill(&mut reply[0..count], 255);
    Err(refusal)
}

// What n devices hear of a frame, where the lent state is sound and the reply as long as it has to be.
fn hear(n: Devices, frame: &[u8], state: &mut [u8], reply: &mut [u8]) -> Result<u16, Refusal>
    requires { (outside n.count ≡ false) × Sound n.count state.old × (length frame.now ≤ length reply.old) }
    ensures { Serves n.count frame.now state.old reply.old (heard result) state.new reply.new }
{
    let length = frame.len();
    if length < 4 {
        return refuse(Refusal::WrongFrame, length, reply);
    }
    if !pec::is_right(&frame[0..4]) {
        return refuse(Refusal::WrongPec, length, reply);
    }
    let Some(command) = asked(frame) else {
        return refuse(Refusal::UnknownCommand, length, reply);
    };
    if length != frames::writer::frame_length(n, command.kind.into()) {
        return refuse(Refusal::WrongFrame, length, reply);
    }
    lent::fill(&mut reply[0..4], 255);
    Ok(obey(n, command, frame, state, &mut reply[4..length]))
}

// What n devices hear of a frame, and what they answer.
pub fn serve(n: u32, frame: &[u8], state: &mut [u8], reply: &mut [u8]) -> Result<u16, Refusal>
    ensures { Serves n frame.now state.old reply.old (heard result) state.new reply.new }
{
    let devices = Devices::of(n as usize)?;
    if state.len() != registers::state::state_length(devices) {
        return Err(Refusal::WrongLength);
    }
    if registers::state::pin_above(devices, state) {
        return Err(Refusal::WrongLength);
    }
    if reply.len() < frame.len() {
        return Err(Refusal::ShortOutput);
    }
    hear(devices, frame, state, reply)
}
