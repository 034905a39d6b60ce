// The C entries. Each is thin and carries the statement of the layer below; include/rig.h is their manual. Crate capi_c exports them to C.
#![tactic(auto)]

ghost use Rattle.pec.specs.Word.{CheckWord};
ghost use Rattle.conversions.specs.Conversions.{Builds, TakesApart};
ghost use Rattle.frames.specs.Writer.{Wrote};
ghost use Rattle.chain.specs.Chain.{Serves};
ghost use Rattle.host.specs.Reader.{HandsOut};
ghost use Rattle.cells.specs.Cells.{ReadsCells};
ghost use Rattle.wake.specs.Wake.{Waits};
ghost use Rattle.wirelog.specs.Put.{Puts};
ghost use Rattle.wirelog.specs.Flat.{LaysFlat};
ghost use Rattle.wirelog.specs.Walk.{Walks};
ghost use Rattle.capi.specs.Lent.{AddsLent};

use cells::Readings;
use chain::Heard;
use conversions::{Code, Conversion, Fields, Parts};
use lent::{Written, refusal};
use tally::Tally;
use wake::Wake;
use wirelog::flat::FlatRecord;
use wirelog::walk::Walked;

// The check word.
pub fn rig_pec(bytes: &[u8]) -> u16
    ensures { CheckWord bytes.now result }
{
    pec::pec(bytes)
}

// The frame of a command.
pub fn rig_write(n: u32, code: u32, data: &[u8], out: &mut [u8]) -> Written
    ensures { Wrote n code «data».now out.old result out.new }
{
    Written::from(frames::writer::write(n, code, data, out))
}

// What a chain hears of a frame, and answers.
pub fn rig_chain(n: u32, frame: &[u8], state: &mut [u8], reply: &mut [u8]) -> Heard
    ensures { Serves n frame.now state.old reply.old result state.new reply.new }
{
    Heard::from(chain::serve(n, frame, state, reply))
}

// What a reply holds.
pub fn rig_read(n: u32, code: u32, reply: &[u8], data: &mut [u8], marks: &mut [u8]) -> u8
    ensures { HandsOut n code reply.now «data».old marks.old result «data».new marks.new }
{
    refusal::number(host::reader::read(n, code, reply, data, marks))
}

// The cells of one device.
pub fn rig_cells(groups: &[u8], marks: &[u8]) -> Readings
    ensures { ReadsCells groups.now marks.now result }
{
    Readings::from(cells::reading(groups, marks))
}

// The tally that the controller lends and finds updated; a refusal leaves it as it was.
#[tactic(auto, unfolding(tally::specs::Tally::added))]
pub fn rig_tally_add(tally: &mut Tally, marks: &[u8]) -> u8
    ensures { AddsLent tally.old marks.now result tally.new }
{
    match tally::add(*tally, marks) {
        Ok(sum) => {
            *tally = sum;
            0
        }
        Err(refusal) => u8::from(refusal),
    }
}

// The wait before a frame.
pub fn rig_wake(n: u32, last: u32, clock: u32) -> Wake
    ensures { Waits n last clock result }
{
    Wake::from(wake::wait(n, last, clock))
}

// The code of a conversion command with its fields.
pub fn rig_conversion_code(
    command: u32,
    mode: u32,
    discharge: u32,
    pull_up: u32,
    choice: u32,
) -> Code
    ensures { Builds command mode discharge pull_up choice result }
{
    let fields = Fields {
        mode,
        discharge,
        pull_up,
        choice,
    };
    Code::from(conversions::conversion_code(Parts { command, fields }))
}

// The command and fields of a conversion code.
pub fn rig_conversion_of(code: u32) -> Conversion
    ensures { TakesApart code result }
{
    Conversion::from(conversions::conversion_of(code))
}

// A record of the wire log.
pub fn rig_log_put(kind: u32, body: &[u8], out: &mut [u8]) -> Written
    ensures { Puts kind body.now out.old result out.new }
{
    Written::from(wirelog::put::put(kind, body, out))
}

// The record at a place of a wire log.
pub fn rig_log_at(log: &[u8], place: usize) -> FlatRecord
    ensures { LaysFlat log.now place result }
{
    wirelog::flat::record_at(log, place)
}

// A whole wire log, record after record.
pub fn rig_log_walk(log: &[u8]) -> Walked
    ensures { Walks log.now result }
{
    wirelog::walk::walk(log)
}
