// What C links with, one archive: the entries of crate capi under C's calling convention, each with the clause of capi's.
#![tactic(auto)]

ghost use Rattle.pec.specs.Word.{CheckWord};
ghost use Rattle.conversions.specs.Conversions.{Builds, TakesApart};
ghost use Rattle.frames.specs.Writer.{Wrote};
ghost use Rattle.chain.specs.Chain.{Serves};
ghost use Rattle.host.specs.Reader.{HandsOut};
ghost use Rattle.cells.specs.Cells.{ReadsCells};
ghost use Rattle.wake.specs.Wake.{Waits};
ghost use Rattle.wirelog.specs.Put.{Puts};
ghost use Rattle.wirelog.specs.Flat.{LaysFlat};
ghost use Rattle.wirelog.specs.Walk.{Walks};
ghost use Rattle.capi.specs.Lent.{AddsLent};

use cells::Readings;
use chain::Heard;
use conversions::{Code, Conversion};
use lent::Written;
use tally::Tally;
use wake::Wake;
use wirelog::flat::FlatRecord;
use wirelog::walk::Walked;

#[unsafe(no_mangle)]
pub extern "C" fn rig_pec(bytes: &[u8]) -> u16
    ensures { CheckWord bytes.now result }
{
    capi::rig_pec(bytes)
}

#[unsafe(no_mangle)]
pub extern "C" fn rig_write(n: u32, code: u32, data: &[u8], out: &mut [u8]) -> Written
    ensures { Wrote n code «data».now out.old result out.new }
{
    capi::rig_write(n, code, data, out)
}

#[unsafe(no_mangle)]
pub extern "C" fn rig_chain(n: u32, frame: &[u8], state: &mut [u8], reply: &mut [u8]) -> Heard
    ensures { Serves n frame.now state.old reply.old result state.new reply.new }
{
    capi::rig_chain(n, frame, state, reply)
}

#[unsafe(no_mangle)]
pub extern "C" fn rig_read(n: u32, code: u32, reply: &[u8], data: &mut [u8], marks: &mut [u8]) -> u8
    ensures { HandsOut n code reply.now «data».old marks.old result «data».new marks.new }
{
    capi::rig_read(n, code, reply, data, marks)
}

#[unsafe(no_mangle)]
pub extern "C" fn rig_cells(groups: &[u8], marks: &[u8]) -> Readings
    ensures { ReadsCells groups.now marks.now result }
{
    capi::rig_cells(groups, marks)
}

#[unsafe(no_mangle)]
pub extern "C" fn rig_tally_add(tally: &mut Tally, marks: &[u8]) -> u8
    ensures { AddsLent tally.old marks.now result tally.new }
{
    capi::rig_tally_add(tally, marks)
}

#[unsafe(no_mangle)]
pub extern "C" fn rig_wake(n: u32, last: u32, clock: u32) -> Wake
    ensures { Waits n last clock result }
{
    capi::rig_wake(n, last, clock)
}

#[unsafe(no_mangle)]
pub extern "C" fn rig_conversion_code(
    command: u32,
    mode: u32,
    discharge: u32,
    pull_up: u32,
    choice: u32,
) -> Code
    ensures { Builds command mode discharge pull_up choice result }
{
    capi::rig_conversion_code(command, mode, discharge, pull_up, choice)
}

#[unsafe(no_mangle)]
pub extern "C" fn rig_conversion_of(code: u32) -> Conversion
    ensures { TakesApart code result }
{
    capi::rig_conversion_of(code)
}

#[unsafe(no_mangle)]
pub extern "C" fn rig_log_put(kind: u32, body: &[u8], out: &mut [u8]) -> Written
    ensures { Puts kind body.now out.old result out.new }
{
    capi::rig_log_put(kind, body, out)
}

#[unsafe(no_mangle)]
pub extern "C" fn rig_log_at(log: &[u8], place: usize) -> FlatRecord
    ensures { LaysFlat log.now place result }
{
    capi::rig_log_at(log, place)
}

#[unsafe(no_mangle)]
pub extern "C" fn rig_log_walk(log: &[u8]) -> Walked
    ensures { Walks log.now result }
{
    capi::rig_log_walk(log)
}
