// Runs what the data sheets and documents 01 and 02 print against the rig, and shows each answer. The file 'stdout' beside src/ is what the second
// implementation answers to the same questions.
#![tactic(auto)]

mod cells_cases;
mod chain_cases;
mod command_cases;
mod conversion_cases;
mod log_cases;
mod reader_cases;
mod tally_cases;
mod wake_cases;
mod words;
mod writer_cases;

use std::io;

fn main(rt: HostRuntime) -> io::Result<()> {
    words::show(&rt)?;
    command_cases::show(&rt)?;
    conversion_cases::show(&rt)?;
    writer_cases::show(&rt)?;
    chain_cases::show(&rt)?;
    wake_cases::show(&rt)?;
    cells_cases::show(&rt)?;
    tally_cases::show(&rt)?;
    reader_cases::show(&rt)?;
    log_cases::show(&rt)
}
