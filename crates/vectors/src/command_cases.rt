// The 26 commands by their names in document 002, with their kind, group and command group on the wire.
use frames::commands::{self, Command, Kind};
use lent::refusal::Refusal;
use say::{Bytes, Hex};
use std::{fmt, io};

const COMMANDS: [(u16, &str); 26] = [
    (0x001, "WRCFGA"),
    (0x002, "RDCFGA"),
    (0x004, "RDCVA"),
    (0x006, "RDCVB"),
    (0x008, "RDCVC"),
    (0x009, "RDCVE"),
    (0x00A, "RDCVD"),
    (0x00B, "RDCVF"),
    (0x00C, "RDAUXA"),
    (0x00D, "RDAUXC"),
    (0x00E, "RDAUXB"),
    (0x00F, "RDAUXD"),
    (0x010, "RDSTATA"),
    (0x012, "RDSTATB"),
    (0x014, "WRSCTRL"),
    (0x016, "RDSCTRL"),
    (0x01C, "WRPSB"),
    (0x01E, "RDPSB"),
    (0x020, "WRPWM"),
    (0x022, "RDPWM"),
    (0x024, "WRCFGB"),
    (0x026, "RDCFGB"),
    (0x711, "CLRCELL"),
    (0x712, "CLRAUX"),
    (0x721, "WRCOMM"),
    (0x722, "RDCOMM"),
];

// What a code asks for: kind and group, and of a clear the last group it sets too.
#[derive(Clone, Copy)]
struct Asked(u32);

impl fmt::Display for Asked {
    fn fmt<W: fmt::Write>(&self, f: &mut fmt::Formatter<W>) -> fmt::Result {
        let Some(Command { kind, group }) = commands::find(self.0) else {
            return f.write_str("unknown");
        };
        match kind {
            Kind::Write => write!(f, "write {group}"),
            Kind::Read => write!(f, "read {group}"),
            Kind::Clear => {
                let last = last_cleared(self.0).map_err(|_| fmt::Error)?;
                write!(f, "clear {group}-{last}")
            }
            Kind::Conversion => f.write_str("conversion"),
        }
    }
}

// Found by clearing the registers of one device.
fn last_cleared(code: u32) -> Result<usize, Refusal> {
    let mut state = [0u8; 109];
    let mut frame = [0u8; 4];
    let mut reply = [0u8; 4];
    frames::writer::write(1, code, b"", &mut frame)?;
    chain::serve(1, &frame, &mut state, &mut reply)?;
    let mut last = 0;
    for group in 0..18 {
        if state[6 * group] == 255 {
            last = group;
        }
    }
    Ok(last)
}

pub(crate) fn show(rt: &impl Print) -> io::Result<()> {
    println!(rt; "# commands")?;
    for (short, name) in COMMANDS {
        let code = u32::from(short);
        let mut wire = [0u8; 4];
        frames::groups::put_command(code, &mut wire);
        println!(rt;
            "command {} {name} {} {}",
            Hex(code, 3),
            Asked(code),
            Bytes(&wire)
        )?;
    }
    Ok(())
}
