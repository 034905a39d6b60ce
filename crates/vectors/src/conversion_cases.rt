// The conversion commands by their names in document 002: built at the edges of their fields, taken apart, and sent; and codes near by, which are unknown.
ghost use Rattle.std.specs.Prelude.{◌≤◌};

use chain::Heard;
use conversions::{Code, Conversion, Fields, Parts};
use lent::refusal;
use say::Hex;
use std::io;

// By the numbers of the commands.
const NAMES: [&str; 13] = [
    "ADCV", "ADOW", "CVST", "ADOL", "ADAX", "ADAXD", "AXOW", "AXST", "ADSTAT", "ADSTATD", "STATST",
    "ADCVAX", "ADCVSC",
];

// Codes of a field out of its range, of the table of 26, above eleven bits, and of every other command of 002's Table 36.
const UNKNOWN: [u32; 20] = [
    0x267, 0x407, 0x40F, 0x207, 0x22F, 0x46D, 0x417, 0x001, 0x711, 0xA60, 0x10260, 4294967295,
    0x715, 0x714, 0x019, 0x018, 0x713, 0x723, 0x028, 0x029,
];

// Two conversions, a choice out of its range, and every other command of Table 36.
const SENT: [u16; 11] = [
    0x360, 0x5FF, 0x267, 0x715, 0x714, 0x019, 0x018, 0x713, 0x723, 0x028, 0x029,
];

#[tactic(auto, using(crate::proofs::Names::named))]
fn apart(rt: &impl Print, code: u32) -> io::Result<()> {
    let taken = conversions::conversion_of(code);
    let name = match taken {
        Ok(parts) => NAMES[parts.command as usize],
        Err(_) => "-",
    };
    let flat = Conversion::from(taken);
    println!(rt;
        "apart {} : {} {} {name} {} {} {} {}",
        Hex(code, 3),
        flat.number,
        flat.command,
        flat.mode,
        flat.discharge,
        flat.pull_up,
        flat.choice,
    )
}

fn build(
    rt: &impl Print,
    command: u32,
    mode: u32,
    discharge: u32,
    pull_up: u32,
    choice: u32,
) -> io::Result<()> {
    let fields = Fields {
        mode,
        discharge,
        pull_up,
        choice,
    };
    let built = conversions::conversion_code(Parts { command, fields });
    let flat = Code::from(built);
    println!(rt;
        "build {command} {mode} {discharge} {pull_up} {choice} : {} {}",
        flat.number,
        Hex(flat.code.into(), 3),
    )?;
    match built {
        Ok(code) => apart(rt, code.into()),
        Err(_) => Ok(()),
    }
}

// The ends of every field of a command, and each field past its end. Where a field may be 0, what is below it cannot be said.
fn edges(rt: &impl Print, command: u32, dcp: u32, pup: u32, least: u32, most: u32) -> io::Result<()>
    requires { (dcp ≤ 1) × (pup ≤ 1) × (most ≤ 6) }
{
    build(rt, command, 0, 0, 0, least)?;
    build(rt, command, 3, dcp, pup, most)?;
    build(rt, command, 4, 0, 0, least)?;
    build(rt, command, 0, dcp + 1, 0, least)?;
    build(rt, command, 0, 0, pup + 1, least)?;
    build(rt, command, 0, 0, 0, most + 1)?;
    if 0 < least {
        build(rt, command, 0, 0, 0, least - 1)?;
    }
    Ok(())
}

fn commands(rt: &impl Print) -> io::Result<()> {
    edges(rt, 0, 1, 0, 0, 6)?;
    edges(rt, 1, 1, 1, 0, 6)?;
    edges(rt, 2, 0, 0, 1, 2)?;
    edges(rt, 3, 1, 0, 0, 0)?;
    edges(rt, 4, 0, 0, 0, 6)?;
    edges(rt, 5, 0, 0, 0, 6)?;
    edges(rt, 6, 0, 1, 0, 6)?;
    edges(rt, 7, 0, 0, 1, 2)?;
    edges(rt, 8, 0, 0, 0, 4)?;
    edges(rt, 9, 0, 0, 0, 4)?;
    edges(rt, 10, 0, 0, 1, 2)?;
    edges(rt, 11, 1, 0, 0, 0)?;
    edges(rt, 12, 1, 0, 0, 0)?;
    build(rt, 1, 0, 1, 0, 0)?;
    build(rt, 1, 0, 0, 1, 0)?;
    build(rt, 13, 0, 0, 0, 0)?;
    build(rt, 4294967295, 0, 0, 0, 0)?;
    build(rt, 256, 0, 0, 0, 0)?;
    build(rt, 0, 65536, 0, 0, 0)
}

// What writer, chain and reader make of a code: their numbers, and the chain's word.
fn sent(rt: &impl Print, short: u16) -> io::Result<()> {
    let code = u32::from(short);
    let mut frame = [0u8; 4];
    let mut state = [0u8; 109];
    let mut reply = [0u8; 4];
    let written = frames::writer::write(1, code, b"", &mut frame);
    frames::groups::put_command(code, &mut frame);
    let heard = Heard::from(chain::serve(1, &frame, &mut state, &mut reply));
    let read = host::reader::read(1, code, &reply, &mut [0; 6], &mut [0; 1]);
    println!(rt;
        "sent {} : {} {} {} {}",
        Hex(code, 3),
        refusal::number(written),
        heard.number,
        Hex(heard.word.into(), 4),
        refusal::number(read),
    )
}

pub(crate) fn show(rt: &impl Print) -> io::Result<()> {
    println!(rt; "# conversions")?;
    commands(rt)?;
    for code in UNKNOWN {
        apart(rt, code)?;
    }
    for code in SENT {
        sent(rt, code)?;
    }
    Ok(())
}
