// The frame writer: each case lends an output of `room` bytes 0xAA and shows it whole afterwards.
ghost use Rattle.std.specs.Prelude.{◌≤◌};

use lent::Written;
use say::{Bytes, Hex};
use std::io;

fn case(rt: &impl Print, n: u32, code: u32, data: &[u8], room: usize) -> io::Result<()>
    requires { room ≤ 132 }
{
    let mut all = [0xAAu8; 132];
    let out = &mut all[..room];
    let written = Written::from(frames::writer::write(n, code, data, out));
    println!(rt;
        "write {n} {} {} {room} : {} {} {}",
        Hex(code, 3),
        Bytes(data),
        written.number,
        written.length,
        Bytes(out),
    )
}

pub(crate) fn show(rt: &impl Print) -> io::Result<()> {
    println!(rt; "# writer")?;
    case(rt, 1, 0x001, b"\x00\x00\x00\x00\x00\x00", 12)?;
    case(rt, 1, 0x001, b"\x00\x00\x00\x00\x00\x00", 16)?;
    case(
        rt,
        2,
        0x001,
        b"\x01\x02\x03\x04\x05\x06\x11\x12\x13\x14\x15\x16",
        20,
    )?;
    case(rt, 2, 0x004, b"", 20)?;
    case(rt, 3, 0x711, b"", 4)?;
    case(rt, 16, 0x712, b"", 6)?;
    case(rt, 0, 0x001, b"\x00\x00\x00\x00\x00\x00", 12)?;
    case(rt, 17, 0x001, b"", 12)?;
    case(rt, 4294967295, 0x001, b"", 0)?;
    case(rt, 1, 0x003, b"\x00\x00\x00\x00\x00\x00", 12)?;
    case(rt, 1, 0x801, b"\x00\x00\x00\x00\x00\x00", 12)?;
    case(rt, 1, 0x10001, b"\x00\x00\x00\x00\x00\x00", 12)?;
    case(rt, 1, 0x001, b"\x00\x00\x00\x00\x00", 12)?;
    case(rt, 1, 0x001, b"\x00\x00\x00\x00\x00\x00\x00", 12)?;
    case(rt, 1, 0x002, b"\x00", 12)?;
    case(rt, 1, 0x711, b"\x00", 4)?;
    case(rt, 1, 0x001, b"\x00\x00\x00\x00\x00\x00", 11)?;
    case(rt, 16, 0x001, &[0; 96], 132)?;
    case(rt, 16, 0x001, &[0; 96], 131)?;
    case(rt, 1, 0x711, b"", 3)?;
    case(rt, 0, 0x003, b"\x00", 0)?;
    case(rt, 1, 0x003, b"\x00", 0)?;
    case(rt, 1, 0x001, b"\x00", 0)
}
