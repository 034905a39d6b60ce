// The chain: each case lends a state of which byte j is (7j + 1) mod 251, but for the pins, which are given, and a reply of bytes 0xAA, and shows the groups
// and pins that changed and the whole reply. So bit 1 of CFGA's first byte is 0 as device 1 stores it, 1 as device 2 does, and so on.
ghost use Rattle.std.specs.Prelude.{◌≤◌, length};

use chain::Heard;
use say::{Bytes, Hex};
use std::{fmt, io};

// Reads of CFGA from one device and from two, and writes of it to two with bit 1 of the first byte set and clear.
const READ_ONE: &[u8; 12] = b"\x00\x02\x2B\x0A\xFF\xFF\xFF\xFF\xFF\xFF\xFF\xFF";

const READ_TWO: &[u8; 20] =
    b"\x00\x02\x2B\x0A\xFF\xFF\xFF\xFF\xFF\xFF\xFF\xFF\xFF\xFF\xFF\xFF\xFF\xFF\xFF\xFF";

const WRITE_SET: &[u8; 20] =
    b"\x00\x01\x3D\x6E\x02\xA2\xA3\xA4\xA5\xA6\x86\x9E\x02\xA2\xA3\xA4\xA5\xA6\x86\x9E";

const WRITE_UNSET: &[u8; 20] =
    b"\x00\x01\x3D\x6E\xFD\xB2\xB3\xB4\xB5\xB6\xD3\xB4\xFD\xB2\xB3\xB4\xB5\xB6\xD3\xB4";

// The state of as many as seventeen devices.
fn prepared(pins: &[u8]) -> [u8; 1853] {
    let mut state = [0u8; 1853];
    for j in 0..1853 {
        state[j] = ((7 * j + 1) % 251) as u8;
    }
    for (device, pin) in state.chunks_exact_mut(109).zip(pins) {
        device[108] = *pin;
    }
    state
}

// The groups and pins of a state that are not what they were: the pin of a device is behind its eighteen groups.
#[derive(Clone, Copy)]
struct Changes<'a> {
    old: &'a [u8],
    new: &'a [u8],
}

impl fmt::Display for Changes<'_> {
    fn fmt<W: fmt::Write>(&self, f: &mut fmt::Formatter<W>) -> fmt::Result {
        let mut none = true;
        let devices = self.old.chunks(109).zip(self.new.chunks(109));
        for (device, (old, new)) in devices.enumerate() {
            for (group, (before, after)) in old.chunks(6).zip(new.chunks(6)).enumerate() {
                if before != after {
                    if !none {
                        f.write_str(",")?;
                    }
                    none = false;
                    write!(f, "{}.{}={}", device + 1, Place(group), Bytes(after))?;
                }
            }
        }
        if none { f.write_str("-") } else { Ok(()) }
    }
}

// A group by its number, or the pin.
#[derive(Clone, Copy)]
struct Place(usize);

impl fmt::Display for Place {
    fn fmt<W: fmt::Write>(&self, f: &mut fmt::Formatter<W>) -> fmt::Result {
        if self.0 == 18 {
            f.write_str("pin")
        } else {
            write!(f, "{}", self.0)
        }
    }
}

fn case(
    rt: &impl Print,
    n: u32,
    frame: &[u8],
    registers: usize,
    pins: &[u8],
    room: usize,
) -> io::Result<()>
    requires { (registers ≤ 1853) × (room ≤ 210) }
{
    let old = prepared(pins);
    let mut all = old;
    let mut replies = [0xAAu8; 210];
    let state = &mut all[..registers];
    let reply = &mut replies[..room];
    let heard = Heard::from(chain::serve(n, frame, state, reply));
    println!(rt;
        "chain {n} {} {registers} {} {room} : {} {} {} {}",
        Bytes(frame),
        Bytes(pins),
        heard.number,
        Hex(heard.word.into(), 4),
        Changes {
            old: &old[..registers],
            new: state
        },
        Bytes(reply),
    )
}

// A long frame: the four bytes of a command laid over the start of the others.
fn long_case(
    rt: &impl Print,
    n: u32,
    command: &[u8; 4],
    frame: &mut [u8],
    registers: usize,
    pins: &[u8],
    room: usize,
) -> io::Result<()>
    requires { (4 ≤ length frame.old) × (registers ≤ 1853) × (room ≤ 210) }
{
    frame[0..4].copy_from_slice(command);
    case(rt, n, frame, registers, pins, room)
}

// A chain of one device whose pin is 1, or of two whose pins are 1 and 0: none of them is the bit that is stored.
fn sound(rt: &impl Print, n: u32, frame: &[u8], room: usize) -> io::Result<()>
    requires { (n ≤ 2) × (room ≤ 210) }
{
    let devices = n as usize;
    case(rt, n, frame, 109 * devices, &b"\x01\x00"[..devices], room)
}

fn writes(rt: &impl Print) -> io::Result<()> {
    sound(
        rt,
        1,
        b"\x00\x01\x3D\x6E\x00\x00\x00\x00\x00\x00\xC2\x12",
        12,
    )?;
    sound(
        rt,
        1,
        b"\x00\x01\x3D\x6F\x00\x00\x00\x00\x00\x00\xC2\x12",
        12,
    )?;
    sound(
        rt,
        1,
        b"\x00\x00\xB6\x5C\x00\x00\x00\x00\x00\x00\xC2\x12",
        12,
    )?;
    sound(
        rt,
        2,
        b"\x00\x01\x3D\x6E\x11\x12\x13\x14\x15\x16\x6D\x58\x01\x02\x03\x04\x05\x06\x22\xEE",
        20,
    )?;
    sound(
        rt,
        2,
        b"\x00\x01\x3D\x6E\x11\x12\x13\x14\x15\x16\x6D\x59\x01\x02\x03\x04\x05\x06\x22\xEE",
        22,
    )?;
    sound(
        rt,
        2,
        b"\x00\x01\x3D\x6E\x11\x12\x13\x14\x15\x16\x6D\x58\x81\x02\x03\x04\x05\x06\x22\xEE",
        20,
    )?;
    sound(
        rt,
        2,
        b"\x00\x01\x3D\x6E\x11\x12\x13\x14\x15\x16\x6D\x59\x81\x02\x03\x04\x05\x06\x22\xEE",
        20,
    )
}

fn reads_and_clears(rt: &impl Print) -> io::Result<()> {
    sound(
        rt,
        1,
        b"\x00\x04\x07\xC2\xFF\xFF\xFF\xFF\xFF\xFF\xFF\xFF",
        12,
    )?;
    sound(
        rt,
        2,
        b"\x00\x09\xD5\x60\xFF\xFF\xFF\xFF\xFF\xFF\xFF\xFF\xFF\xFF\xFF\xFF\xFF\xFF\xFF\xFF",
        20,
    )?;
    sound(
        rt,
        2,
        b"\x00\x0A\xC3\x04\x00\x00\x00\x00\x00\x00\x00\x00\x00\x00\x00\x00\x00\x00\x00\x00",
        24,
    )?;
    sound(rt, 2, b"\x07\x11\xC9\xC0", 4)?;
    sound(rt, 1, b"\x07\x12\xDF\xA4", 7)?;
    long_case(
        rt,
        16,
        b"\x07\x22\x32\xD6",
        &mut [0xFF; 132],
        1744,
        b"\x01\x00\x01\x00\x01\x00\x01\x00\x01\x00\x01\x00\x01\x00\x01\x00",
        132,
    )
}

fn refusals(rt: &impl Print) -> io::Result<()> {
    case(rt, 0, b"\x07\x11\xC9\xC0", 0, b"", 4)?;
    case(rt, 17, b"\x07\x11\xC9\xC0", 1853, &[1; 17], 4)?;
    case(rt, 1, b"\x07\x11\xC9\xC0", 108, b"", 4)?;
    case(rt, 1, b"\x07\x11\xC9\xC0", 110, b"\x01", 4)?;
    sound(rt, 1, b"\x07\x11\xC9\xC0", 3)?;
    sound(rt, 1, b"", 0)?;
    sound(rt, 1, b"\x07\x11\xC9", 5)?;
    sound(rt, 1, b"\x07\x11\xC9\xC0\x00", 8)?;
    sound(rt, 1, b"\x00\x01\x3D\x6E", 4)?;
    sound(rt, 1, b"\x00\x03\xA0\x38", 6)?;
    sound(
        rt,
        1,
        b"\xF8\x04\x09\x70\xFF\xFF\xFF\xFF\xFF\xFF\xFF\xFF",
        12,
    )?;
    sound(rt, 1, b"\x00\x17\x4A\x88", 4)?;
    sound(
        rt,
        1,
        b"\x00\x20\x00\x00\xA1\xA2\xA3\xA4\xA5\xA6\x5D\x64",
        12,
    )?;
    long_case(
        rt,
        1,
        b"\x00\x02\x2B\x0A",
        &mut [0xFF; 204],
        109,
        b"\x01",
        210,
    )?;
    long_case(
        rt,
        1,
        b"\x00\x00\x00\x00",
        &mut [0x00; 200],
        109,
        b"\x01",
        200,
    )?;
    case(rt, 0, b"\x07\x11\xC9", 108, b"", 0)?;
    case(rt, 1, b"\x07\x11\xC9", 108, b"", 0)?;
    sound(rt, 1, b"\x07\x11\xC9", 0)
}

// The pins of the others are 1 and 0 in turn.
fn read_sixteen(rt: &impl Print, last: u8, room: usize) -> io::Result<()>
    requires { room ≤ 210 }
{
    let pins = [1, 0, 1, 0, 1, 0, 1, 0, 1, 0, 1, 0, 1, 0, 1, last];
    long_case(
        rt,
        16,
        b"\x00\x02\x2B\x0A",
        &mut [0xFF; 132],
        1744,
        &pins,
        room,
    )
}

// CFGA written with bit 1 set and with bit 1 clear, and read, with each row of pins; and CFGB, where no pin is seen.
fn pins(rt: &impl Print) -> io::Result<()> {
    case(rt, 2, WRITE_SET, 218, b"\x00\x01", 20)?;
    case(rt, 2, WRITE_SET, 218, b"\x01\x00", 20)?;
    case(rt, 2, WRITE_UNSET, 218, b"\x00\x01", 20)?;
    case(rt, 2, WRITE_UNSET, 218, b"\x01\x00", 20)?;
    case(
        rt,
        2,
        b"\x00\x24\xB1\x9E\x02\xA2\xA3\xA4\xA5\xA6\x86\x9E\xFD\xB2\xB3\xB4\xB5\xB6\xD3\xB4",
        218,
        b"\x00\x01",
        20,
    )?;
    case(rt, 1, READ_ONE, 109, b"\x00", 12)?;
    case(rt, 1, READ_ONE, 109, b"\x01", 12)?;
    case(rt, 2, READ_TWO, 218, b"\x00\x00", 20)?;
    case(rt, 2, READ_TWO, 218, b"\x00\x01", 20)?;
    case(rt, 2, READ_TWO, 218, b"\x01\x00", 20)?;
    case(rt, 2, READ_TWO, 218, b"\x01\x01", 20)?;
    read_sixteen(rt, 0, 132)?;
    sound(
        rt,
        1,
        b"\x00\x26\x2C\xC8\xFF\xFF\xFF\xFF\xFF\xFF\xFF\xFF",
        12,
    )?;
    case(
        rt,
        2,
        b"\x00\x26\x2C\xC8\xFF\xFF\xFF\xFF\xFF\xFF\xFF\xFF\xFF\xFF\xFF\xFF\xFF\xFF\xFF\xFF",
        218,
        b"\x01\x01",
        20,
    )
}

// A pin of 2 or 255 at the first or the last device, with a reply too short and a wrong command too; and the lengths that a state had without its pins.
fn refused_pins(rt: &impl Print) -> io::Result<()> {
    case(rt, 1, READ_ONE, 109, b"\x02", 12)?;
    case(
        rt,
        1,
        b"\x00\x01\x3D\x6E\x02\xA2\xA3\xA4\xA5\xA6\x86\x9E",
        109,
        b"\xFF",
        12,
    )?;
    case(rt, 2, READ_TWO, 218, b"\x02\x00", 20)?;
    case(rt, 2, WRITE_SET, 218, b"\xFF\x00", 20)?;
    case(rt, 2, WRITE_SET, 218, b"\x01\x02", 20)?;
    case(rt, 2, READ_TWO, 218, b"\x01\xFF", 20)?;
    read_sixteen(rt, 2, 132)?;
    read_sixteen(rt, 255, 132)?;
    case(rt, 1, b"\x07\x11\xC9\xC0", 109, b"\x02", 3)?;
    case(rt, 2, b"\x07\x11\xC9\xC0", 218, b"\x01\xFF", 3)?;
    read_sixteen(rt, 2, 131)?;
    case(rt, 1, b"\x07\x11\xC9", 109, b"\x02", 0)?;
    case(rt, 1, b"\x00\x01\x3D\x6F", 109, b"\xFF", 4)?;
    case(rt, 17, b"\x07\x11\xC9", 1853, &[2; 17], 0)?;
    case(rt, 2, b"\x07\x11\xC9\xC0", 216, b"\x01", 4)?;
    case(rt, 16, b"\x07\x11\xC9\xC0", 1728, &[1; 15], 4)
}

pub(crate) fn show(rt: &impl Print) -> io::Result<()> {
    println!(rt; "# chain")?;
    writes(rt)?;
    reads_and_clears(rt)?;
    refusals(rt)?;
    pins(rt)?;
    refused_pins(rt)
}
