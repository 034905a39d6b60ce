// The reader: each case lends bytes and marks of 0xAA and shows them whole afterwards.
ghost use Rattle.std.specs.Prelude.{◌≤◌};

use lent::refusal;
use say::{Bytes, Hex};
use std::io;

fn case(
    rt: &impl Print,
    n: u32,
    code: u32,
    reply: &[u8],
    room: usize,
    places: usize,
) -> io::Result<()>
    requires { (room ≤ 18) × (places ≤ 3) }
{
    let mut all_bytes = [0xAAu8; 18];
    let mut all_marks = [0xAAu8; 3];
    let bytes = &mut all_bytes[..room];
    let marks = &mut all_marks[..places];
    let number = refusal::number(host::reader::read(n, code, reply, bytes, marks));
    println!(rt;
        "read {n} {} {} {room} {places} : {number} {} {}",
        Hex(code, 3),
        Bytes(reply),
        Bytes(bytes),
        Bytes(marks),
    )
}

fn good_replies(rt: &impl Print) -> io::Result<()> {
    case(
        rt,
        1,
        0x004,
        b"\xFF\xFF\xFF\xFF\x00\x00\x00\x00\x00\x00\xC2\x12",
        6,
        1,
    )?;
    case(
        rt,
        2,
        0x004,
        b"\x00\x00\x00\x00\x01\x02\x03\x04\x05\x06\x22\xEE\x11\x12\x13\x14\x15\x16\x6D\x58",
        14,
        3,
    )
}

// Groups whose check words do not fit, and devices that are not heard.
fn spoilt_replies(rt: &impl Print) -> io::Result<()> {
    case(
        rt,
        2,
        0x004,
        b"\x00\x00\x00\x00\x01\x02\x03\x04\x05\x06\x22\xEF\x11\x12\x13\x14\x15\x16\x6D\x58",
        14,
        3,
    )?;
    case(
        rt,
        2,
        0x004,
        b"\x00\x00\x00\x00\x01\x02\x03\x04\x05\x06\x22\xEE\xFF\xFF\xFF\xFF\xFF\xFF\xFF\xFF",
        14,
        3,
    )?;
    case(
        rt,
        3,
        0x009,
        b"\xFF\xFF\xFF\xFF\xE8\x18\x0F\x0F\x0F\x0F\xC6\x02\xFF\xFF\xFF\xFF\xFF\xFF\xFF\xFF\x60\x0F\x0F\x0F\x0F\x0F\x76\xB6",
        18,
        3,
    )
}

fn refusals(rt: &impl Print) -> io::Result<()> {
    case(rt, 0, 0x004, b"", 0, 0)?;
    case(rt, 17, 0x004, b"", 0, 0)?;
    case(rt, 1, 0x003, b"", 0, 0)?;
    case(rt, 1, 0x001, b"", 0, 0)?;
    case(rt, 1, 0x711, b"", 0, 0)?;
    case(
        rt,
        1,
        0x004,
        b"\xFF\xFF\xFF\xFF\xFF\xFF\xFF\xFF\xFF\xFF\xFF",
        6,
        1,
    )?;
    case(
        rt,
        1,
        0x004,
        b"\xFF\xFF\xFF\xFF\xFF\xFF\xFF\xFF\xFF\xFF\xFF\xFF\xFF",
        6,
        1,
    )?;
    case(
        rt,
        1,
        0x004,
        b"\xFF\xFF\xFF\xFF\xFF\xFF\xFF\xFF\xFF\xFF\xFF\xFF",
        5,
        1,
    )?;
    case(
        rt,
        1,
        0x004,
        b"\xFF\xFF\xFF\xFF\xFF\xFF\xFF\xFF\xFF\xFF\xFF\xFF",
        6,
        0,
    )
}

fn silence(rt: &impl Print) -> io::Result<()> {
    case(
        rt,
        1,
        0x004,
        b"\xFF\xFF\xFF\xFF\xFF\xFF\xFF\xFF\xFF\xFF\xFF\xFF",
        6,
        1,
    )
}

pub(crate) fn show(rt: &impl Print) -> io::Result<()> {
    println!(rt; "# reader")?;
    good_replies(rt)?;
    spoilt_replies(rt)?;
    refusals(rt)?;
    silence(rt)
}
