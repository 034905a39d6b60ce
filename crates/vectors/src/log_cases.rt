// The wire log: what its writer, its reader and its walk answer. The writer is lent an output of `room` bytes 0xAA, which is shown whole afterwards.
ghost use Rattle.std.specs.Prelude.{◌≤◌, length};

use lent::Written;
use say::Bytes;
use std::io;

fn put(rt: &impl Print, kind: u32, body: &[u8], room: usize) -> io::Result<()>
    requires { room ≤ 205 }
{
    let mut all = [0xAAu8; 205];
    let out = &mut all[..room];
    let written = Written::from(wirelog::put::put(kind, body, out));
    println!(rt;
        "put {kind} {} {room} : {} {} {}",
        Bytes(body),
        written.number,
        written.length,
        Bytes(out),
    )
}

fn at(rt: &impl Print, log: &[u8], place: usize) -> io::Result<()> {
    let found = wirelog::flat::record_at(log, place);
    println!(rt;
        "at {place} {} : {} {} {} {} {} {}",
        Bytes(log),
        found.number,
        found.end,
        found.kind,
        found.body,
        found.body_len,
        found.next,
    )
}

// A long record: the four bytes of its length and kind laid over the start of the others.
fn long_at(rt: &impl Print, head: &[u8; 4], log: &mut [u8]) -> io::Result<()>
    requires { 4 ≤ length log.old }
{
    log[0..4].copy_from_slice(head);
    at(rt, log, 0)
}

fn walk(rt: &impl Print, log: &[u8]) -> io::Result<()> {
    let walked = wirelog::walk::walk(log);
    println!(rt;
        "walk {} : {} {} {} {} {} {} {}",
        Bytes(log),
        walked.number,
        walked.at,
        walked.sizes,
        walked.frames,
        walked.replies,
        walked.notes,
        walked.unknown,
    )
}

fn written(rt: &impl Print) -> io::Result<()> {
    put(rt, 1, b"\x01", 5)?;
    put(rt, 1, b"\x10", 8)?;
    put(rt, 2, b"", 4)?;
    put(rt, 2, b"\x07\x11\xC9\xC0", 9)?;
    put(rt, 2, &[0x5A; 132], 136)?;
    put(rt, 3, &[0xFF; 132], 138)?;
    put(rt, 4, b"hi", 6)?;
    put(rt, 4, &[0; 200], 204)
}

fn not_written(rt: &impl Print) -> io::Result<()> {
    put(rt, 1, b"", 5)?;
    put(rt, 1, b"\x00", 5)?;
    put(rt, 1, b"\x11", 5)?;
    put(rt, 1, b"\x01\x01", 6)?;
    put(rt, 2, &[0x5A; 133], 137)?;
    put(rt, 3, &[0xFF; 133], 137)?;
    put(rt, 4, &[0; 201], 205)?;
    put(rt, 0, b"", 4)?;
    put(rt, 5, b"", 4)?;
    put(rt, 65537, b"\x01", 5)?;
    put(rt, 4294967295, b"", 4)?;
    put(rt, 1, b"\x01", 4)?;
    put(rt, 3, &[0xFF; 132], 135)?;
    put(rt, 4, &[0; 200], 0)?;
    put(rt, 1, b"\x11", 4)?;
    put(rt, 5, b"", 0)
}

fn places(rt: &impl Print, five: &[u8]) -> io::Result<()> {
    for place in [0, 5, 13, 19, 27, 33, 34, 18446744073709551615, 1] {
        at(rt, five, place)?;
    }
    at(rt, b"", 0)?;
    at(rt, b"", 1)
}

fn records(rt: &impl Print) -> io::Result<()> {
    at(rt, b"\x03\x00\x01\x00\x10", 0)?;
    at(rt, b"\x02\x00\x02\x00", 0)?;
    long_at(rt, b"\x86\x00\x03\x00", &mut [0xFF; 136])?;
    long_at(rt, b"\xCA\x00\x04\x00", &mut [0; 204])?;
    at(rt, b"\x02\x00\x00\x00", 0)?;
    at(rt, b"\x02\x00\x05\x00", 0)?;
    at(rt, b"\x03\x00\x01\x01\x02", 0)?;
    long_at(rt, b"\x00\x01\xFF\xFF", &mut [0; 258])
}

fn refusals(rt: &impl Print) -> io::Result<()> {
    at(rt, b"\x02\x00\x01\x00", 0)?;
    at(rt, b"\x03\x00\x01\x00\x00", 0)?;
    at(rt, b"\x03\x00\x01\x00\x11", 0)?;
    at(rt, b"\x04\x00\x01\x00\x01\x01", 0)?;
    long_at(rt, b"\x87\x00\x02\x00", &mut [0x5A; 137])?;
    long_at(rt, b"\xCB\x00\x04\x00", &mut [0; 205])?;
    at(rt, b"\x00\x00\x01\x00", 0)?;
    at(rt, b"\x01\x00\x01\x00", 0)?;
    at(rt, b"\x02\x00\x02", 0)?;
    at(rt, b"\x02\x00", 0)?;
    at(rt, b"\x02", 0)?;
    at(rt, b"\x03\x00\x01\x00", 0)?;
    at(rt, b"\x04\x00\x01\x00\x11", 0)?;
    at(rt, b"\xFF\xFF\x05\x00", 0)
}

fn walks(rt: &impl Print, five: &[u8]) -> io::Result<()> {
    walk(rt, b"")?;
    walk(rt, five)?;
    walk(
        rt,
        b"\x03\x00\x01\x00\x02\x04\x00\x04\x00hi\x04\x00\x07\x00\xAA\xBB\x04\x00\x04\x00hi\x06\x00\x03\x00\xFF\xFF\xFF\xFF\x04\x00\x07\x00\xAA\xBB\x04\x00\x04\x00hi\x04\x00\x07\x00\xAA\xBB",
    )?;
    walk(
        rt,
        b"\x06\x00\x02\x00\x07\x11\xC9\xC0\x06\x00\x03\x00\xFF\xFF\xFF\xFF\x06\x00\x02\x00\x07\x11\xC9\xC0\x06\x00\x03\x00\xFF\xFF\xFF\xFF",
    )?;
    walk(
        rt,
        b"\x03\x00\x01\x00\x02\x06\x00\x02\x00\x07\x11\xC9\xC0\x02",
    )?;
    walk(
        rt,
        b"\x03\x00\x01\x00\x02\x04\x00\x07\x00\xAA\xBB\x01\x00\x07\x00\x04\x00\x04\x00hi",
    )?;
    walk(
        rt,
        b"\x04\x00\x04\x00hi\x06\x00\x03\x00\xFF\xFF\xFF\xFF\x03\x00\x01\x00\x00\x04\x00\x04\x00hi",
    )
}

pub(crate) fn show(rt: &impl Print) -> io::Result<()> {
    println!(rt; "# wire log")?;
    // A chain size, a frame out, a record of unknown kind, a reply and a note, at 0, 5, 13, 19 and 27.
    let five =
        b"\x03\x00\x01\x00\x02\x06\x00\x02\x00\x07\x11\xC9\xC0\x04\x00\x07\x00\xAA\xBB\x06\x00\x03\x00\xFF\xFF\xFF\xFF\x04\x00\x04\x00hi";
    written(rt)?;
    not_written(rt)?;
    places(rt, five)?;
    records(rt)?;
    refusals(rt)?;
    walks(rt, five)
}
