// The check words that the data sheets and document 01 print, and document 01's table entries.
use say::{Bytes, Hex};
use std::io;

const WORDS: [&[u8]; 26] = [
    b"",
    b"\x00",
    b"\x00\x01",
    b"\xFE\xF5",
    b"\x0E",
    b"\x0F",
    b"\xFE\xF3",
    b"\x00\x16",
    b"\x17\x00",
    b"\x00\x17",
    b"\x11\x12",
    b"\x00\x01\x0E",
    b"\xFB\x60",
    b"\xF8\x04",
    b"\x01\x00\x00\x00\x00\x00",
    b"\xE8\x18\x0F\x0F\x0F\x0F",
    b"\x00\x00\x00\x00\x00\x00",
    b"\x61\x0F\x0F\x0F\x0F\x0F",
    b"\xE7\x18\x0F\x0F\x0F\x0F",
    b"\x1A\xE7\x0F\x0F\x0F\x0F",
    b"\x01",
    b"\x20",
    b"\x00\x00",
    b"\x00\x02",
    b"\x00\x04",
    b"\x07\x11",
];

pub(crate) fn show(rt: &impl Print) -> io::Result<()> {
    println!(rt; "# check words")?;
    for bytes in WORDS {
        println!(rt; "pec {} {}", Bytes(bytes), Hex(pec::pec(bytes).into(), 4))?;
    }
    println!(rt; "# table entries")?;
    let table = pec::lent_table();
    for index in [1, 2, 128] {
        println!(rt; "entry {index} {}", Hex(table[index].into(), 4))?;
    }
    Ok(())
}
