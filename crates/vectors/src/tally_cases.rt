// The link tally: four counts before, a reply's marks, and the four counts after.
use lent::refusal;
use say::Bytes;
use std::{fmt, io};
use tally::Tally;

#[derive(Clone, Copy)]
struct Counts(Tally);

impl fmt::Display for Counts {
    fn fmt<W: fmt::Write>(&self, f: &mut fmt::Formatter<W>) -> fmt::Result {
        let Tally {
            replies,
            read,
            wrong,
            silent,
        } = self.0;
        write!(f, "{replies} {read} {wrong} {silent}")
    }
}

fn case(rt: &impl Print, counts: [u32; 4], marks: &[u8]) -> io::Result<()> {
    let [replies, read, wrong, silent] = counts;
    let before = Tally {
        replies,
        read,
        wrong,
        silent,
    };
    let added = tally::add(before, marks);
    println!(rt;
        "tally {} {} : {} {}",
        Counts(before),
        Bytes(marks),
        refusal::number(added),
        Counts(added.unwrap_or(before)),
    )
}

pub(crate) fn show(rt: &impl Print) -> io::Result<()> {
    println!(rt; "# tally")?;
    case(rt, [0, 0, 0, 0], b"\x00\x01\x02\x00")?;
    case(rt, [4294967294, 0, 0, 0], b"\x00")?;
    case(rt, [4294967295, 0, 0, 0], b"\x00")?;
    case(rt, [0, 4294967294, 0, 0], b"\x00")?;
    case(rt, [0, 4294967294, 0, 0], b"\x00\x00")?;
    case(
        rt,
        [0, 0, 4294967290, 0],
        b"\x01\x01\x01\x01\x01\x01\x01\x01\x01\x01\x01\x01\x01\x01\x01\x01",
    )?;
    case(
        rt,
        [0, 0, 0, 4294967279],
        b"\x02\x02\x02\x02\x02\x02\x02\x02\x02\x02\x02\x02\x02\x02\x02\x02",
    )?;
    case(rt, [5, 6, 7, 8], b"")?;
    case(
        rt,
        [5, 6, 7, 8],
        b"\x00\x00\x00\x00\x00\x00\x00\x00\x00\x00\x00\x00\x00\x00\x00\x00\x00",
    )?;
    case(rt, [5, 6, 7, 8], b"\x03")?;
    case(rt, [4294967295, 0, 0, 0], b"\x00\x03")
}
