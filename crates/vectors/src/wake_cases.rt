// The wake rule, over a clock that runs past its end.
use std::io;
use wake::Wake;

fn case(rt: &impl Print, n: u32, last: u32, clock: u32) -> io::Result<()> {
    let wake = Wake::from(wake::wait(n, last, clock));
    println!(rt; "wake {n} {last} {clock} : {} {}", wake.number, wake.wait)
}

pub(crate) fn show(rt: &impl Print) -> io::Result<()> {
    println!(rt; "# wake")?;
    case(rt, 16, 4294967000, 4003)?;
    case(rt, 16, 4294967000, 4004)?;
    case(rt, 0, 0, 0)?;
    case(rt, 17, 0, 5000)?;
    case(rt, 1, 0, 4299)?;
    case(rt, 1, 0, 4300)?;
    case(rt, 1, 5, 4)?;
    case(rt, 16, 0, 4294967295)?;
    case(rt, 4294967295, 0, 0)
}
