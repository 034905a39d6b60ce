// Carries frames over a noisy wire for chains of 1, 2 and 16 devices: no noise, the command hit, one group hit, a reply hit, silence. What is read of CFGA has
// the pin of its device in bit 1 of the first byte, whatever was written there. The file 'stdout' beside src/ is what the second implementation sees of the
// same frames.
#![tactic(auto)]

use chain::Heard;
use lent::refusal;
use say::{Bytes, Hex};
use std::{fmt, io};

const WRCFGA: u32 = 0x001;

const RDCFGA: u32 = 0x002;

const RDCVA: u32 = 0x004;

const CLRCELL: u32 = 0x711;

// ADCV, all cells at 7 kHz.
const ADCV: u32 = 0x360;

// One byte of the frame or of the reply that is hit, and the bits of it that are flipped.
#[derive(Clone, Copy)]
struct Hit {
    at: usize,
    flips: u8,
}

const QUIET: Hit = Hit { at: 0, flips: 0 };

const COMMAND_HIT: Hit = Hit { at: 3, flips: 0x01 };

fn mask(hit: Hit) -> [u8; 132] {
    let at = hit.at % 132;
    let mut all = [0u8; 132];
    all[at] = hit.flips;
    all
}

impl fmt::Display for Hit {
    fn fmt<W: fmt::Write>(&self, f: &mut fmt::Formatter<W>) -> fmt::Result {
        write!(f, "{}:{}", self.at, Hex(self.flips.into(), 2))
    }
}

// The devices that the frames go to.
#[derive(Drop)]
struct Chain<'a> {
    n: u32,
    state: &'a mut [u8],
}

impl<'a> Chain<'a> {
    fn new(n: u32, state: &'a mut [u8]) -> Self {
        Chain { n, state }
    }

    // One frame with its noise. The bytes and marks lent to the reader are 0xAA before.
    fn frame(
        &mut self,
        rt: &impl Print,
        code: u32,
        bytes: &[u8],
        forth: Hit,
        back: Hit,
    ) -> io::Result<()> {
        let n = self.n;
        let mut out = [0u8; 132];
        let mut reply = [0u8; 132];
        let mut read = [0xAAu8; 96];
        let mut marks = [0xAAu8; 16];
        let carried = link::carry(
            n,
            code,
            bytes,
            &mask(forth),
            &mask(back),
            &mut out,
            self.state,
            &mut reply,
            &mut read,
            &mut marks,
        );
        let heard = Heard::from(carried.heard);
        println!(rt;
            "{n} {} {forth} {back} : {} {} {} {} {} {}",
            Hex(code, 3),
            refusal::number(carried.made),
            heard.number,
            Hex(heard.word.into(), 4),
            refusal::number(carried.asked),
            Bytes(&read),
            Bytes(&marks),
        )
    }

    // A frame that is hit on its way out, and a quiet read of what it left.
    fn frame_and_read(
        &mut self,
        rt: &impl Print,
        code: u32,
        bytes: &[u8],
        forth: Hit,
        read_code: u32,
    ) -> io::Result<()> {
        self.frame(rt, code, bytes, forth, QUIET)?;
        self.frame(rt, read_code, b"", QUIET, QUIET)
    }

    // `old` is written, and then `new`, once with the command hit and once with the group of the far device.
    fn write_under_noise(&mut self, rt: &impl Print, old: &[u8], new: &[u8]) -> io::Result<()> {
        let far_group = Hit { at: 4, flips: 0x80 };
        self.frame_and_read(rt, WRCFGA, old, QUIET, RDCFGA)?;
        self.frame_and_read(rt, WRCFGA, new, COMMAND_HIT, RDCFGA)?;
        self.frame_and_read(rt, WRCFGA, new, far_group, RDCFGA)
    }

    // The answer of the near device is hit, and then the command, so that no device answers.
    fn read_under_noise(&mut self, rt: &impl Print) -> io::Result<()> {
        let near_answer = Hit { at: 4, flips: 0x40 };
        self.frame(rt, RDCFGA, b"", QUIET, near_answer)?;
        self.frame(rt, RDCFGA, b"", COMMAND_HIT, QUIET)
    }

    // A command without data, unheard and heard, and what the cell registers show then.
    fn command_under_noise(&mut self, rt: &impl Print, code: u32) -> io::Result<()> {
        self.frame_and_read(rt, code, b"", COMMAND_HIT, RDCVA)?;
        self.frame_and_read(rt, code, b"", QUIET, RDCVA)
    }

    // The registers stay at a conversion, whether it is heard or not.
    fn show(&mut self, rt: &impl Print, old: &[u8], new: &[u8]) -> io::Result<()> {
        self.write_under_noise(rt, old, new)?;
        self.read_under_noise(rt)?;
        self.command_under_noise(rt, ADCV)?;
        self.command_under_noise(rt, CLRCELL)
    }
}

// Bytes that count up from `first`.
fn count_up(first: u8) -> [u8; 96] {
    let mut bytes = [0u8; 96];
    for i in 0..96 {
        bytes[i] = first.wrapping_add(i as u8);
    }
    bytes
}

// Sixteen devices whose registers are full of 7 and whose pins are 1 and 0 in turn.
fn devices() -> [u8; 1744] {
    let mut state = [7u8; 1744];
    for k in 0..16 {
        state[109 * k + 108] = ((k + 1) % 2) as u8;
    }
    state
}

fn main(rt: HostRuntime) -> io::Result<()> {
    let old = count_up(0x10);
    let new = count_up(0x80);
    let mut one = devices();
    let mut two = devices();
    let mut sixteen = devices();
    Chain::new(1, &mut one[0..109]).show(&rt, &old[0..6], &new[0..6])?;
    Chain::new(2, &mut two[0..218]).show(&rt, &old[0..12], &new[0..12])?;
    Chain::new(16, &mut sixteen).show(&rt, &old, &new)
}
