// The link: one frame over a noisy wire, from the writer through the chain to the reader.
#![tactic(auto)]

ghost use Rattle.std.specs.Prelude.{◌≡◌};
ghost use Rattle.pec.specs.Noise.{noisy};
ghost use Rattle.link.specs.Carry.{Carries};

use lent::refusal::Refusal;

// What the writer, the chain and the reader gave.
#[derive(Clone, Copy)]
pub struct Carried {
    pub made: Result<(), Refusal>,
    pub heard: Result<u16, Refusal>,
    pub asked: Result<(), Refusal>,
}

// Noise on bytes that pass: each bit is flipped where the mask has a 1.
fn lay_noise(mask: &[u8], part: &mut [u8])
    ensures { part.new ≡ noisy mask.now part.old }
{
    // By index: after a `for` over `part.iter_mut().zip(mask)` a proof knows how many bytes the part has, and not which.
    let end = mask.len().min(part.len());
    for i in 0..end {
        part[i] ^= mask[i];
    }
}

// One frame: the host asks n devices for a command, `forth` falls on the frame and `back` on the reply, and the reader is given what comes back.
pub fn carry(
    n: u32,
    code: u32,
    bytes: &[u8],
    forth: &[u8],
    back: &[u8],
    out: &mut [u8],
    state: &mut [u8],
    reply: &mut [u8],
    read: &mut [u8],
    marks: &mut [u8],
) -> Carried
    ensures { Carries n (record {
      code = code;
      bytes = bytes.now;
      out = out.old;
      reply = reply.old;
      read = read.old;
      marks = marks.old;
      forth = forth.now;
      back = back.now;
    }) state.old result out.new state.new reply.new read.new marks.new }
{
    let written = frames::writer::write(n, code, bytes, out);
    let length = written.unwrap_or(0);
    lay_noise(forth, &mut out[0..length]);
    let heard = chain::serve(n, &out[0..length], state, reply);
    let returned = length.min(reply.len());
    lay_noise(back, &mut reply[0..returned]);
    let asked = host::reader::read(n, code, &reply[0..returned], read, marks);
    Carried {
        made: written.and(Ok(())),
        heard,
        asked,
    }
}
