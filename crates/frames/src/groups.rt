// Groups on the wire. Parts are slices whose length is required: as arrays each would have to be taken out of an Option (`first_chunk_mut`).
ghost use Rattle.std.specs.Prelude.{◌≡◌, ◌*◌, ◌<◌, length};
ghost use Rattle.pec.specs.Group.{two_bytes, with_pec};
ghost use Rattle.frames.specs.Frame.{write_groups};

use crate::size::Devices;

// A command and its check word fill a part of four.
pub fn put_command(code: u32, part: &mut [u8])
    requires { (code < 65536) × (length part.old ≡ 4) }
    ensures { part.new ≡ with_pec (two_bytes code) }
{
    let command = (code as u16).to_be_bytes();
    let word = pec::pec(&command).to_be_bytes();
    part[0..2].copy_from_slice(&command);
    part[2..4].copy_from_slice(&word);
}

// The group writer: six bytes and their check word, its high byte first, fill a part of eight.
pub fn put_group(bytes: &[u8], part: &mut [u8])
    requires { (length bytes.now ≡ 6) × (length part.old ≡ 8) }
    ensures { part.new ≡ with_pec bytes.now }
{
    lent::copy_six(bytes, part);
    let word = pec::pec_of_six(bytes).to_be_bytes();
    part[6..8].copy_from_slice(&word);
}

// The data groups of a write fill a part, device n's first.
pub fn put_groups(n: Devices, bytes: &[u8], part: &mut [u8])
    requires { (length bytes.now ≡ 6 * n.count) × (length part.old ≡ 8 * n.count) }
    ensures { part.new ≡ write_groups n.count bytes.now }
{
    for k in 0..n.count {
        let from = 6 * (n.count - 1 - k);
        let at = 8 * k;
        put_group(&bytes[from..from + 6], &mut part[at..at + 8]);
    }
}
