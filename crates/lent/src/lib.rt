// Work on lent bytes.
#![tactic(auto)]

ghost use Rattle.std.specs.Prelude.{◌≡◌, ◌+◌, ◌≤◌, length, replicate};
ghost use Rattle.lent.specs.LowFirst.{low_first_at, number_of};
ghost use Rattle.lent.specs.Memory.{over};
ghost use Rattle.lent.specs.Number.{written};

pub mod refusal;

use refusal::Refusal;

// What a writer came to: its number, and how many bytes of the output it wrote.
#[repr(C)]
#[derive(Clone, Copy)]
pub struct Written {
    pub number: u8,
    pub length: usize,
}

impl From<Result<usize, Refusal>> for Written {
    ghost from_gives = { λ given flat. flat ≡ written given };

    #[tactic(auto, unfolding(crate::specs::Number::written))]
    fn from(given: Result<usize, Refusal>) -> Written {
        match given {
            Ok(length) => Written { number: 0, length },
            Err(refusal) => Written {
                number: u8::from(refusal),
                length: 0,
            },
        }
    }
}

// Every byte of `part` becomes `value`. A loop of its own: of the library's `fill`, which clones the value for each byte but the last, a C compiler makes no block
// store.
pub fn fill(part: &mut [u8], value: u8)
    ensures { part.new ≡ replicate (length part.old) value }
{
    for k in 0..part.len() {
        part[k] = value;
    }
}

// A group's six bytes over the start of `part`: all are taken before the first is stored, so that a compiler moves them whole. By `copy_from_slice` rig.c copies
// byte after byte, and its chain calls then miss their bar.
pub fn copy_six(bytes: &[u8], part: &mut [u8])
    requires { (length bytes.now ≡ 6) × (6 ≤ length part.old) }
    ensures { part.new ≡ over bytes.now part.old }
{
    let first = bytes[0];
    let second = bytes[1];
    let third = bytes[2];
    let fourth = bytes[3];
    let fifth = bytes[4];
    let sixth = bytes[5];
    part[0] = first;
    part[1] = second;
    part[2] = third;
    part[3] = fourth;
    part[4] = fifth;
    part[5] = sixth;
}

// The number of the two bytes from `at` on, low byte first.
pub fn low_first(bytes: &[u8], at: usize) -> u16
    requires { at + 2 ≤ length bytes.now }
    ensures { result ≡ low_first_at bytes.now at }
{
    let low = u16::from(bytes[at]);
    let high = u16::from(bytes[at + 1]);
    low + (high << 8)
}

// The number of eight bytes, low byte first: by shifts, of which gcc makes one read of all eight, and of `from_le_bytes` eight.
pub fn eight_bytes(bytes: &[u8]) -> u64
    requires { length bytes.now ≡ 8 }
    ensures { result ≡ number_of bytes.now }
{
    let first = u64::from(low_first(bytes, 0));
    let second = u64::from(low_first(bytes, 2));
    let third = u64::from(low_first(bytes, 4));
    let fourth = u64::from(low_first(bytes, 6));
    first + (second << 16) + (third << 32) + (fourth << 48)
}
