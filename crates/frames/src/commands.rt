// The one table of 26 commands, and the search by code that writer, chain and reader use: where no row can fit, it asks for a conversion.
ghost use Rattle.std.specs.Prelude.{◌≡◌, ◌&&◌, leb, ltb};
ghost use Rattle.frames.specs.Commands.{kind_of, group_of, unlisted};
ghost use Rattle.frames.specs.Answers.{kind_number, kind_given, group_given};

#[derive(Clone, Copy, Debug, PartialEq, Eq)]
pub enum Kind {
    Write = 1,
    Read = 2,
    Clear = 3,
    Conversion = 4,
}

impl From<Kind> for u8 {
    ghost from_gives = { λ kind n. n ≡ kind_number kind };

    #[tactic(auto, unfolding(crate::specs::Answers::kind_number))]
    fn from(kind: Kind) -> u8 {
        kind as u8
    }
}

use Kind::{Clear, Read, Write};

// Row by row as document 01 has them, which names the three arrays: code, kind, and the group written or read; of a clear, the first group it sets.
pub const CODES: [u32; 26] = [
    0x001, 0x002, 0x024, 0x026, 0x004, 0x006, 0x008, 0x00A, 0x009, 0x00B, 0x00C, 0x00E, 0x00D,
    0x00F, 0x010, 0x012, 0x721, 0x722, 0x014, 0x016, 0x020, 0x022, 0x01C, 0x01E, 0x711, 0x712,
];

pub const KINDS: [Kind; 26] = [
    Write, Read, Write, Read, Read, Read, Read, Read, Read, Read, Read, Read, Read, Read, Read,
    Read, Write, Read, Write, Read, Write, Read, Write, Read, Clear, Clear,
];

pub const GROUPS: [u8; 26] = [
    0, 0, 1, 1, 2, 3, 4, 5, 6, 7, 8, 9, 10, 11, 12, 13, 14, 14, 15, 15, 16, 16, 17, 17, 2, 8,
];

#[derive(Clone, Copy, Debug, PartialEq, Eq)]
pub struct Command {
    pub kind: Kind,
    pub group: u8,
}

// Whether a code is from 0x200 to 0x6FF: there conversions have theirs, and the table has none.
fn is_unlisted(code: u32) -> bool
    ensures { result ≡ (leb 0x200 code && ltb code 0x700) }
{
    0x200 <= code && code < 0x700
}

// What a code asks for that no row of the table has: a conversion, or nothing.
fn unlisted(code: u32) -> Option<Command>
    ensures { (kind_given result ≡ (unlisted code).kind) × (group_given result ≡ (unlisted code).group) }
{
    conversions::conversion_of(code).ok()?;
    Some(Command {
        kind: Kind::Conversion,
        group: 0,
    })
}

// What a code asks for; nothing where neither the table nor a conversion has it. A part of its callers: by a call the archive's writer of a clear takes 1.4 times as long.
#[inline(always)]
pub fn find(code: u32) -> Option<Command>
    ensures { (kind_given result ≡ kind_of code) × (group_given result ≡ group_of code) }
{
    if is_unlisted(code) {
        return unlisted(code);
    }
    let codes = &CODES;
    let row = codes.iter().position(|listed| *listed == code)?;
    let kinds = &KINDS;
    let groups = &GROUPS;
    Some(Command {
        kind: kinds[row],
        group: groups[row],
    })
}
