// The conversion commands of document 002: a code built from command and fields, and a code taken apart.
#![tactic(auto)]

ghost use Rattle.std.specs.Prelude.{◌≡◌, ◌<◌, ◌-◌, ◌≤◌};
ghost use Rattle.conversions.specs.Conversions.{pattern_at, within, weighed, code_by, choice_in, fields_by, fits, seek, command_of, found, Builds, TakesApart};
ghost use Rattle.conversions.specs.Flat.{coded, taken};
ghost use Rattle.conversions.specs.Packed.{packed_patterns};

use lent::refusal::Refusal;

// Row by row of 002's Table 36, by hex digits: three of the code with every field 0; the most of DCP; the most of PUP; the sort of the choice, its least and
// its most.
const PATTERNS: [u32; 13] = [
    0x26010106, // ADCV
    0x22811106, // ADOW
    0x20700212, // CVST
    0x20110000, // ADOL
    0x46000106, // ADAX
    0x40000106, // ADAXD
    0x41001106, // AXOW
    0x40700212, // AXST
    0x46800104, // ADSTAT
    0x40800104, // ADSTATD
    0x40F00212, // STATST
    0x46F10000, // ADCVAX
    0x46710000, // ADCVSC
];

// A row, taken apart. The sort stays the number that the definition's rows have: 0 no choice, 1 in bits 2 to 0, 2 in bits 6 and 5.
#[derive(Clone, Copy)]
pub struct Pattern {
    pub base: u32,
    pub dcp: u32,
    pub pup: u32,
    pub sort: u32,
    pub least: u32,
    pub most: u32,
}

#[derive(Clone, Copy)]
pub struct Fields {
    pub mode: u32,
    pub discharge: u32,
    pub pull_up: u32,
    pub choice: u32,
}

// A conversion command with its fields.
#[derive(Clone, Copy)]
pub struct Parts {
    pub command: u32,
    pub fields: Fields,
}

// For C: a code, 0 on refusal.
#[repr(C)]
#[derive(Clone, Copy)]
pub struct Code {
    pub number: u8,
    pub code: u16,
}

impl From<Result<u16, Refusal>> for Code {
    ghost from_gives = { λ given flat. flat ≡ coded given };

    #[tactic(auto, unfolding(crate::specs::Flat::coded))]
    fn from(given: Result<u16, Refusal>) -> Code {
        match given {
            Ok(code) => Code { number: 0, code },
            Err(refusal) => Code {
                number: u8::from(refusal),
                code: 0,
            },
        }
    }
}

// For C: a command and its fields, all 0 on refusal.
#[repr(C)]
#[derive(Clone, Copy)]
pub struct Conversion {
    pub number: u8,
    pub command: u32,
    pub mode: u32,
    pub discharge: u32,
    pub pull_up: u32,
    pub choice: u32,
}

impl From<Result<Parts, Refusal>> for Conversion {
    ghost from_gives = { λ given flat. flat ≡ taken given };

    #[tactic(auto, unfolding(crate::specs::Flat::taken))]
    fn from(given: Result<Parts, Refusal>) -> Conversion {
        match given {
            Ok(Parts { command, fields }) => Conversion {
                number: 0,
                command,
                mode: fields.mode,
                discharge: fields.discharge,
                pull_up: fields.pull_up,
                choice: fields.choice,
            },
            Err(refusal) => Conversion {
                number: u8::from(refusal),
                command: 0,
                mode: 0,
                discharge: 0,
                pull_up: 0,
                choice: 0,
            },
        }
    }
}

// The 13 rows, lent from static memory: a constant array is copied wherever it is named.
#[tactic(auto, unfolding(crate::specs::Conversions::patterns, crate::specs::Packed::packed, crate::specs::Packed::packed_patterns))]
fn patterns() -> &'static [u32; 13]
    ensures { result.now ≡ packed_patterns }
{
    &PATTERNS
}

fn pattern_at(command: usize) -> Pattern
    requires { command < 13 }
    ensures { result ≡ pattern_at command }
{
    let row = patterns()[command];
    Pattern {
        base: row / 0x100000,
        dcp: row / 0x10000 % 16,
        pup: row / 0x1000 % 16,
        sort: row / 0x100 % 16,
        least: row / 0x10 % 16,
        most: row % 16,
    }
}

// Whether every field is in its range.
#[tactic(auto, unfolding(crate::specs::Conversions::within))]
fn are_within(p: Pattern, f: Fields) -> bool
    ensures { result ≡ within p f }
{
    f.mode < 4
        && f.discharge <= p.dcp
        && f.pull_up <= p.pup
        && p.least <= f.choice
        && f.choice <= p.most
}

#[tactic(auto, unfolding(crate::specs::Conversions::weighed, lent::specs::Refusal::pick))]
fn weigh(sort: u32, choice: u32) -> u32
    requires { choice < 8 }
    ensures { result ≡ weighed sort choice }
{
    if sort == 2 { 0x20 * choice } else { choice }
}

// The code of fields that are in their ranges.
#[tactic(auto, using(crate::proofs::ConversionLaws::weighed_small), unfolding(crate::specs::Conversions::code_by))]
fn code_by(p: Pattern, f: Fields) -> u32
    requires { (p.base < 2048) × (f.mode < 4) × (f.discharge < 2) × (f.pull_up < 2) × (f.choice < 8) }
    ensures { result ≡ code_by p f }
{
    p.base + 0x80 * f.mode + 0x10 * f.discharge + 0x40 * f.pull_up + weigh(p.sort, f.choice)
}

#[tactic(auto, unfolding(crate::specs::Conversions::choice_in, lent::specs::Refusal::pick))]
fn choice_in(sort: u32, code: u32) -> u32
    ensures { result ≡ choice_in sort code }
{
    match sort {
        2 => code / 0x20 % 4,
        1 => code % 8,
        _ => 0,
    }
}

// What stands in a code where a command has its fields.
#[tactic(auto, unfolding(crate::specs::Conversions::fields_by))]
fn fields_by(p: Pattern, code: u32) -> Fields
    requires { (p.dcp < 2) × (p.pup < 2) }
    ensures { result ≡ fields_by p code }
{
    Fields {
        mode: code / 0x80 % 4,
        discharge: p.dcp * (code / 0x10 % 2),
        pull_up: p.pup * (code / 0x40 % 2),
        choice: choice_in(p.sort, code),
    }
}

// Whether a code is one of the command's.
fn has_code(command: usize, code: u32) -> bool
    requires { command < 13 }
    ensures { result ≡ fits command code }
{
    let p = pattern_at(command);
    let f = fields_by(p, code);
    code_by(p, f) == code && are_within(p, f)
}

// Where the search for a code begins: the first four commands have codes below 0x400.
fn first_row(code: u32) -> usize
    ensures { (result ≤ 13) × (command_of code ≡ seek code result (13 - result)) }
{
    if code < 0x400 { 0 } else { 4 }
}

// The command of a code, where one has it.
fn command_of(code: u32) -> Option<usize>
    ensures { result ≡ found code }
{
    for command in first_row(code)..13 {
        if has_code(command, code) {
            return Some(command);
        }
    }
    None
}

// The code of a conversion command with its fields.
pub fn conversion_code(parts: Parts) -> Result<u16, Refusal>
    ensures { Builds parts.command parts.fields.mode parts.fields.discharge parts.fields.pull_up parts.fields.choice (coded result) }
{
    let Parts { command, fields } = parts;
    if 12 < command {
        return Err(Refusal::FieldRange);
    }
    let p = pattern_at(command as usize);
    if !are_within(p, fields) {
        return Err(Refusal::FieldRange);
    }
    Ok(code_by(p, fields) as u16)
}

// A code taken apart.
pub fn conversion_of(code: u32) -> Result<Parts, Refusal>
    ensures { TakesApart code (taken result) }
{
    let command = command_of(code).ok_or(Refusal::UnknownCommand)?;
    Ok(Parts {
        command: command as u32,
        fields: fields_by(pattern_at(command), code),
    })
}
