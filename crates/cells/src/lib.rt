// The cell reading: eighteen counts of 100 µV from the six groups CVA to CVF of one device; in `extremes` the lowest and the highest.
#![tactic(auto)]

ghost use Rattle.std.specs.Prelude.{◌≡◌, ◌<◌, ◌^◌, length};
ghost use Rattle.cells.specs.Cells.{count_at, read_at, ReadsCells};
ghost use Rattle.cells.specs.Flat.{readings};

use host::marks;
use lent::refusal::Refusal;

pub mod extremes;

// What a cell holds after a clear, until it is measured.
const CLEARED: u16 = 65535;

// In both words bit c - 1 speaks of cell c.
#[derive(Clone, Copy)]
pub struct Cells {
    // of cells 1 to 18
    pub counts: [u16; 18],
    // read and measured
    pub valid: u32,
    // read, and not measured
    pub unmeasured: u32,
}

// For C: the same, all 0 on refusal.
#[repr(C)]
#[derive(Clone, Copy)]
pub struct Readings {
    pub number: u8,
    pub counts: [u16; 18],
    pub valid: u32,
    pub unmeasured: u32,
}

impl From<Result<Cells, Refusal>> for Readings {
    ghost from_gives = { λ given flat. flat ≡ readings given };

    #[tactic(auto, unfolding(crate::specs::Flat::readings))]
    fn from(given: Result<Cells, Refusal>) -> Readings {
        match given {
            Ok(cells) => {
                // by a name of its own: no array straight from field to field is checked
                let counts = cells.counts;
                Readings {
                    number: 0,
                    counts,
                    valid: cells.valid,
                    unmeasured: cells.unmeasured,
                }
            }
            Err(refusal) => Readings {
                number: u8::from(refusal),
                counts: [0; 18],
                valid: 0,
                unmeasured: 0,
            },
        }
    }
}

// Inside, cell c of 01 is c - 1. Three cells to a group.
fn is_read(marks: &[u8], cell: usize) -> bool
    requires { (length marks.now ≡ 6) × (cell < 18) }
    ensures { result ≡ read_at marks.now cell }
{
    marks::was_read(marks[cell / 3])
}

fn count(groups: &[u8], cell: usize) -> u16
    requires { (length groups.now ≡ 36) × (cell < 18) }
    ensures { result ≡ count_at groups.now cell }
{
    lent::low_first(groups, 2 * cell)
}

fn bit(cell: usize) -> u32
    requires { cell < 18 }
    ensures { result ≡ 2 ^ cell }
{
    1 << cell
}

// The readings of one device, from its 36 bytes and their six marks.
pub fn reading(groups: &[u8], marks: &[u8]) -> Result<Cells, Refusal>
    ensures { ReadsCells groups.now marks.now (readings result) }
{
    if groups.len() != 36 || marks.len() != 6 || marks::any_above(marks) {
        return Err(Refusal::WrongLength);
    }
    let mut counts = [0u16; 18];
    let mut valid: u32 = 0;
    let mut unmeasured: u32 = 0;
    for cell in 0..18 {
        let held = count(groups, cell);
        if is_read(marks, cell) {
            if held == CLEARED {
                unmeasured += bit(cell);
            } else {
                counts[cell] = held;
                valid += bit(cell);
            }
        }
    }
    Ok(Cells {
        counts,
        valid,
        unmeasured,
    })
}
