// The lowest and the highest of the valid cells.
ghost use Rattle.std.specs.Prelude.{◌≡◌, ◌<◌};
ghost use Rattle.cells.specs.Extremes.{is_set, widened, Spans};

// The lowest and the highest, each by its cell's number, from 1, and its count.
#[derive(Clone, Copy, Debug, PartialEq, Eq)]
pub struct Range {
    pub low_cell: u8,
    pub low: u16,
    pub high_cell: u8,
    pub high: u16,
}

#[tactic(auto, unfolding(crate::specs::Extremes::is_set))]
fn is_set(valid: u32, cell: usize) -> bool
    requires { cell < 18 }
    ensures { result ≡ is_set valid cell }
{
    (valid >> cell) % 2 == 1
}

// With one more valid cell. It takes an end only where it lies further out, so the cell of the lower number stays on a tie.
fn widened(range: Option<Range>, cell: u8, count: u16) -> Range
    ensures { result ≡ widened range cell count }
{
    let Some(mut range) = range else {
        return Range {
            low_cell: cell,
            low: count,
            high_cell: cell,
            high: count,
        };
    };
    if count < range.low {
        range.low_cell = cell;
        range.low = count;
    }
    if range.high < count {
        range.high_cell = cell;
        range.high = count;
    }
    range
}

// The extremes of the valid cells, where there is one; bits of the word above 17 are not looked at.
pub fn extremes(counts: [u16; 18], valid: u32) -> Option<Range>
    ensures { Spans counts valid result }
{
    let mut range = None;
    for cell in 0..18 {
        if is_set(valid, cell) {
            range = Some(widened(range, cell as u8 + 1, counts[cell]));
        }
    }
    range
}
