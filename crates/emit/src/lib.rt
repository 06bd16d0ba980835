// The words of a compiled table, written into the lent room from the arcs and the labels of a text (01, "The compiled table, exactly").
// Number 6 where the room is too short: then no word is written. Words after the table stay as they were.
// Each of the steps × (steps + 1) cells is looked at twice, to count the rows and to write them. No stack to speak of.
#![tactic(auto)]

ghost use Rattle.std.specs.Prelude.{◌≤◌, length};
ghost use Rattle.emit.specs.Cells.{table_in, Emits};

mod draft;
mod writer;

use draft::Draft;
use refusal::Refusal;
use table::{HEADER, ROW_WORDS};
use writer::Writer;

// The words of the table: how many are written, or that the room is too short for them, and then none is. The cells and the labels, two
// words for each, are lent as slices: so the clauses promise it, and an array type would ask more of callers.
pub fn emit(
    cells: &[u32],
    labels: &[u32],
    nul: u32,
    steps: usize,
    k: u32,
    room: &mut [u32],
) -> Result<usize, Refusal>
    requires { (1024 ≤ length cells.now) × (64 ≤ length labels.now) × (steps ≤ 31) }
    ensures { Emits (table_in cells.now labels.now nul steps k) room.old result room.new }
{
    let draft = Draft {
        cells,
        labels,
        nul,
        steps,
    };
    let rows = draft.rows();
    let words = HEADER + (steps + 1) + ROW_WORDS * rows;
    if room.len() < words {
        let needed = words as u32;
        return Err(Refusal::ShortRoom { needed });
    }
    let mut table = Writer { room, at: 0 };
    table.put(&[steps as u32 + 1, k, rows as u32]);
    draft.write_ends(&mut table);
    draft.write_rows(&mut table);
    Ok(words)
}
