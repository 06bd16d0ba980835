// One run of the program `reading`: a card, then lines, from a reader to a writer.
// Input of any size in bounded memory: of a line, or of a line of the card, 1,025 bytes are held, which is as far as it matters.
// A line that stands whole in a piece of input is read in place. What is printed goes out before each wait for input.
// The run and the piece of input lie in the frame of `serve`, 152 KB of stack, and are lent from there. `Run::new` and `Buffer::new` give
// their arrays by value; the linked program comes through with 160 KB where there is no card (measured by bench/stack.py), which leaves no
// room for a second copy of a piece or of the table.
#![tactic(auto)]

mod buffer;
mod state;

use state::{PIECE, Run};
use std::io;
use std::io::{Read, Write};

pub const MOST_LINES: u32 = 1000000;

// Reads a card and lines from a reader and prints the answers to a writer. An error of the reading or of the writing ends the run
// and is handed back; there is no other. Where the writing fails, some of the answers that waited for it may be out.
// A proved loop has to end, and nothing says that the input does: it counts its turns, up to a number that no run comes to.
pub fn serve<R: Read, W: Write>(from: &mut R, to: &mut W) -> io::Result<()> {
    let mut run = Run::new();
    let mut piece = [0u8; PIECE];
    for _ in 0..u64::MAX {
        if run.is_over() {
            break;
        }
        run.turn(&mut piece, from, to)?;
    }
    Ok(())
}
