// From a card to a table (01, "The compiled table, exactly"; numbers 1 to 6, and 10 before them).
// The text is parsed and its arcs are built in one pass, into 1,024 words on the stack; then the words of the table are written
// into the lent room, if they fit. A refused call leaves the room as it was.
#![tactic(auto)]

ghost use Rattle.compiler.specs.Answers.{compiled, Compiles, CompilesCard};

use grid::{CELLS, STATES, STEPS};
use parser::LABELS;
use refusal::Refusal;
use table::{HEADER, ROW_WORDS};

// 01's limits. The variables and the steps have numbers of their own: what a table may have, and what the parser's cells have room for, are
// other matters, and other limits are what must-fail/vars_4.edit and steps_30.edit try.
pub const MOST_VARS: u32 = 3;

pub const MOST_TEXT: usize = 255;

pub const MOST_NESTING: usize = 16;

pub const MOST_STEPS: usize = 31;

// Enough for every table: as many states as there may be, and a row from each to each step.
pub const ROOM: usize = HEADER + STATES + ROW_WORDS * (STATES * STEPS);

// The table of a pattern with k variables: how many words it has, now at the start of the room.
#[tactic(auto, using(crate::specs::Cases::many_vars, crate::specs::Cases::long_text, crate::specs::Made::no_text))]
pub fn compile(k: u32, pattern: &[u8], room: &mut [u32]) -> Result<usize, Refusal>
    ensures { Compiles k pattern.now room.old room.new (compiled result) }
{
    if MOST_VARS < k {
        return Err(Refusal::Variables);
    }
    if MOST_TEXT < pattern.len() {
        return Err(Refusal::LongPattern);
    }
    let mut cells = [0; CELLS];
    let mut labels = [0; LABELS];
    let part = parser::parse(pattern, k, &mut cells, &mut labels)?;
    if MOST_NESTING < part.deep {
        return Err(Refusal::Nesting);
    }
    if MOST_STEPS < part.steps {
        return Err(Refusal::Steps);
    }
    emit::emit(&cells, &labels, part.nul, part.steps, k, room)
}

// The table of a card: its form first.
#[tactic(auto, using(crate::specs::Made::wrong_card))]
pub fn compile_card(text: &[u8], room: &mut [u32]) -> Result<usize, Refusal>
    ensures { CompilesCard text.now room.old room.new (compiled result) }
{
    let form = card::form_of(text)?;
    compile(form.vars, &text[form.from..form.to], room)
}
