// The customer's page: a card and a line in, the answer out, promised of the card's text alone (01, demands 1, 2 and 3).
// The statements of the three demands stand in specs/Demands.antt, each proved in a line or two from the crates below.
#![tactic(auto)]

ghost use Rattle.reader.specs.Answers.{read as shown};
ghost use Rattle.promises.specs.Reading.{CardAnswer};

use reader::Answer;

// Enough for every table of 31 steps: 32 states and 992 rows.
pub const ROOM: usize = compiler::ROOM;

// The best reading of a line by a card. Takes about 20 KB of stack for the table besides what compiling and reading take.
pub fn read_card(card: &[u8], line: &[u8]) -> Answer
    ensures { CardAnswer card.now line.now (shown result) }
{
    let mut room = [0u32; ROOM];
    match compiler::compile_card(card, &mut room) {
        Err(refusal) => refusal.into(),
        Ok(_) => reader::best_reading(&room, line),
    }
}
