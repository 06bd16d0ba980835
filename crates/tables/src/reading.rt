// A question to a table: its words, a line and six numbers; then the answers for the weight of that set and for the best reading.
// After the three numbers of the second stand the six of its reading, whatever its kind.

use crate::buffer::Buffer;
use crate::numbers::Numbers;
use crate::said::{of_answer, stored, valued};
use spans::Spans;
use weight::Weight;

// Asks both questions, and says whether the answers are the stored ones.
pub fn ask(numbers: &mut Numbers, buffer: &mut Buffer) -> bool {
    let table = numbers.words(&mut buffer.words);
    let line = numbers.bytes(&mut buffer.bytes);
    let set = Spans::from(numbers.array());
    let head = numbers.array();
    let weight = stored(head, |number| Weight { number });
    let head = numbers.array();
    let spans = Spans::from(numbers.array());
    let reading = stored(head, |number| (Weight { number }, spans));
    Some(valued(reader::weight_of_set(table, line, set))) == weight
        && Some(of_answer(reader::best_reading(table, line))) == reading
}
