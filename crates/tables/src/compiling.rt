// A question to the compiler: K, a pattern and the words of the room; then the answer and the words that it leaves at the start of the room.
// After a refusal no word is left.

use crate::buffer::Buffer;
use crate::numbers::Numbers;
use crate::said::{stored, valued};

// Stands in the room before, so that a word is seen that should have stayed.
const BEFORE: u32 = 77777777;

// Whether these words stand at the start of the room, and nothing else has changed.
fn is_left(room: &[u32], words: &[u32]) -> bool {
    room.strip_prefix(words)
        .is_some_and(|rest| rest.iter().all(|word| *word == BEFORE))
}

// Asks the question, and says whether the answer is the stored one, and the room too.
pub fn ask(numbers: &mut Numbers, buffer: &mut Buffer) -> bool {
    let k = numbers.number();
    let pattern = numbers.bytes(&mut buffer.bytes);
    let size = numbers.number() as usize;
    let head = numbers.array();
    let words = numbers.words(&mut buffer.words);
    let room = &mut buffer.room[..];
    let most = size.min(room.len());
    let room = &mut room[..most];
    room.fill(BEFORE);
    let said = valued(compiler::compile(k, pattern, room));
    Some(said) == stored(head, |_| words.len()) && is_left(room, words)
}
