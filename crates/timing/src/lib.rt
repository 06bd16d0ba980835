// The reader as bench/ calls it: a table as bytes, four to a word, low byte first. Not for users: the gateway's own functions come
// with their request. Takes 20 KB of stack for the words besides the reader's.
#![tactic(auto)]

use reader::Answer;

const WORDS: usize = 5200;

// What stands for no reading and for a refusal in the C interface of bench/, since a weight has 32 bits. bench/rust/bench.rs does not
// tell the two apart: it takes 2^32 and more for no reading.
const NO_READING: u64 = 1 << 32;

const REFUSED: u64 = 1 << 33;

// As many whole words as there are, up to the room.
fn words(bytes: &[u8], room: &mut [u32]) {
    for (word, four) in room.iter_mut().zip(bytes.as_chunks::<4>().0) {
        *word = u32::from_le_bytes(*four);
    }
}

// The weight of the best reading; 2^32 for no reading, and 2^33 for a refusal.
pub fn bench_best(table: &[u8], line: &[u8]) -> u64 {
    let mut room = [0u32; WORDS];
    words(table, &mut room);
    match reader::best_reading(&room, line) {
        Answer::Reading { weight, spans: _ } => u64::from(weight.number),
        Answer::NoReading => NO_READING,
        Answer::Refused {
            number: _,
            place: _,
        } => REFUSED,
    }
}
