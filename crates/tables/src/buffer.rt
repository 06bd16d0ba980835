// What a question is asked in: the words and bytes that it gives, and the room that is lent to the compiler.

// Words of a table or a room; a longer one is cut to them.
const WORDS: usize = 5000;

// The same for the bytes of a pattern or a line.
const BYTES: usize = 2000;

#[derive(Drop)]
pub struct Buffer {
    pub room: [u32; WORDS],
    pub words: [u32; WORDS],
    pub bytes: [u8; BYTES],
}

impl Buffer {
    pub fn new() -> Buffer {
        Buffer {
            room: [0; WORDS],
            words: [0; WORDS],
            bytes: [0; BYTES],
        }
    }
}
