// Decimal numbers in a text, each with one byte below `0` after it, a blank or LF.

use std::array;

// A text of numbers, gone through from its start. rest: what is left of it.
#[derive(Drop)]
pub struct Numbers<'a> {
    rest: &'a [u8],
}

impl<'a> Numbers<'a> {
    pub fn new(text: &'a [u8]) -> Numbers<'a> {
        Numbers { rest: text }
    }

    pub fn is_over(&self) -> bool {
        self.rest.is_empty()
    }

    // The next number, modulo 2^32; 0 where the text is over, so that the program does on each text what it always did. Any byte from `0`
    // on counts as a digit.
    pub fn number(&mut self) -> u32 {
        let mut value = 0u32;
        while let Some((byte, rest)) = self.rest.split_first() {
            self.rest = rest;
            if *byte < b'0' {
                break;
            }
            value = value.wrapping_mul(10).wrapping_add(u32::from(*byte - b'0'));
        }
        value
    }

    // The next N numbers.
    pub fn array<const N: usize>(&mut self) -> [u32; N] {
        array::from_fn(|_| self.number())
    }

    // A number n and the next n numbers, or as many of them as there is room for; `of` says what each stands for.
    fn list<'b, T: Copy, F: Fn(u32) -> T>(&mut self, room: &'b mut [T], of: F) -> &'b [T]
        requires { F.IsAlwaysCallable of }
    {
        let most = (self.number() as usize).min(room.len());
        let list = &mut room[..most];
        for item in list.iter_mut() {
            *item = of(self.number());
        }
        list
    }

    pub fn words<'b>(&mut self, room: &'b mut [u32]) -> &'b [u32] {
        self.list(room, |number| number)
    }

    // The same for bytes: a number above 255 is taken modulo 256.
    pub fn bytes<'b>(&mut self, room: &'b mut [u8]) -> &'b [u8] {
        self.list(room, |number| (number % 256) as u8)
    }
}
