// Words put into a room one after another.
ghost use Rattle.std.specs.Prelude.{◌≡◌, ◌+◌, ◌≤◌, [], ◌∷◌, length};
ghost use Rattle.layout.specs.Words.{spread};
ghost use Rattle.emit.specs.Puts.{Puts};

use table::{ROW_WORDS, Row};

// The room, and the place of the next word.
#[derive(Drop)]
pub(crate) struct Writer<'a> {
    pub room: &'a mut [u32],
    pub at: usize,
}

impl<'a> Writer<'a> {
    #[tactic(auto, using(crate::proofs::Laws::wrote_part))]
    pub(crate) fn put(&mut self, words: &[u32])
        requires { self.old.at + length words.now ≤ length self.old.room.now }
        ensures { Puts self.old self.new words.now }
    {
        let at = self.at;
        let end = at + words.len();
        self.room[at..end].copy_from_slice(words);
        self.at = end;
    }

    #[tactic(auto, unfolding(layout::specs::Words::spread))]
    pub(crate) fn put_row(&mut self, row: Row)
        requires { self.old.at + 5 ≤ length self.old.room.now }
        ensures { Puts self.old self.new (spread (row ∷ [])) }
    {
        self.put(&<[u32; ROW_WORDS]>::from(row));
    }
}
