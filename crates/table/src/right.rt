// Words that are a right table, to be lent on: who is given one need not ask that they are. No loop.
#![tactic(auto)]

ghost use Rattle.std.specs.Prelude.{◌≡◌, ◌+◌, ◌*◌, ◌≤◌, ◌<◌, length, get_or, MatchOption};
ghost use Rattle.table.specs.Table.{RightRow, RightTable, automaton_of, most_states, most_vars, most_rows};
ghost use Rattle.table.specs.Props.{RightTable-prop};

use crate::{HEADER, Row, is_right, row_at, row_start};

#[derive(Clone, Copy)]
pub struct Table<'a> {
    pub words: &'a [u32],
    pub ghost right: { RightTable words.now } by { RightTable-prop words.now },
}

impl<'a> Table<'a> {
    // These words, if they are a right table.
    pub fn of(words: &'a [u32]) -> Option<Table<'a>>
        ensures { MatchOption result (RightTable words.now → ⊥) (λ table. table.words.now ≡ words.now) }
    {
        if is_right(words) {
            Some(Table { words })
        } else {
            None
        }
    }
}

impl Table<'_> {
    #[tactic(auto, unfolding(crate::specs::Table::automaton_of))]
    pub fn states(&self) -> usize
        ensures states { result ≡ (automaton_of self.now.words.now).states }
        ensures few { result ≤ most_states }
    {
        self.words[0] as usize
    }

    #[tactic(auto, unfolding(crate::specs::Table::automaton_of))]
    pub fn vars(&self) -> u32
        ensures vars { result ≡ (automaton_of self.now.words.now).vars }
        ensures few { result ≤ most_vars }
    {
        self.words[1]
    }

    #[tactic(auto, using(crate::specs::Rows::table_rows))]
    pub fn rows(&self) -> usize
        ensures rows { result ≡ length (automaton_of self.now.words.now).rows }
        ensures few { result ≤ most_rows }
    {
        self.words[2] as usize
    }

    pub fn end(&self, q: usize) -> u32
        requires { q < (automaton_of self.now.words.now).states }
        ensures { result ≡ (automaton_of self.now.words.now).end q }
    {
        self.words[HEADER + q]
    }

    // Where the words of row i start.
    #[tactic(auto, using(crate::specs::Rows::table_few))]
    pub fn row_start(&self, i: usize) -> usize
        requires { i < length (automaton_of self.now.words.now).rows }
        ensures start { result ≡ 3 + (automaton_of self.now.words.now).states + 5 * i }
        ensures within { result + 5 ≤ length self.now.words.now }
        ensures few { result < 3 + most_states + 5 * most_rows }
    {
        row_start(self.states(), i)
    }

    pub fn row(&self, i: usize) -> Row
        requires { i < length (automaton_of self.now.words.now).rows }
        ensures row { result ≡ get_or (automaton_of self.now.words.now).rows i result }
        ensures right { RightRow most_states most_vars result }
    {
        row_at(self.words, self.row_start(i))
    }
}
