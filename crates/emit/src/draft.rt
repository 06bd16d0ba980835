// What a table is made of, and its parts.
ghost use Rattle.std.specs.Prelude.{◌≡◌, suc, ◌+◌, ◌≤◌, ◌<◌, length, option_to_list};
ghost use Rattle.layout.specs.Words.{arrow, rows_for, rows_of, ends_of};
ghost use Rattle.emit.specs.Cells.{cell_at, arcs_in, labels_in};
ghost use Rattle.emit.specs.Wrote.{from_words, row_words};
ghost use Rattle.emit.specs.Puts.{Puts};

use super::writer::Writer;
use grid::{NO_ARC, STATES};
use table::Row;

// The arcs, from x to y at x × STATES + y, the labels, the weight of a text for no step, and the number of steps. Where there is no arc
// the cell has the mark, which is a weight and no flag: cells are less than it or not.
#[derive(Clone, Copy)]
pub(crate) struct Draft<'a> {
    pub cells: &'a [u32],
    pub labels: &'a [u32],
    pub nul: u32,
    pub steps: usize,
    ghost sized: { (1024 ≤ length cells.now) × (64 ≤ length labels.now) × (steps ≤ 31) },
}

// That x is a state stands in four contracts: a type of such numbers would be made, and its bound proved, at each turn of each loop.
impl<'a> Draft<'a> {
    // The row from state x to step p, if there is an arc.
    #[tactic(auto, using(crate::proofs::Laws::row_there, crate::proofs::Laws::row_none))]
    fn row(&self, x: usize, p: usize) -> Option<Row>
        requires { (x ≤ self.now.steps) × (p < self.now.steps) }
        ensures { option_to_list result ≡ arrow (cell_at self.now.cells.now) (labels_in self.now.labels.now) x p }
    {
        let weight = self.cells[x * STATES + (p + 1)];
        if weight >= NO_ARC {
            return None;
        }
        Some(Row {
            from: x as u32,
            to: p as u32 + 1,
            kind: self.labels[2 * p],
            argument: self.labels[2 * p + 1],
            weight,
        })
    }

    // The rows that leave from state x.
    fn rows_from(&self, x: usize) -> usize
        requires { x ≤ self.now.steps }
        ensures { (result ≤ self.now.steps) × (result ≡ length (rows_for (cell_at self.now.cells.now) (labels_in self.now.labels.now) self.now.steps x)) }
    {
        let first = x * STATES + 1;
        let mut n = 0;
        for weight in &self.cells[first..first + self.steps] {
            if *weight < NO_ARC {
                n += 1;
            }
        }
        n
    }

    #[tactic(auto, unfolding(layout::specs::Gather::gather))]
    pub(crate) fn rows(&self) -> usize
        ensures { (result ≤ 992) × (result ≡ length (rows_of (cell_at self.now.cells.now) (labels_in self.now.labels.now) self.now.steps)) }
    {
        let mut n = 0;
        for x in 0..self.steps + 1 {
            n += self.rows_from(x);
        }
        n
    }

    // What is charged after state x: after the start, over the whole.
    fn end(&self, x: usize) -> u32
        requires { x ≤ self.now.steps }
        ensures { result ≡ arcs_in self.now.cells.now self.now.nul x 0 }
    {
        if x == 0 {
            self.nul
        } else {
            self.cells[x * STATES]
        }
    }

    #[tactic(auto, using(crate::specs::Puts::puts_none), unfolding(layout::specs::Gather::gather))]
    pub(crate) fn write_ends(&self, table: &mut Writer)
        requires { table.old.at + length (ends_of (arcs_in self.now.cells.now self.now.nul) (suc self.now.steps)) ≤ length table.old.room.now }
        ensures { Puts table.old table.new (ends_of (arcs_in self.now.cells.now self.now.nul) (suc self.now.steps)) }
    {
        for x in 0..self.steps + 1 {
            table.put(&[self.end(x)]);
        }
    }

    // The rows that leave from state x.
    #[tactic(auto, using(crate::specs::Puts::puts_none), unfolding(layout::specs::Gather::gather))]
    fn write_from(&self, x: usize, table: &mut Writer)
        requires x_in_bounds { x ≤ self.now.steps }
        requires fits { table.old.at + length (from_words (cell_at self.now.cells.now) (labels_in self.now.labels.now) self.now.steps x) ≤ length table.old.room.now }
        ensures { Puts table.old table.new (from_words (cell_at self.now.cells.now) (labels_in self.now.labels.now) self.now.steps x) }
    {
        for p in 0..self.steps {
            if let Some(row) = self.row(x, p) {
                table.put_row(row);
            }
        }
    }

    #[tactic(auto, using(crate::specs::Puts::puts_none), unfolding(layout::specs::Gather::gather))]
    pub(crate) fn write_rows(&self, table: &mut Writer)
        requires { table.old.at + length (row_words (cell_at self.now.cells.now) (labels_in self.now.labels.now) self.now.steps) ≤ length table.old.room.now }
        ensures { Puts table.old table.new (row_words (cell_at self.now.cells.now) (labels_in self.now.labels.now) self.now.steps) }
    {
        for x in 0..self.steps + 1 {
            self.write_from(x, table);
        }
    }
}
