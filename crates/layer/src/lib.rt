// The cells of one position of a line (01, "The table"): for each state and setting the least price of a run from there to the
// line's end. A sweep goes from the end to the start: a byte step, which tests each row once and then goes over the settings in
// use, and a closing under the marker rows, from the highest setting down, since a marker always raises the setting.
// A byte costs rows + (rows that read it + marker rows) × 3^K cells. The stack is about 46 KB, whatever the line: layers, since a step
// takes and gives them by value, and where the marker rows start (docs/PERFORMANCE.md).
#![tactic(auto)]

ghost use Rattle.std.specs.Prelude.{◌≡◌, ◌+◌, map, [], ◌≤◌, ◌<◌, length, get_or};
ghost use Rattle.table.specs.Table.{RightRow, RightTable, automaton_of, row_of_words, most_vars, most_states, most_bytes};
ghost use Rattle.togo.specs.ToGo.{marker};
ghost use Rattle.togo.specs.Price.{allowed, answer};
ghost use Rattle.cell.specs.Value.{value};
ghost use Rattle.layer.specs.Layer.{cells, Empty, Relaxed, Closed, Right};
ghost use Rattle.layer.specs.Parts.{OneClosed, ClosedAt, Ended, Stepped};

mod cells;
mod plan;

use cell::Cell;
use cells::Layer;
use plan::{MOST_ROWS, Plan};
use setting::{MARKERS, SETTINGS};
use table::Row;
use table::right::Table;

// The setting in which all variables are shut.
const ALL_SHUT: usize = SETTINGS - 1;

// The marker of a row that is one, from 0 to 5.
fn marker(r: Row) -> usize
    requires { RightRow most_states most_vars r × (r.kind ≡ 0 → ⊥) }
    ensures { (result ≡ marker r) × (result < 6) }
{
    (2 * r.argument + r.kind - 3) as usize
}

impl Layer {
    // The byte step: each cell takes the lightest of what it has and of what the rows that read b bring it from the cells after b.
    fn relax(&mut self, plan: &Plan, b: u32, old: &Layer)
        ensures { Relaxed plan.now.low b (automaton_of plan.now.table.words.now).rows (cells old.now) (cells self.old) (cells self.new) }
    {
        for i in 0..plan.table.rows() {
            self.relax_one(old, plan.table.row(i), b, plan.low);
        }
    }

    // One marker row at one setting. The tolls of a position go beside the plan through three functions and no further: a struct of the
    // two would lengthen each use and keep no fact.
    fn close_one(&mut self, plan: &Plan, tolls: &[Option<u64>; MARKERS], r: Row, u: usize)
        requires right_row { RightRow most_states most_vars r × (r.kind ≡ 0 → ⊥) }
        requires u_bound { u < SETTINGS }
        ensures { OneClosed tolls.now r u (cells self.old) (cells self.new) }
    {
        let m = marker(r);
        let d = plan.moves[u * MARKERS + m] as usize;
        // 27, which is no setting, stands for "may not be taken" in the constant table of moves, a form of docs/DECISIONS.md.
        if SETTINGS <= d {
            return;
        }
        let Some(toll) = tolls[m] else {
            return;
        };
        // As in `relax_row`: what has no run is passed over.
        let far = self.cell(r.to as usize * SETTINGS + d);
        if far.weight == Cell::NONE.weight {
            return;
        }
        let price = Cell {
            weight: r.weight,
            key: toll,
        };
        self.take(price, far, r.from as usize * SETTINGS + u);
    }

    // The marker rows at one setting.
    fn close_at(&mut self, plan: &Plan, tolls: &[Option<u64>; MARKERS], u: usize)
        requires { u < SETTINGS }
        ensures { ClosedAt tolls.now (map (row_of_words plan.now.table.words.now) plan.now.marks.now) u (cells self.old) (cells self.new) }
    {
        for &at in plan.marks {
            self.close_one(plan, tolls, table::row_at(plan.table.words, at as usize), u);
        }
    }

    // The closing: each cell takes the lightest of what it has and of what the markers bring it from cells of the same position.
    fn close(&mut self, plan: &Plan, tolls: &[Option<u64>; MARKERS])
        ensures { Closed plan.now.low tolls.now (automaton_of plan.now.table.words.now).rows (cells self.old) (cells self.new) }
    {
        for u in (plan.low..SETTINGS).rev() {
            self.close_at(plan, tolls, u);
        }
    }

    // The end words, where all variables are shut.
    fn ends(&mut self, table: &Table)
        ensures { Ended table.now.words.now (automaton_of table.now.words.now).states self.old self.new }
    {
        for q in 0..table.states() {
            let end = Cell {
                weight: table.end(q),
                key: 0,
            };
            self.put(q * SETTINGS + ALL_SHUT, end);
        }
    }
}

impl Plan<'_> {
    // The layer of position p, where the line ends.
    fn end_layer(&self, p: usize) -> Layer
        requires { p ≤ most_bytes + 1 }
        ensures { Right (allowed self.now.lo.now self.now.hi.now) (automaton_of self.now.table.words.now) [] p (cells result) }
    {
        let mut new = Layer::empty();
        new.ends(&self.table);
        new.close(self, &self.tolls(p));
        new
    }

    // The layer of position p, before the byte b, from the layer after it.
    fn step(&self, p: usize, b: u8, old: Layer) -> Layer
        requires { p ≤ most_bytes + 1 }
        ensures { Stepped (allowed self.now.lo.now self.now.hi.now) (automaton_of self.now.table.words.now) p b (cells old) (cells result) }
    {
        let mut new = Layer::empty();
        new.relax(self, u32::from(b), &old);
        new.close(self, &self.tolls(p));
        new
    }
}

// The price of the best run that has each marker m at a position from lo[m] to hi[m]. Words and ranges are lent apart: so the clauses
// promise it, and `Table` or a type of the ranges would ask more of callers. Within, `Plan` keeps what they say.
pub fn sweep(t: &[u32], line: &[u8], lo: &[u32], hi: &[u32]) -> Cell
    requires right_table { RightTable t.now × (length line.now ≤ most_bytes) }
    requires in_bounds { (6 ≤ length lo.now) × (6 ≤ length hi.now) }
    ensures { value result ≡ answer (allowed lo.now hi.now) (automaton_of t.now) line.now }
{
    let table = Table { words: t };
    let moves = setting::moves();
    let mut all = [0; MOST_ROWS];
    let marks = plan::gather(&table, &mut all);
    let plan = Plan {
        table,
        marks,
        moves: &moves,
        lo,
        hi,
        low: plan::lowest(table.vars()),
    };
    // By number: over `line.iter().enumerate().rev()` the loop's step was not proved. std has no lemma for what that chain gives, so the
    // invariant had to speak of the fields inside the two adapters.
    let mut l = plan.end_layer(line.len() + 1);
    for i in (0..line.len()).rev() {
        l = plan.step(i + 1, line[i], l);
    }
    Cell::NONE.lighter(l.cell(plan.low))
}
