// The cells of one position, and what one row's byte makes of them.
#![tactic(auto)]

ghost use Rattle.std.specs.Prelude.{◌≡◌, ◌&&◌, ◌*◌, ◌<◌};
ghost use Rattle.weight.specs.Weight.{joint_to};
ghost use Rattle.marks.specs.Labels.{is_byte, reads};
ghost use Rattle.table.specs.Table.{label_of, most_states};
ghost use Rattle.togo.specs.Price.{cap};
ghost use Rattle.cell.specs.Value.{value};
ghost use Rattle.layer.specs.Layer.{held, cells, Empty};
ghost use Rattle.layer.specs.Parts.{Written, Taken, RowRelaxed, OneRelaxed};

use cell::Cell;
use setting::SETTINGS;
use table::{MOST_STATES, READS, Row};

const CELLS: usize = MOST_STATES as usize * SETTINGS;

// A cell for each state and setting: of state q and setting u at q × SETTINGS + u. Two arrays and not one of `Cell`: a step fills and
// copies a layer, and with 16 bytes a cell in place of 12 it took 1.2 to 2 times as long with `samples/ec.card` and with 248 rows and
// more, and 2.7 times with no rows. Nothing but `empty`, `cell` and `put` knows.
#[derive(Drop)]
pub struct Layer {
    weights: [u32; CELLS],
    keys: [u64; CELLS],
}

fn reads(r: Row, b: u32) -> bool
    ensures { result ≡ (is_byte (label_of r) && reads (label_of r) b) }
{
    r.kind == READS && r.argument / 256 <= b && b <= r.argument % 256
}

impl Layer {
    // No cell has a run.
    pub fn empty() -> Layer
        ensures { Empty result }
    {
        Layer {
            weights: [Cell::NONE.weight; CELLS],
            keys: [Cell::NONE.key; CELLS],
        }
    }

    #[tactic(auto, unfolding(crate::specs::Layer::held))]
    pub fn cell(&self, at: usize) -> Cell
        requires { at < CELLS }
        ensures { value result ≡ held self.now at }
    {
        Cell {
            weight: self.weights[at],
            key: self.keys[at],
        }
    }

    pub fn put(&mut self, at: usize, c: Cell)
        requires { at < CELLS }
        ensures { Written (value c) at self.old self.new }
    {
        self.weights[at] = c.weight;
        self.keys[at] = c.key;
    }

    // The cell at `here` takes the lighter of what it has and of `far` with the price on top.
    pub fn take(&mut self, price: Cell, far: Cell, here: usize)
        requires { here < CELLS }
        ensures { Taken (joint_to cap (value price) (value far)) here self.old self.new }
    {
        let c = self.cell(here).lighter(price.sum(far));
        self.put(here, c);
    }

    // State `from` takes what `to` has, at each setting in use. Most cells of a real card have no run, and are passed over: the
    // mark is a weight and no flag, and to go on with it would give the same.
    // Never inlined: within its callers a byte of `samples/ec.card` took 1.6 times as long (docs/PERFORMANCE.md).
    #[inline(never)]
    fn relax_row(&mut self, old: &Layer, from: usize, to: usize, price: Cell, low: usize)
        requires { (from < most_states) × (to < most_states) × (low < SETTINGS) }
        ensures { RowRelaxed low from to (value price) SETTINGS (cells old.now) (cells self.old) (cells self.new) }
    {
        for u in low..SETTINGS {
            let far = old.cell(to * SETTINGS + u);
            if far.weight != Cell::NONE.weight {
                self.take(price, far, from * SETTINGS + u);
            }
        }
    }

    pub fn relax_one(&mut self, old: &Layer, r: Row, b: u32, low: usize)
        requires { (r.from < most_states) × (r.to < most_states) × (low < SETTINGS) }
        ensures { OneRelaxed low b r (cells old.now) (cells self.old) (cells self.new) }
    {
        if reads(r, b) {
            let price = Cell {
                weight: r.weight,
                key: 0,
            };
            self.relax_row(old, r.from as usize, r.to as usize, price, low);
        }
    }
}
