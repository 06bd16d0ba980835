// What every byte of a line is read by: the table, where its marker rows start, the table of moves, and the range of positions of
// each marker. Made once for a line, and lent on.
#![tactic(auto)]

ghost use Rattle.std.specs.Prelude.{◌≡◌, ◌+◌, ◌-◌, ◌^◌, ◌≤◌, ◌<◌, length, get_or, take};
ghost use Rattle.spans.specs.Spans.{digit};
ghost use Rattle.setting.specs.Setting.{begin, Moves};
ghost use Rattle.table.specs.Table.{automaton_of, most_vars, most_bytes};
ghost use Rattle.togo.specs.Price.{allowed};
ghost use Rattle.layer.specs.Layer.{toll_of, Tolls, Markers};
ghost use Rattle.setting.specs.declared.TheConstants.{MARKERS, SETTINGS};
ghost use Rattle.layer.specs.Props.{Markers-prop, Moves-prop};

use cell::BASE;
use setting::{MARKERS, SETTINGS};
use table::READS;
use table::right::Table;

// As many rows as a table may have.
pub const MOST_ROWS: usize = table::MOST_ROWS as usize;

#[derive(Clone, Copy)]
pub struct Plan<'a> {
    pub table: Table<'a>,
    pub marks: &'a [u32],
    pub moves: &'a [u8],
    pub lo: &'a [u32],
    pub hi: &'a [u32],
    pub low: usize,
    pub ghost gathered: { Markers table.words.now (get_or table.words.now 2 0) marks.now } by { Markers-prop table.words.now (get_or table.words.now 2 0) marks.now },
    pub ghost settled: { Moves moves.now } by { Moves-prop moves.now },
    pub ghost ranges: { (MARKERS ≤ length lo.now) × (MARKERS ≤ length hi.now) },
    pub ghost lowest: { low ≡ begin (automaton_of table.words.now).vars },
    pub ghost setting: { low < SETTINGS },
}

// The lowest setting in use: variables that are not used count as shut.
pub fn lowest(k: u32) -> usize
    requires { k ≤ most_vars }
    ensures lowest { result ≡ begin k }
    ensures setting { result < SETTINGS }
{
    SETTINGS - 3_usize.pow(k)
}

// Where the marker rows start, found once for a line and not anew at each setting. Row starts and not rows, which would take 20 KB of
// stack in place of 4.
pub fn gather<'b>(table: &Table, marks: &'b mut [u32; MOST_ROWS]) -> &'b [u32]
    ensures { Markers table.now.words.now (get_or table.now.words.now 2 0) result.now }
{
    // Counted by hand: what a filter leaves is collected into a heap, and there is none.
    let mut count = 0;
    for i in 0..table.rows() {
        if table.row(i).kind != READS {
            marks[count] = table.row_start(i) as u32;
            count += 1;
        }
    }
    &marks[..count]
}

// A bound on a number, as on m and p here and on the place of a cell in cells.rt, is what the caller knows of it: a type around each
// number would be no plainer.

// What is compared of position p of marker m (01, "The table": the order of sets).
fn digit(m: usize, p: usize) -> u64
    requires { (m < MARKERS) × (p ≤ most_bytes + 1) }
    ensures { result ≡ digit m p }
{
    p as u64
}

// The place of marker m in a key.
fn place(m: usize) -> u64
    requires { m < MARKERS }
    ensures { result ≡ 1026 ^ (5 - m) }
{
    BASE.pow((MARKERS - 1 - m) as u32)
}

impl Plan<'_> {
    // What marker m adds to a key at position p, if p is one of its positions.
    fn toll(&self, m: usize, p: usize) -> Option<u64>
        requires { (m < MARKERS) × (p ≤ most_bytes + 1) }
        ensures { result ≡ toll_of (allowed self.now.lo.now self.now.hi.now) p m }
    {
        if p < self.lo[m] as usize || (self.hi[m] as usize) < p {
            return None;
        }
        Some(digit(m, p) * place(m))
    }

    pub fn tolls(&self, p: usize) -> [Option<u64>; MARKERS]
        requires { p ≤ most_bytes + 1 }
        ensures { Tolls (allowed self.now.lo.now self.now.hi.now) p result }
    {
        std::array::from_fn(|m| self.toll(m, p))
    }
}
