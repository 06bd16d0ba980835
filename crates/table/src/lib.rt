// A table of states and rows, as 32-bit words (01, "The table"), and the check behind number 7.
// The check looks once at each end word and once at each row; no stack to speak of.
#![tactic(auto)]

ghost use Rattle.std.specs.Prelude.{◌≡◌, ◌+◌, ◌*◌, ◌≤◌, length};
ghost use Rattle.basics.specs.Decides.{Decides};
ghost use Rattle.marks.specs.Labels.{RightLabel};
ghost use Rattle.table.specs.Table.{row_of_words, words_of_row, RightRow, RightEnd, RightTable, most_states, most_rows};
ghost use Rattle.table.specs.Check.{RightBytes, RightHeader, EndsRight, RowsRight};

pub mod right;

pub const MOST_STATES: u32 = 32;

pub const MOST_VARS: u32 = 3;

pub const MOST_ROWS: u32 = 1024;

const MOST_WEIGHT: u32 = 1000000;

const NO_END: u32 = weight::Weight::MARK.number;

// The words before the end words: the numbers of states, variables and rows.
pub const HEADER: usize = 3;

pub const ROW_WORDS: usize = 5;

// What a row's kind says.
pub const READS: u32 = 0;

pub const OPENS: u32 = 1;

pub const CLOSES: u32 = 2;

// Five words of a table. The kind stays a number, and no enum: it is a word of a lent table that may hold anything, and the check is
// what tells the three kinds from the rest.
#[derive(Clone, Copy)]
pub struct Row {
    pub from: u32,
    pub to: u32,
    pub kind: u32,
    pub argument: u32,
    pub weight: u32,
}

// The five words in the order of a table, and back.
impl From<Row> for [u32; ROW_WORDS] {
    ghost from_gives = { λ row words. words ≡ words_of_row row };

    fn from(r: Row) -> [u32; ROW_WORDS] {
        [r.from, r.to, r.kind, r.argument, r.weight]
    }
}

impl From<[u32; ROW_WORDS]> for Row {
    ghost from_gives = { λ words row. row ≡ row_of_words words 0 };

    fn from([from, to, kind, argument, weight]: [u32; ROW_WORDS]) -> Row {
        Row {
            from,
            to,
            kind,
            argument,
            weight,
        }
    }
}

pub fn row_at(t: &[u32], at: usize) -> Row
    requires { at + 5 ≤ length t.now }
    ensures { result ≡ row_of_words t.now at }
{
    [t[at], t[at + 1], t[at + 2], t[at + 3], t[at + 4]].into()
}

fn right_end(w: u32) -> bool
    ensures { Decides (RightEnd w) result }
{
    w <= MOST_WEIGHT || w == NO_END
}

fn right_bytes(argument: u32) -> bool
    ensures { Decides (RightBytes argument) result }
{
    argument < 65536 && argument / 256 <= argument % 256
}

fn right_label(k: u32, kind: u32, argument: u32) -> bool
    ensures { Decides (RightLabel k kind argument) result }
{
    match kind {
        READS => right_bytes(argument),
        OPENS | CLOSES => 1 <= argument && argument <= k,
        _ => false,
    }
}

fn right_row(s: u32, k: u32, r: Row) -> bool
    ensures { Decides (RightRow s k r) result }
{
    r.from < s && r.to < s && r.weight <= MOST_WEIGHT && right_label(k, r.kind, r.argument)
}

fn right_ends(t: &[u32], s: usize) -> bool
    requires { 3 + s ≤ length t.now }
    ensures { Decides (EndsRight t.now s) result }
{
    t[HEADER..HEADER + s].iter().all(|&w| right_end(w))
}

// Where the words of row i start, behind the end words of s states.
fn row_start(s: usize, i: usize) -> usize
    requires { (s ≤ most_states) × (i ≤ most_rows) }
    ensures { result ≡ 3 + s + 5 * i }
{
    HEADER + s + ROW_WORDS * i
}

// By number and not by `chunks_exact`: the rows would have to be cut out first by where the first starts and where the last ends, and
// that is no plainer than where each starts.
fn right_rows(t: &[u32], s: u32, k: u32, n: usize) -> bool
    requires { (s ≤ most_states) × (n ≤ most_rows) × (3 + s + 5 * n ≤ length t.now) }
    ensures { Decides (RowsRight t.now s k n) result }
{
    (0..n).all(|i| right_row(s, k, row_at(t, row_start(s as usize, i))))
}

fn right_header(s: u32, k: u32, n: u32) -> bool
    ensures { Decides (RightHeader s k n) result }
{
    1 <= s && s <= MOST_STATES && k <= MOST_VARS && n <= MOST_ROWS
}

// The three limits come before the length: below them the length asked for cannot wrap.
pub fn is_right(t: &[u32]) -> bool
    ensures { Decides (RightTable t.now) result }
{
    let [s, k, n, ..] = *t else {
        return false;
    };
    right_header(s, k, n)
        && row_start(s as usize, n as usize) <= t.len()
        && right_ends(t, s as usize)
        && right_rows(t, s, k, n as usize)
}
