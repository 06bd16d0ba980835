// How a setting of the variables moves under a marker (01, "The table"): a constant table of 27 settings by six markers.
// A setting is a number in base three with variable 1 lowest: untouched 0, open 1, shut 2. Marker 2v - 2 opens
// variable v, marker 2v - 1 closes it. 27 stands where the marker may not be taken. Cost: the table
// is copied once.
#![tactic(auto)]

ghost use Rattle.std.specs.Prelude.{◌≡◌};
ghost use Rattle.setting.specs.Setting.{Moves};

// Each of three variables is untouched, open or shut.
pub const SETTINGS: usize = 27;

// The markers of three variables, each opened and closed.
pub const MARKERS: usize = 6;

const ENTRIES: usize = SETTINGS * MARKERS;

// A form that the project chose: a constant table.
#[rattlefmt::skip]
pub const MOVES: [u8; ENTRIES] = [
    1, 27, 3, 27, 9, 27, // setting 0
    27, 2, 4, 27, 10, 27, // setting 1
    27, 27, 5, 27, 11, 27, // setting 2
    4, 27, 27, 6, 12, 27, // setting 3
    27, 5, 27, 7, 13, 27, // setting 4
    27, 27, 27, 8, 14, 27, // setting 5
    7, 27, 27, 27, 15, 27, // setting 6
    27, 8, 27, 27, 16, 27, // setting 7
    27, 27, 27, 27, 17, 27, // setting 8
    10, 27, 12, 27, 27, 18, // setting 9
    27, 11, 13, 27, 27, 19, // setting 10
    27, 27, 14, 27, 27, 20, // setting 11
    13, 27, 27, 15, 27, 21, // setting 12
    27, 14, 27, 16, 27, 22, // setting 13
    27, 27, 27, 17, 27, 23, // setting 14
    16, 27, 27, 27, 27, 24, // setting 15
    27, 17, 27, 27, 27, 25, // setting 16
    27, 27, 27, 27, 27, 26, // setting 17
    19, 27, 21, 27, 27, 27, // setting 18
    27, 20, 22, 27, 27, 27, // setting 19
    27, 27, 23, 27, 27, 27, // setting 20
    22, 27, 27, 24, 27, 27, // setting 21
    27, 23, 27, 25, 27, 27, // setting 22
    27, 27, 27, 26, 27, 27, // setting 23
    25, 27, 27, 27, 27, 27, // setting 24
    27, 26, 27, 27, 27, 27, // setting 25
    27, 27, 27, 27, 27, 27, // setting 26
];

// The whole table, to be lent on: a constant is laid out anew wherever it is named.
pub fn moves() -> [u8; ENTRIES]
    ensures { Moves result }
{
    MOVES
}
