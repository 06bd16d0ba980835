// What the program prints of an answer, put into a lent buffer (01, "The card and the program").
// A buffer that is too small holds as much of it as there is room for; an answer takes at most MOST bytes.
#![tactic(auto)]

ghost use Rattle.std.specs.Prelude.{◌≡◌, ◌≤◌, length};
ghost use Rattle.printing.specs.Puts.{Puts};
ghost use Rattle.printing.specs.Text.{printed};

mod page;

use page::Page;
use reader::Answer;

// The most bytes that one answer takes.
pub const MOST: usize = 128;

// What is printed of the answer to a line, with k variables; a refused card is answered as line 0. The buffer and the place apart: so the
// clause promises it, and `Page` would ask more of callers.
pub fn answer(out: &mut [u8], at: usize, line: u32, k: u32, a: Answer) -> usize
    requires { at ≤ length out.old }
    ensures { Puts out.old at (printed line k a) out.new result }
{
    let mut page = Page { out, at };
    page.answer(line, k, a);
    page.at
}
