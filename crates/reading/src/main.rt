// The program `reading`: a card, then lines, on standard input; an answer for each line on standard output.
// The crate `session` does the work.
#![tactic(auto)]

use std::io;

fn main(rt: HostRuntime) -> io::Result<()> {
    session::serve(&mut rt.stdin(), &mut rt.stdout())
}
