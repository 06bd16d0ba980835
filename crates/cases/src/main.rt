// Runs the program's work on each file that its arguments name: stored inputs, with their answers in `stdout`.
// A line with the file's name stands before its answers.
#![tactic(auto)]

use std::io;

fn main(rt: HostRuntime) -> io::Result<()> {
    files::each(
        &rt,
        &rt.stderr(),
        |file| session::serve(file, &mut io::writer(&rt)),
    )
}
