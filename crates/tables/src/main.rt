// Runs stored questions on the library called directly: tables made by hand, sets that are none, rooms that are too small.
// Each argument names a file of lines of decimal numbers. A line is a question and its answer; its first number is
// 1 for a question to a table and 2 for one to the compiler. Prints how many were asked and how many answers differ, and the first of these.
// Holds the file's text, 262,144 bytes of stack, and 42,000 that a question is asked in.
#![tactic(auto)]

mod buffer;
mod compiling;
mod numbers;
mod reading;
mod said;

ghost use Rattle.std.specs.Prelude.{◌≡◌, ◌+◌, ◌^◌, ◌≤◌, ◌<◌, length, IfOk, OnErr};

use buffer::Buffer;
use numbers::Numbers;
use std::io;
use std::io::{Print, Read};

// Bytes of a file that are read; what follows them is not.
const MOST_TEXT: usize = 262144;

// The first number of a question: to a table, or to the compiler.
const TO_TABLE: u32 = 1;

const TO_COMPILER: u32 = 2;

const MOST_QUESTIONS: u32 = 1000000;

const MOST_SHOWN: u32 = 5;

// How many questions were asked, and how many of their answers differ.
#[derive(Drop)]
struct Tally {
    asked: u32,
    differ: u32,
    ghost some_differ: { differ ≤ asked },
}

impl Tally {
    // Counts an answer, before an error of printing too; the first that differ are printed by their number.
    fn count(&mut self, rt: &impl Print, agrees: bool) -> io::Result<()>
        requires { self.old.asked + 1 < 2 ^ 32 }
        ensures { self.new.asked ≡ self.old.asked + 1 }
    {
        self.asked += 1;
        if agrees {
            return Ok(());
        }
        self.differ += 1;
        if self.differ <= MOST_SHOWN {
            println!(rt; "differs={}", self.asked)?;
        }
        Ok(())
    }

    fn print(&self, rt: &impl Print) -> io::Result<()> {
        println!(rt; "asked={}", self.asked)?;
        println!(rt; "differ={}", self.differ)
    }
}

// Asks the next question, and says whether the answer is the stored one. No other number is stored; it leads to the compiler too, so
// that the program does on each text what it always did.
fn ask(numbers: &mut Numbers, buffer: &mut Buffer) -> bool {
    match numbers.number() {
        TO_TABLE => reading::ask(numbers, buffer),
        TO_COMPILER | _ => compiling::ask(numbers, buffer),
    }
}

fn ask_all(rt: &impl Print, text: &[u8], buffer: &mut Buffer) -> io::Result<Tally> {
    let mut numbers = Numbers::new(text);
    let mut tally = Tally {
        asked: 0,
        differ: 0,
    };
    while !numbers.is_over() && tally.asked < MOST_QUESTIONS {
        tally.count(rt, ask(&mut numbers, buffer))?;
    }
    Ok(tally)
}

// Reads until the buffer is full or the input is at its end, and returns how many bytes it put at the start of the buffer.
// A loop of its own: std's `read_to_end` needs a Vec, `read_exact` fails at the end of a shorter file, and no clause of `copy` says
// that what a file gave is no longer than the buffer.
fn read_full<R: Read>(from: &mut R, buf: &mut [u8]) -> io::Result<usize>
    ensures filled { IfOk result (λ n. n ≤ length buf.new) }
    ensures failed { OnErr result (length buf.new ≡ length buf.old) }
{
    let mut done = 0;
    while done < buf.len() {
        let n = from.read(&mut buf[done..])?;
        if n == 0 {
            break;
        }
        done += n;
    }
    Ok(done)
}

// The questions of one file.
fn run<P: Print, R: Read>(rt: &P, file: &mut R) -> io::Result<()> {
    let mut text = [0; MOST_TEXT];
    let mut buffer = Buffer::new();
    let n = read_full(file, &mut text)?;
    ask_all(rt, &text[..n], &mut buffer)?.print(rt)
}

fn main(rt: HostRuntime) -> io::Result<()> {
    files::each(&rt, &rt.stderr(), |file| run(&rt, file))
}
