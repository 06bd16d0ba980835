// Where a run has come to, with the bytes that it holds and the table that it reads by; and its steps.
ghost use Rattle.std.specs.Prelude.{◌≡◌, ◌↔◌, ◌⊎◌, ◌≤◌, IsTrue, OnErr, OnOk};
ghost use Rattle.lines.specs.Ends.{lf};
ghost use Rattle.session.specs.declared.TheConstants.{MOST_LINES};
ghost use Rattle.session.specs.declared.state.Part.TheVariants.{SecondLine, Lines, Over};

use crate::MOST_LINES;
use crate::buffer::Buffer;
use reader::Answer;
use refusal::{CardLine, Refusal};
use std::io;
use std::io::{Read, Write};

// Words for the table: enough for every pattern of 31 steps, which has 32 states and at most 992 rows.
const ROOM: usize = compiler::ROOM;

// The word of a table that holds K, the number of its variables.
const VARS: usize = 1;

// Bytes of a line that are held: one more than a line may have, so that a line that is too long is seen to be.
const HELD: usize = reader::MOST_BYTES + 1;

// Bytes of a piece of input, and of answers that wait to be written.
pub const PIECE: usize = 65536;

// What the next byte of input belongs to: one of the two lines of the card, or the lines after it; or the run is over.
#[derive(Clone, Copy, PartialEq, Eq)]
pub enum Part {
    FirstLine,
    SecondLine,
    Lines,
    Over,
}

// line: the number of the next line, counted from 1. held: what an earlier piece of input had of the line, or of the card.
// out: what waits to be written. room: the words of the table.
// Each step that answers says that nothing is held after it: so no byte of a card or a line counts for the next line.
#[derive(Drop)]
pub struct Run {
    part: Part,
    line: u32,
    held: Buffer<HELD>,
    out: Buffer<PIECE>,
    room: [u32; ROOM],
    ghost counted: { line ≤ MOST_LINES },
}

impl Run {
    pub fn new() -> Self {
        Run {
            part: Part::FirstLine,
            line: 1,
            held: Buffer::new(),
            out: Buffer::new(),
            room: [0; ROOM],
        }
    }

    pub fn is_over(&self) -> bool
        ensures { IsTrue result ↔ self.now.part ≡ Part.Over }
    {
        self.part == Part::Over
    }

    // Prints the answer to a line, of which nothing is held any more.
    fn answer<W: Write>(&mut self, found: Answer, to: &mut W) -> io::Result<()>
        ensures answered { OnOk result ((self.new.held.len ≡ 0) × (self.new.held.bytes ≡ self.old.held.bytes)) }
        ensures failed { OnErr result (self.new ≡ self.old) }
        ensures same { self.new.room ≡ self.old.room }
    {
        self.out.spare(to)?;
        self.out.print(self.line, self.room[VARS], found);
        self.held.clear();
        if self.line == MOST_LINES {
            self.part = Part::Over;
        } else {
            self.line += 1;
        }
        Ok(())
    }

    // Reads and answers the line that is held.
    fn held_line<W: Write>(&mut self, to: &mut W) -> io::Result<()>
        ensures answered { OnOk result ((self.new.held.len ≡ 0) × (self.new.held.bytes ≡ self.old.held.bytes)) }
        ensures failed { OnErr result (self.new ≡ self.old) }
        ensures same { self.new.room ≡ self.old.room }
    {
        let found = reader::best_reading(&self.room, self.held.filled());
        self.answer(found, to)
    }

    // Prints that the card is refused, which ends the run.
    fn refuse(&mut self, refusal: Refusal)
        ensures over { self.new.part ≡ Over }
        ensures answered { (self.new.held.len ≡ 0) × (self.new.held.bytes ≡ self.old.held.bytes) }
        ensures same { (self.new.room ≡ self.old.room) × (self.new.line ≡ self.old.line) }
    {
        self.out.print(0, 0, refusal.into());
        self.held.clear();
        self.part = Part::Over;
    }

    // Line 1 of the card is held: a wrong one is refused with no wait for line 2.
    fn first_line(&mut self)
        ensures goes_on { self.new.part ≡ SecondLine → (self.new.held ≡ self.old.held) × (self.new.out ≡ self.old.out) }
        ensures same { (self.new.room ≡ self.old.room) × (self.new.line ≡ self.old.line) × (self.new.held.bytes ≡ self.old.held.bytes) }
    {
        match card::form_of(self.held.filled()) {
            Err(line @ CardLine::First) => self.refuse(line.into()),
            _ => self.part = Part::SecondLine,
        }
    }

    // The card is held, whole or as far as the input went.
    fn whole_card(&mut self)
        ensures answered { self.new.held.len ≡ 0 }
        ensures goes_on { self.new.part ≡ Lines → self.new.out ≡ self.old.out }
        ensures same { (self.new.line ≡ self.old.line) × (self.new.held.bytes ≡ self.old.held.bytes) }
    {
        match compiler::compile_card(self.held.filled(), &mut self.room) {
            Ok(_words) => {
                self.held.clear();
                self.part = Part::Lines;
            }
            Err(refusal) => self.refuse(refusal),
        }
    }

    // A line has ended: `end` is its last part, or the whole of it.
    fn end_line<W: Write>(&mut self, end: &[u8], to: &mut W) -> io::Result<()>
        ensures answered { OnOk result (self.old.part ≡ Lines → (self.new.held.len ≡ 0) × (self.new.room ≡ self.old.room)) }
        ensures failed { OnErr result ((self.new.out ≡ self.old.out) × (self.new.part ≡ self.old.part)) }
        ensures failed_same { OnErr result ((self.new.room ≡ self.old.room) × (self.new.line ≡ self.old.line)) }
    {
        match self.part {
            Part::FirstLine => {
                self.held.keep_line(end);
                self.first_line();
            }
            Part::SecondLine => {
                self.held.keep_line(end);
                self.whole_card();
            }
            Part::Lines if self.held.is_empty() => {
                let found = reader::best_reading(&self.room, end);
                self.answer(found, to)?;
            }
            Part::Lines => {
                self.held.keep(end);
                self.held_line(to)?;
            }
            Part::Over => (),
        }
        Ok(())
    }

    // One piece of input, line by line; what it has of a line that it does not end is held. The closure has a clause,
    // since its words say which byte std's `split_inclusive` cuts after; `ended` says that it is the one taken off.
    // After an error the lines before it are answered, or wait in `out`; no clause says which those are, since `serve` ends there.
    fn feed<W: Write>(&mut self, piece: &[u8], to: &mut W) -> io::Result<()> {
        for line in piece.split_inclusive(
            |b|
                ensures { IsTrue result ↔ b.now ≡ lf }
            { *b == lines::LF },
        ) {
            if self.is_over() {
                break;
            }
            match lines::ended(line) {
                Some(end) => self.end_line(end, to)?,
                None => self.held.keep(line),
            }
        }
        Ok(())
    }

    // The input is at its end: a card that is not whole is refused, and a last piece of a line counts if it is not empty.
    fn finish<W: Write>(&mut self, to: &mut W) -> io::Result<()>
        ensures answered { OnOk result ((self.new.part ≡ Over) × (self.new.held.len ≡ 0)) }
        ensures failed { OnErr result (self.new ≡ self.old) }
        ensures same { self.new.held.bytes ≡ self.old.held.bytes }
        ensures by_table { (self.old.part ≡ Lines) ⊎ (self.old.part ≡ Over) → self.new.room ≡ self.old.room }
    {
        match self.part {
            Part::FirstLine | Part::SecondLine => self.whole_card(),
            Part::Lines if !self.held.is_empty() => self.held_line(to)?,
            Part::Lines | Part::Over => self.held.clear(),
        }
        self.part = Part::Over;
        Ok(())
    }

    // Waits for input once: a piece of it, or its end. The error of a read or a write is handed back, and no other comes.
    pub fn turn<R: Read, W: Write>(
        &mut self,
        piece: &mut [u8; PIECE],
        from: &mut R,
        to: &mut W,
    ) -> io::Result<()>
        ensures { OnOk result (self.new.out.len ≡ 0) }
    {
        match from.read(piece)? {
            0 => self.finish(to)?,
            n => self.feed(&piece[..n], to)?,
        }
        self.out.flush(to)
    }
}
