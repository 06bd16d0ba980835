// Bytes with a length beside them: the first `len` count, and what is put goes after those.
ghost use Rattle.std.specs.Prelude.{◌≡◌, ◌↔◌, ◌<◌, ◌≤◌, IsTrue, take, OnErr, OnOk};
ghost use Rattle.std.specs.Io.KnownBytes.{Appends};
ghost use Rattle.printing.specs.Puts.{Puts};
ghost use Rattle.printing.specs.Text.{printed};

use reader::Answer;
use std::io;
use std::io::Write;

#[derive(Drop)]
pub struct Buffer<const N: usize> {
    bytes: [u8; N],
    len: usize,
    ghost fits: { len ≤ N },
}

impl<const N: usize> Buffer<N> {
    pub fn new() -> Self
        ensures { result.len ≡ 0 }
    {
        Buffer {
            bytes: [0; N],
            len: 0,
        }
    }

    pub fn is_empty(&self) -> bool
        ensures { IsTrue result ↔ self.now.len ≡ 0 }
    {
        self.len == 0
    }

    pub fn filled(&self) -> &[u8]
        ensures { result.now ≡ take self.now.len self.now.bytes }
    {
        &self.bytes[..self.len]
    }

    pub fn clear(&mut self)
        ensures { (self.new.len ≡ 0) × (self.new.bytes ≡ self.old.bytes) }
    {
        self.len = 0;
    }

    // Puts the text, as much of it as there is room for. Not by printing's `Page`, which borrows a slice: one would be made and taken
    // apart for the one call of `lines::keep` that both are.
    pub fn keep(&mut self, text: &[u8])
        ensures { Puts self.old.bytes self.old.len text.now self.new.bytes self.new.len }
    {
        let at = self.len;
        self.len = lines::keep(&mut self.bytes, at, text, 0, text.len());
    }

    // Puts the text and LF, over the last byte where there is no more room: the line is too long anyway.
    pub fn keep_line(&mut self, text: &[u8])
        requires { 0 < N }
    {
        self.keep(text);
        let at = self.len.min(N - 1);
        self.bytes[at] = lines::LF;
        self.len = at + 1;
    }

    // Puts what is printed of an answer.
    pub fn print(&mut self, line: u32, vars: u32, found: Answer)
        ensures { Puts self.old.bytes self.old.len (printed line vars found) self.new.bytes self.new.len }
    {
        let at = self.len;
        self.len = printing::answer(&mut self.bytes, at, line, vars, found);
    }

    // Writes what is there. Where that fails nobody reads it any more, and it is left as it was; how much of it the writer has taken,
    // std does not say.
    pub fn flush<W: Write>(&mut self, to: &mut W) -> io::Result<()>
        ensures flushed { OnOk result (self.new.len ≡ 0) }
        ensures written { OnOk result (Appends (W.contents to.old) (W.contents to.new) (take self.old.len self.old.bytes)) }
        ensures failed { OnErr result (self.new ≡ self.old) }
        ensures same { self.new.bytes ≡ self.old.bytes }
    {
        to.write_all(self.filled())?;
        to.flush()?;
        self.clear();
        Ok(())
    }

    // The same where an answer might not fit any more.
    pub fn spare<W: Write>(&mut self, to: &mut W) -> io::Result<()>
        ensures failed { OnErr result (self.new ≡ self.old) }
        ensures same { self.new.bytes ≡ self.old.bytes }
    {
        if N - self.len < printing::MOST {
            return self.flush(to);
        }
        Ok(())
    }
}
