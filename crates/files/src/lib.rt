// Files that a program is given by name: the work on each of them, the line that names one, opening it, and saying why it cannot be opened.
// Nothing is allocated. An error is one of opening, reading or writing; what a file or a terminal takes, no contract can say.
// `each` holds 4,096 bytes of stack, beside what the work takes.
#![tactic(auto)]

ghost use Rattle.std.specs.Prelude.{OnOk};
ghost use Rattle.files.specs.Work.{AllOk};

use std::env::FillError;
use std::io::{Print, Write};
use std::rt::{Env, Files};
use std::{fs, io, str};

// Bytes of an argument that are held. A longer one counts as empty.
pub const LONGEST: usize = 4096;

// More than the text of any error.
const MOST_TEXT: usize = 512;

// What the system says of an error, without the number that std adds; nothing where the error is not the system's.
fn system_text<'a>(e: &io::Error, text: &'a mut [u8]) -> Option<&'a str> {
    e.raw_os_error()?;
    write!(&mut text[..], "{e}").ok()?;
    let (words, _) = str::from_utf8(text).ok()?.split_once(" (os error ")?;
    Some(words)
}

// Names on standard error a file that cannot be opened.
pub fn refuse<E: Print>(errors: &E, path: &[u8], e: &io::Error) -> io::Result<()> {
    let mut text = [0u8; MOST_TEXT];
    errors.write_all(path)?;
    match system_text(e, &mut text) {
        Some(words) => println!(errors; ": {words}"),
        None => println!(errors; ": {e}"),
    }
}

// std opens only a name that is text.
pub fn open<R: Files>(rt: &R, path: &[u8]) -> io::Result<R::File> {
    match str::from_utf8(path) {
        Ok(path) => fs::open(rt, path),
        Err(_) => Err(io::Error::new(io::ErrorKind::InvalidInput, "the name is not UTF-8")),
    }
}

// The line that stands before what is printed for a file.
pub fn announce<P: Print>(out: &P, path: &[u8]) -> io::Result<()> {
    out.write_all(b"file=")?;
    out.write_all(path)?;
    out.write_all(b"\n")
}

// An argument is asked for by its place, until there is none: std gives them without allocating in no other way. One that is too long
// counts as the empty name, which opens no file: so the program names it, as it always did.
//
// Does `work` on each file that an argument of the program names, in their order. The line with its name stands before what the work
// prints. A file that cannot be opened is named on standard error, and the next one comes; the first error of the work, or of writing
// a name, ends the run.
pub fn each<R, E, F>(rt: &R, errors: &E, mut work: F) -> io::Result<()>
where
    R: Env + Files + Print,
    E: Print,
    F: FnMut(&mut R::File) -> io::Result<()>,
    requires { F.IsAlwaysCallable work }
    ensures { OnOk result ((last : F) × AllOk F.step work last) }
{
    let mut argument = [0u8; LONGEST];
    for i in 1..usize::MAX {
        let path: &[u8] = match rt.arg(i, &mut argument) {
            Ok(n) => &argument[..n],
            Err(FillError::TooLong) => b"",
            Err(FillError::NotPresent) => break,
        };
        announce(rt, path)?;
        match open(rt, path) {
            Ok(mut file) => work(&mut file)?,
            Err(e) => refuse(errors, path, &e)?,
        }
    }
    Ok(())
}
