// The arguments, reading files, and saying on standard error what failed.
ghost use Rattle.std.specs.Prelude.{◌+◌, ◌≤◌, ◌≡◌, ◌++◌, IfOk, IsErr, IsTrue, MatchResult, length};
ghost use Rattle.std.specs.Str.{IsUtf8};
ghost use Rattle.model.specs.Lines.{codes};
ghost use Rattle.printing.specs.Told.{AppendsReason};

use printing::messages::{complain, complain_of};
use std::env::FillError;
use std::fs::OpenOptions;
use std::io::{Error, Read, Write};
use std::rt::{Env, Files};
use std::{io, str};

// Room for the longest argument that is read.
pub const NAME: usize = 4096;

// The system's numbers for what is wrong with an argument or a name: there is none, it is too long, or it is not UTF-8, which a path is.
const MISSING: i32 = 22;

const TOO_LONG: i32 = 36;

const NO_TEXT: i32 = 84;

// A read that failed: how many bytes came before, and why.
#[derive(Clone, Copy)]
pub struct Broken {
    pub length: usize,
    pub error: Error,
}

// Where a call before the first read failed nothing came.
impl From<Error> for Broken {
    ghost from_gives = { λ error broken. broken ≡ record { length = 0; error = error } };

    fn from(error: Error) -> Broken {
        Broken { length: 0, error }
    }
}

// Reads until `buf` is full or the input ends, and answers what was read. The library's `read_exact` fails where the input ends before.
pub fn read_whole<'a, R: Read>(input: &mut R, buf: &'a mut [u8]) -> Result<&'a [u8], Broken>
    ensures { MatchResult result (λ part. length part.now ≤ length buf.old) (λ broken. broken.length ≤ length buf.old) }
{
    let mut n = 0;
    while n < buf.len() {
        match input.read(&mut buf[n..]) {
            Ok(0) => break,
            Ok(more) => n += more,
            Err(error) => return Err(Broken { length: n, error }),
        }
    }
    Ok(&buf[..n])
}

// Writes a line to standard error, the program, the name, and why a call failed, and answers whether all of it is there.
pub fn fail<W: Write>(messages: &mut W, program: &[u8], name: &[u8], error: &Error) -> bool
    ensures { IsTrue result → AppendsReason
        (W.contents messages.old) (W.contents messages.new) (program.now ++ codes ": " ++ name.now ++ codes ": ") }
{
    let begun = complain(messages, program);
    let parted = complain(messages, b": ");
    let told = complain_of(messages, name, error);
    begun && parted && told
}

// Puts argument `i` at the front of `name`, and answers it, or says that it is missing or too long.
pub fn argument<'a, E: Env>(rt: &E, i: usize, name: &'a mut [u8]) -> io::Result<&'a [u8]>
    ensures { IfOk result (λ part. length part.now ≤ length name.old) }
{
    match rt.arg(i, name) {
        Ok(n) => Ok(&name[..n]),
        Err(FillError::NotPresent) => Err(Error::from_raw_os_error(MISSING)),
        Err(FillError::TooLong) => Err(Error::from_raw_os_error(TOO_LONG)),
    }
}

// The path that a name is, where it is UTF-8.
pub fn path_of(name: &[u8]) -> io::Result<&str>
    ensures { MatchResult result (λ path. path.now ≡ name.now) (λ _. IsUtf8 name.now → ⊥) }
{
    str::from_utf8(name).map_err(|_| Error::from_raw_os_error(NO_TEXT))
}

// Opens the file of a name, as `how` says: one that is no text is refused. What is there no contract can say.
pub fn open_named<F: Files>(rt: &F, how: &OpenOptions, name: &[u8]) -> io::Result<F::File>
    ensures { IfOk result (λ _. IsUtf8 name.now) }
{
    let path = path_of(name)?;
    how.open(rt, path)
}

// Reads the file of a name, as far as `buf` has room.
fn read_file<'a, F: Files>(rt: &F, name: &[u8], buf: &'a mut [u8]) -> Result<&'a [u8], Broken>
    ensures { MatchResult result (λ part. length part.now ≤ length buf.old) (λ broken. broken.length ≤ length buf.old) }
{
    let mut file = open_named(rt, OpenOptions::new().read(true), name)?;
    read_whole(&mut file, buf)
}

// What failed was said on standard error: nothing is left to say of it.
#[derive(Clone, Copy)]
pub struct Told;

// A program at work: its name, the system, and standard error, where it says what failed.
#[derive(Drop)]
pub struct Program<'a, R, W> {
    pub name: &'a [u8],
    pub rt: &'a R,
    pub messages: W,
}

impl<R, W: Write> Program<'_, R, W> {
    // What a call on a name gave. Where it failed that is said, and otherwise nothing.
    pub fn told<T>(&mut self, name: &[u8], got: io::Result<T>) -> Result<T, Told>
        ensures value { MatchResult got (λ x. result ≡ Ok x) (λ _. IsErr result) }
        ensures silent { IfOk got (λ _. W.contents self.new.messages ≡ W.contents self.old.messages) }
    {
        if let Err(error) = &got {
            fail(&mut self.messages, self.name, name, error);
        }
        got.map_err(|_| Told)
    }

    // Reads the file that argument `i` names, as far as `buf` has room. Where that fails it is said.
    pub fn read_named<'b>(&mut self, i: usize, buf: &'b mut [u8]) -> Result<&'b [u8], Broken>
    where
        R: Env + Files,
        ensures { MatchResult result (λ part. length part.now ≤ length buf.old) (λ broken. broken.length ≤ length buf.old) }
    {
        let mut path = [0u8; NAME];
        let name = match argument(self.rt, i, &mut path) {
            Ok(name) => name,
            Err(error) => {
                fail(&mut self.messages, self.name, &path, &error);
                return Err(error.into());
            }
        };
        let got = read_file(self.rt, name, buf);
        if let Err(broken) = &got {
            fail(&mut self.messages, self.name, name, &broken.error);
        }
        got
    }
}

// Whether argument `i` begins with `-`. A longer argument than the buffer leaves its first byte there.
fn is_dashed<E: Env>(rt: &E, i: usize) -> bool {
    let mut front = [0u8; 1];
    let _ = rt.arg(i, &mut front);
    front[0] == b'-'
}

// Whether the arguments from `first` on, of `count` with the program's own name, may be names: no name begins with `-`, since it may be
// meant otherwise.
pub fn are_names<E: Env>(rt: &E, first: usize, count: usize) -> bool
    ensures { count ≤ first → IsTrue result }
{
    (first..count).all(|i| !is_dashed(rt, i))
}

// Whether there is an argument `i`.
fn is_given<E: Env>(rt: &E, i: usize) -> bool {
    let mut front = [0u8; 1];
    !matches!(rt.arg(i, &mut front), Err(FillError::NotPresent))
}

// How many arguments there are, with the program's own name. No contract can say what a program is given.
pub fn arg_count<E: Env>(rt: &E) -> usize {
    (0..usize::MAX).take_while(|i| is_given(rt, *i)).count()
}
