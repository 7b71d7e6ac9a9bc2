// Messages on standard error: a line says what failed, and why.
ghost use Rattle.std.specs.Prelude.{ℕ, List, ◌++◌, IsTrue};
ghost use Rattle.std.specs.Io.KnownBytes.{Appends};
ghost use Rattle.model.specs.Lines.{codes};
ghost use Rattle.printing.specs.Told.{AppendsSome, AppendsReason};

use std::io::{Cursor, Error, Write};
use std::str;

// Room for what the system says of a failure.
const REASON: usize = 256;

// Writes a text to standard error, and answers whether all of it is there. Where it is not, nobody can be told.
pub fn complain<W: Write>(messages: &mut W, text: &[u8]) -> bool
    ensures { IsTrue result → Appends (W.contents messages.old) (W.contents messages.new) text.now }
{
    messages.write_all(text).is_ok()
}

// Writes why a call failed, in the words of the system: the number that the library puts after them is left out.
fn complain_why<W: Write>(messages: &mut W, error: &Error) -> bool
    ensures { IsTrue result → AppendsSome (W.contents messages.old) (W.contents messages.new) }
{
    let mut page = Cursor::new([0u8; REASON]);
    let _ = write!(page, "{error}");
    let n = REASON.min(page.position() as usize);
    let text = str::from_utf8(&page.get_ref()[..n]).unwrap_or("");
    let words = text
        .split_once(" (os error ")
        .map_or(text, |(words, _)| words);
    complain(messages, words.as_bytes())
}

// Writes the end of a line to standard error, a name, and why a call on it failed, and answers whether all of it is there.
pub fn complain_of<W: Write>(messages: &mut W, name: &[u8], error: &Error) -> bool
    ensures { IsTrue result → AppendsReason (W.contents messages.old) (W.contents messages.new) (name.now ++ codes ": ") }
{
    let named = complain(messages, name);
    let parted = complain(messages, b": ");
    let told = complain_why(messages, error);
    let ended = complain(messages, b"\n");
    named && parted && told && ended
}
