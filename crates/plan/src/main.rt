// The program `plan`: reads a problem file from standard input, runs up to 1,000,000 rounds, and prints the plan, a line for each
// state of the last walk, by state number. With `--finish` the run goes on to the tick. With two names it also writes the tables of the run
// to files of these names; names that cannot take them are refused before the run.
#![tactic(auto)]

ghost use Rattle.std.specs.Prelude.{◌≡◌, ℕ, ◌≤◌, List, ◌++◌, length, take};
ghost use Rattle.model.specs.Buffers.{ReadOf};
ghost use Rattle.model.specs.Lines.{codes};
ghost use Rattle.plan.specs.declared.TheConstants.{PART};
ghost use Rattle.plan.specs.Names.{name_most, Named, clashing, takes, clears, Shows};

use model::{Kind, MAX_STATES, NO_PICK, PLAN_HOLDS};
use printing::messages::complain;
use printing::table_files::{
    PICK_BYTES, PICKS_ROOM, VALUE_BYTES, VALUES_ROOM, put_picks, put_values,
};
use programs::checked::states_in;
use programs::files::{
    NAME, Program, Told, are_names, arg_count, argument, open_named, path_of, read_whole,
};
use programs::{PAGE, Planned, front};
use std::fs::{OpenFile, OpenOptions};
use std::io::{ErrorKind, Read, Seek, Write};
use std::marker::Model;
use std::rt::{Env, Files};
use std::{fs, io};

// One byte more than any table has: a value has more of them than a pick.
const LOOK: usize = VALUES_ROOM + 1;

// Room for the longest argument that is read, and for `.part` after it.
const PART: usize = NAME + 5;

// Writes all of `bytes` to a file that was opened, and closes it. Closing tells nothing, so that what it could tell is asked for before.
fn write_closing<F: Write + OpenFile + Drop>(mut file: F, bytes: &[u8]) -> io::Result<()> {
    file.write_all(bytes)?;
    file.sync_all()
}

// Removes a file, where it is there.
fn remove<F: Files>(rt: &F, name: &[u8]) {
    if let Ok(path) = path_of(name) {
        let _ = fs::remove_file(rt, path);
    }
}

// Gives a file another name.
fn rename<F: Files>(rt: &F, from: &[u8], to: &[u8]) -> io::Result<()> {
    fs::rename(rt, path_of(from)?, path_of(to)?)
}

// What stands under a name: nothing, or a file of so many bytes. An error where it is anything else, as a folder, a pipe or a file that
// may not be written, which says why it cannot be looked into.
type There = io::Result<Option<usize>>;

// A file of which `read` bytes are in `bytes`, as many as there is room for: that shows whether it is just as long as a table, since any
// table has fewer.
fn seen(bytes: &[u8; LOOK], read: usize) -> There
    ensures { (f : List ℕ) → ReadOf f bytes.now read → Shows f result }
{
    Ok(Some(front(bytes, read).len()))
}

// Looks into a file that was opened, as far as tables go: a longer file has `LOOK` bytes. A pipe, which has no position, is no such file.
fn look_into<F: Read + Seek>(file: &mut F) -> There {
    file.stream_position()?;
    let mut bytes = [0u8; LOOK];
    let got = read_whole(file, &mut bytes).map_err(|broken| broken.error);
    let read = got?.len();
    seen(&bytes, read)
}

// Looks at a name. A name of no bytes, which no file can have, is among those where anything else stands.
fn look<F: Files>(rt: &F, name: &[u8]) -> There {
    match open_named(rt, OpenOptions::new().read(true).write(true), name) {
        Ok(mut file) => look_into(&mut file),
        Err(error) if error.kind() == ErrorKind::NotFound && !name.is_empty() => Ok(None),
        Err(error) => Err(error),
    }
}

// Whether a table of so many bytes may take a name: it replaces nothing but a file that is exactly as long. A problem file is longer than
// its tables.
fn may_take(there: There, bytes: usize) -> bool
    ensures { result ≡ takes there bytes }
{
    match there {
        Ok(None) => true,
        Ok(Some(n)) => n == bytes,
        Err(_) => false,
    }
}

// Whether a part file of an earlier run may be removed: one that is whole, or was not begun.
fn may_clear(there: There, bytes: usize) -> bool
    ensures { result ≡ clears there bytes }
{
    match there {
        Ok(None) => true,
        Ok(Some(n)) => n == 0 || n == bytes,
        Err(_) => false,
    }
}

// Says why a table of so many bytes may not take a name.
fn refuse<R, W: Write>(
    program: &mut Program<R, W>,
    name: &[u8],
    there: There,
    bytes: usize,
) -> Result<(), Told> {
    if let Err(error) = there {
        return program.told(name, Err(error));
    }
    let messages = &mut program.messages;
    complain(messages, b"plan: ");
    complain(messages, name);
    complain(
        messages,
        b": is there and is no table of this file, which would have ",
    );
    let _ = write!(messages, "{bytes}");
    complain(messages, b" bytes: it is not replaced\n");
    Err(Told)
}

// The name of a part file.
#[derive(Drop)]
struct PartName {
    bytes: [u8; PART],
    len: usize,
}

impl Model for PartName {
    ghost Value = { List ℕ };

    ghost view = { λ part. take part.len part.bytes };

    ghost invariant = { λ part. part.len ≤ PART };
}

impl PartName {
    fn as_slice(&self) -> &[u8]
        ensures { result.now ≡ self.now }
    {
        &self.bytes[..self.len]
    }
}

// The name of a part file: the table's name and `.part`.
fn part_of(name: &[u8]) -> PartName
    requires { length name.now ≤ name_most }
    ensures { result ≡ name.now ++ codes ".part" }
{
    let mut bytes = [0u8; PART];
    let n = name.len();
    let len = n + 5;
    bytes[..n].copy_from_slice(name);
    bytes[n..len].copy_from_slice(b".part");
    PartName { bytes, len }
}

// A table's file: its name, that of its part file, which it has until it is whole, and how many bytes the table has.
#[derive(Clone, Copy)]
struct Target<'a> {
    name: &'a [u8],
    part: &'a [u8],
    bytes: usize,
}

impl<'a> Target<'a> {
    fn new(name: &'a [u8], part: &'a PartName, bytes: usize) -> Target<'a> {
        Target {
            name,
            part: part.as_slice(),
            bytes,
        }
    }

    // Whether one of two tables would land on the other, or on the other's part file.
    fn clashes(self, other: Target) -> bool
        ensures { result ≡ clashing self.entry.name.now self.entry.part.now other.entry.name.now other.entry.part.now }
    {
        self.name == other.name || self.name == other.part || self.part == other.name
    }

    // Sees to it that the table can take this name and its part file; where not, that is said.
    fn is_free<F: Files, W: Write>(self, program: &mut Program<F, W>) -> Result<(), Told> {
        let there = look(program.rt, self.name);
        if !may_take(there, self.bytes) {
            return refuse(program, self.name, there, self.bytes);
        }
        let there = look(program.rt, self.part);
        if !may_clear(there, self.bytes) {
            return refuse(program, self.part, there, self.bytes);
        }
        Ok(())
    }

    // Writes the table to its part file, which must be new. Where that fails it is said, and no part file is left.
    fn write_part<F: Files, W: Write>(
        self,
        program: &mut Program<F, W>,
        bytes: &[u8],
    ) -> Result<(), Told> {
        let rt = program.rt;
        let opened = open_named(
            rt,
            OpenOptions::new().write(true).create_new(true),
            self.part,
        );
        let file = program.told(self.name, opened)?;
        let written = program.told(self.name, write_closing(file, bytes));
        written.inspect_err(|_| self.remove_part(rt))
    }

    // Gives the part file its name. Where that fails it is said, and no part file is left.
    fn place<F: Files, W: Write>(self, program: &mut Program<F, W>) -> Result<(), Told> {
        let rt = program.rt;
        let placed = program.told(self.name, rename(rt, self.part, self.name));
        placed.inspect_err(|_| self.remove_part(rt))
    }

    fn remove_part<F: Files>(self, rt: &F) {
        remove(rt, self.part);
    }
}

// Where the two tables of a run go.
#[derive(Clone, Copy)]
struct Targets<'a> {
    values: Target<'a>,
    picks: Target<'a>,
}

impl Targets<'_> {
    // Whether both names can take their tables while the part files are there, which are empty: neither is a part file in another spelling.
    fn are_apart<F: Files>(self, rt: &F) -> bool {
        may_take(look(rt, self.values.name), self.values.bytes)
            && may_take(look(rt, self.picks.name), self.picks.bytes)
    }

    // Sees to it that both part files can be made, which is tried with empty ones; where one cannot, that is said. Those of an earlier run
    // are removed.
    fn can_be_made<F: Files, W: Write>(self, program: &mut Program<F, W>) -> Result<(), Told> {
        let rt = program.rt;
        self.remove_parts(rt);
        self.values.write_part(program, b"")?;
        let made = self.picks.write_part(program, b"");
        made.inspect_err(|_| self.values.remove_part(rt))?;
        let is_apart = self.are_apart(rt);
        self.remove_parts(rt);
        if !is_apart {
            return need_two(program);
        }
        Ok(())
    }

    // Sees to it that two names can take these tables; where not, that is said, and no file is lost but part files of an earlier run.
    fn are_ready<F: Files, W: Write>(self, program: &mut Program<F, W>) -> Result<(), Told> {
        if self.values.clashes(self.picks) {
            return need_two(program);
        }
        self.values.is_free(program)?;
        self.picks.is_free(program)?;
        self.can_be_made(program)
    }

    // Writes both part files, and gives them their names once both are whole. The names are looked at once more, since a run may take long.
    fn write<F: Files, W: Write>(
        self,
        program: &mut Program<F, W>,
        values: &[u8],
        picks: &[u8],
    ) -> Result<(), Told> {
        let rt = program.rt;
        self.are_ready(program)?;
        self.values.write_part(program, values)?;
        let written = self.picks.write_part(program, picks);
        written.inspect_err(|_| self.values.remove_part(rt))?;
        let placed = self.values.place(program);
        placed.inspect_err(|_| self.picks.remove_part(rt))?;
        self.picks.place(program)
    }

    fn remove_parts<F: Files>(self, rt: &F) {
        self.values.remove_part(rt);
        self.picks.remove_part(rt);
    }
}

// Says that the two names would be those of one file.
fn need_two<R, W: Write>(program: &mut Program<R, W>) -> Result<(), Told> {
    complain(
        &mut program.messages,
        b"plan: VALUES and PICKS need two names\n",
    );
    Err(Told)
}

// The two names that a run is given, for its values and for its picks.
#[derive(Clone, Copy)]
struct Names<'a> {
    values: &'a [u8],
    picks: &'a [u8],
    ghost named: { Named values.now picks.now },
}

impl Names<'_> {
    // Sees to it that the names can take the tables of a file; where not, that is said. A file that is refused has none.
    fn can_save<F: Files, W: Write>(
        self,
        program: &mut Program<F, W>,
        file: &[u8],
    ) -> Result<(), Told> {
        let states = states_in(file);
        if states == 0 {
            return Ok(());
        }
        let value_part = part_of(self.values);
        let pick_part = part_of(self.picks);
        let targets = Targets {
            values: Target::new(self.values, &value_part, VALUE_BYTES * states),
            picks: Target::new(self.picks, &pick_part, PICK_BYTES * states),
        };
        targets.are_ready(program)
    }

    // Writes the tables of a run.
    fn save<F: Files, W: Write>(
        self,
        program: &mut Program<F, W>,
        values: &[u32],
        picks: &[u16],
    ) -> Result<(), Told> {
        let mut value_bytes = [0u8; VALUES_ROOM];
        let n = put_values(values, &mut value_bytes);
        let mut pick_bytes = [0u8; PICKS_ROOM];
        let m = put_picks(picks, &mut pick_bytes);
        let value_part = part_of(self.values);
        let pick_part = part_of(self.picks);
        let targets = Targets {
            values: Target::new(self.values, &value_part, n),
            picks: Target::new(self.picks, &pick_part, m),
        };
        targets.write(program, &value_bytes[..n], &pick_bytes[..m])
    }
}

// Plans the input by a run of some kind, and saves its values and picks under two names where there are any. One byte more than `plan` holds
// is read, which is enough to refuse the input (`Plans`).
fn plan_input<R: Files + Input + Print, W: Write>(
    program: &mut Program<R, W>,
    kind: Kind,
    names: Option<Names>,
) -> Result<(), Told> {
    let mut page = [0u8; PAGE];
    let got = read_whole(&mut program.rt.reader(), &mut page).map_err(|broken| broken.error);
    let input = program.told(b"standard input", got)?;
    let read = input.len();
    if let Some(names) = names
        && read <= PLAN_HOLDS
    {
        names.can_save(program, input)?;
    }
    let mut values = [0u32; MAX_STATES];
    let mut picks = [NO_PICK; MAX_STATES];
    let Planned { length, states } = programs::plan(kind, &mut page, read, &mut values, &mut picks);
    let printed = program.rt.write_all(&page[..length]);
    let _ = program.told(b"standard output", printed);
    if let Some(names) = names
        && states != 0
    {
        names.save(program, &values[..states], &picks[..states])?;
    }
    Ok(())
}

// Plans with the two names that were given, arguments `i` and `j`. They are looked at before the run.
fn plan_named<R: Env + Files + Input + Print, W: Write>(
    program: &mut Program<R, W>,
    kind: Kind,
    i: usize,
    j: usize,
) -> Result<(), Told> {
    let rt = program.rt;
    let mut first = [0u8; NAME];
    let values = program.told(b"VALUES", argument(rt, i, &mut first))?;
    let mut second = [0u8; NAME];
    let picks = program.told(b"PICKS", argument(rt, j, &mut second))?;
    plan_input(program, kind, Some(Names { values, picks }))
}

// Plans by a run of some kind. What it is given besides, from argument `at` on, is nothing or two names.
fn plan_by<R: Env + Files + Input + Print, W: Write>(
    program: &mut Program<R, W>,
    kind: Kind,
    at: usize,
    count: usize,
) -> Result<(), Told> {
    if count <= at {
        return plan_input(program, kind, None);
    }
    if count - at == 2 && are_names(program.rt, at, count) {
        return plan_named(program, kind, at, at + 1);
    }
    complain(
        &mut program.messages,
        b"plan: give no names, or two: VALUES PICKS, after --finish where the run shall finish\n",
    );
    Err(Told)
}

// Whether the first argument is `--finish`.
fn is_finishing<E: Env>(rt: &E) -> bool {
    let mut word = [0u8; 8];
    matches!(argument(rt, 1, &mut word), Ok(b"--finish"))
}

fn main(rt: HostRuntime) {
    let count = arg_count(&rt);
    let (kind, at) = if is_finishing(&rt) {
        (Kind::Finishing, 2)
    } else {
        (Kind::Plain, 1)
    };
    let mut program = Program {
        name: b"plan",
        rt: &rt,
        messages: rt.stderr(),
    };
    let _ = plan_by(&mut program, kind, at, count);
}
