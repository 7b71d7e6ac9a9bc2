// Table files: values as 32-bit and picks as 16-bit numbers, least byte first, one entry a state.
ghost use Rattle.std.specs.Prelude.{◌≡◌, ℕ, List, ◌++◌, ◌+◌, ◌*◌, ◌≤◌, length, take};
ghost use Rattle.model.specs.Bytes.{number_bytes, u16_at, u32_at};
ghost use Rattle.model.specs.Limits.{max_states};
ghost use Rattle.model.specs.TableFiles.{bytes16, bytes32, entries16, entries32, table_bytes};
ghost use Rattle.model.specs.Buffers.{Holds};
ghost use Rattle.writing.specs.Pages.{Puts};
ghost use Rattle.printing.specs.Entries.{EntryLaws, values_laws, picks_laws, values_room, picks_room, own, all};

use model::MAX_STATES;
use reading::numbers::{u16_at, u32_at};
use writing::page::Page;

// An entry of a table file: it is a number of so many bytes.
pub trait Entry: Copy {
    ghost BYTES: { ℕ };

    ghost ROOM: { ℕ };

    // The number of an entry, and those of a table.
    ghost number: { Self → ℕ };

    ghost numbers: { List Self → List ℕ };

    // The number that starts at a byte, and the entries of a file.
    ghost number_at: { List ℕ → ℕ → ℕ };

    ghost entries: { List ℕ → List ℕ };

    // The bytes of an entry.
    const BYTES: usize;

    // Room for the bytes of a table of as many states as a file can have.
    const ROOM: usize;

    // Puts the bytes of an entry.
    fn put(self, page: &mut Page<'_>)
        ensures { Puts page.old page.new (number_bytes BYTES (number self)) };

    // The entry whose bytes start at a place.
    fn at(bytes: &[u8], place: usize) -> Self
        requires { place + BYTES ≤ length bytes.now }
        ensures { number result ≡ number_at bytes.now place };

    ghost laws: { EntryLaws BYTES ROOM number numbers number_at entries };
}

// A value, 4 bytes.
impl Entry for u32 {
    ghost BYTES = { 4 };

    ghost ROOM = { values_room };

    ghost number = { own };

    ghost numbers = { all };

    ghost number_at = { u32_at };

    ghost entries = { entries32 };

    ghost laws = { values_laws };

    const BYTES: usize = 4;

    const ROOM: usize = 4 * MAX_STATES;

    fn put(self, page: &mut Page<'_>) {
        page.put(&u32::to_le_bytes(self));
    }

    fn at(bytes: &[u8], place: usize) -> u32 {
        u32_at(bytes, place)
    }
}

// A pick, 2 bytes.
impl Entry for u16 {
    ghost BYTES = { 2 };

    ghost ROOM = { picks_room };

    ghost number = { own };

    ghost numbers = { all };

    ghost number_at = { u16_at };

    ghost entries = { entries16 };

    ghost laws = { picks_laws };

    const BYTES: usize = 2;

    const ROOM: usize = 2 * MAX_STATES;

    fn put(self, page: &mut Page<'_>) {
        page.put(&u16::to_le_bytes(self));
    }

    fn at(bytes: &[u8], place: usize) -> u16 {
        u16_at(bytes, place) as u16
    }
}

// The bytes of a value, and of a pick.
pub const VALUE_BYTES: usize = <u32 as Entry>::BYTES;

pub const PICK_BYTES: usize = <u16 as Entry>::BYTES;

// Room for the bytes of a table of values, and of one of picks.
pub const VALUES_ROOM: usize = <u32 as Entry>::ROOM;

pub const PICKS_ROOM: usize = <u16 as Entry>::ROOM;

// Puts the bytes of each entry of a table.
fn put_each<E: Entry>(page: &mut Page<'_>, table: &[E])
    ensures { Puts page.old page.new (table_bytes E.BYTES (E.numbers table.now)) }
{
    for &entry in table {
        entry.put(page);
    }
}

// Puts the bytes of a table at the front of `out`, and answers how many there are. Nothing is cut of a table for whose bytes there is room.
pub fn put_table<E: Entry>(table: &[E], out: &mut [u8]) -> usize
    ensures holds { Holds out.old out.new result (table_bytes E.BYTES (E.numbers table.now)) }
    ensures whole { E.BYTES * length table.now ≤ length out.old →
        take result out.new ≡ table_bytes E.BYTES (E.numbers table.now) }
{
    let mut page = Page::new(out);
    put_each(&mut page, table);
    page.len()
}

// Puts the bytes of a values table at the front of `out`, and answers how many there are. The type of `out` has the room: nothing is cut of a
// table of as many states as a file can have.
pub fn put_values(values: &[u32], out: &mut [u8; VALUES_ROOM]) -> usize
    ensures holds { Holds out.old out.new result (bytes32 values.now) }
    ensures whole { length values.now ≤ max_states → take result out.new ≡ bytes32 values.now }
{
    put_table(values, out)
}

// The same of a picks table.
pub fn put_picks(picks: &[u16], out: &mut [u8; PICKS_ROOM]) -> usize
    ensures holds { Holds out.old out.new result (bytes16 picks.now) }
    ensures whole { length picks.now ≤ max_states → take result out.new ≡ bytes16 picks.now }
{
    put_table(picks, out)
}

// Reads the entries of a table file into the front of `table`, as far as they fit, and answers how many there are.
pub fn table_of<E: Entry>(bytes: &[u8], table: &mut [E]) -> usize
    ensures { Holds (E.numbers table.old) (E.numbers table.new) result (E.entries bytes.now) }
{
    let count = table.len().min(bytes.len() / E::BYTES);
    for i in 0..count {
        table[i] = E::at(bytes, E::BYTES * i);
    }
    count
}
