// The melt sheets: for each stick length the seconds of each melt rate.
ghost use Rattle.std.specs.Prelude.{◌≡◌, ◌≤◌, length, take};
ghost use Rattle.model.specs.Buffers.{Holds};
ghost use Rattle.model.specs.Sections.{length_seconds};
ghost use Rattle.model.specs.Sheets.{rate_line, sheet_text, sheets_to, all_sheets};
ghost use Rattle.writing.specs.Pages.{Puts};

use crate::decimals::{put_next, put_number};
use model::{MAX_RATE, MIN_RATE, STICK_LENGTHS, STICKS};
use rates::{RATES, length_seconds};
use writing::page::Page;

// The longest line of a sheet, and room for all sheets.
const RATE_MOST: usize = 11;

pub const SHEETS_ROOM: usize = RATE_MOST * RATES * STICKS;

// Puts the line of a rate: the rate and the seconds of a stick of `mm` millimetres.
fn put_rate(page: &mut Page<'_>, mm: u32, rate: u32)
    requires { 1 ≤ rate }
    ensures { Puts page.old page.new (rate_line rate (length_seconds mm rate)) }
{
    put_number(page, rate.into());
    put_next(page, length_seconds(mm, rate));
    page.put(b"\n");
}

// Puts the sheet of a stick length: rates rise.
fn put_sheet(page: &mut Page<'_>, mm: u32)
    ensures { Puts page.old page.new (sheet_text mm) }
{
    for rate in MIN_RATE..=MAX_RATE {
        put_rate(page, mm, rate);
    }
}

// Puts the sheets of these stick lengths, one after the other.
fn put_sheets(page: &mut Page<'_>, lengths: &[u32])
    ensures { Puts page.old page.new (sheets_to lengths.now (length lengths.now)) }
{
    for &mm in lengths {
        put_sheet(page, mm);
    }
}

// Puts all sheets at the front of `out`.
pub fn sheets_text(out: &mut [u8; SHEETS_ROOM]) -> usize
    ensures holds { Holds out.old out.new result all_sheets }
    ensures whole { take result out.new ≡ all_sheets }
{
    let mut page = Page::new(out);
    put_sheets(&mut page, &STICK_LENGTHS);
    page.len()
}
