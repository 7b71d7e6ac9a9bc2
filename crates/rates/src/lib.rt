// The seconds of a stick at a melt rate: those of a file's stick are read off the printed sheet, those of any length are worked out.
#![tactic(auto)]

mod table;

ghost use Rattle.std.specs.Prelude.{◌≡◌, ◌≤◌};
ghost use Rattle.model.specs.Limits.{min_rate, max_rate, file_stick};
ghost use Rattle.model.specs.Sections.{length_seconds, rate_seconds};
ghost use Rattle.model.specs.Sheets.{sheet_text, table_text};
ghost use Rattle.rates.specs.Sheet.{RateSheet};

use crate::table::RATE_SECONDS;
use model::{MAX_RATE, MILLIMETRE_SECONDS, MIN_RATE};

// The number of rates on the sheet.
pub const RATES: usize = (MAX_RATE - MIN_RATE + 1) as usize;

// The sheet, an entry for each rate.
#[derive(Clone, Copy)]
pub struct Sheet {
    pub seconds: [u16; RATES],
    pub ghost rate_sheet: { RateSheet seconds },
}

impl Sheet {
    // "600,000 / r rounded up" for a melt rate, off the sheet.
    pub fn rate_seconds(&self, rate: u32) -> u16
        requires { (min_rate ≤ rate) × (rate ≤ max_rate) }
        ensures { result ≡ rate_seconds rate }
    {
        rate_seconds(&self.seconds, rate)
    }
}

// The printed sheet. Whoever reads many rates takes it once: a constant is copied where it is used.
pub fn rate_sheet() -> Sheet
    ensures printed { table_text result.seconds ≡ sheet_text file_stick }
{
    Sheet {
        seconds: RATE_SECONDS,
    }
}

// "600,000 / r rounded up" for a melt rate, off the sheet's entries.
pub fn rate_seconds(sheet: &[u16; RATES], rate: u32) -> u16
    requires { (RateSheet sheet.now) × (min_rate ≤ rate) × (rate ≤ max_rate) }
    ensures { result ≡ rate_seconds rate }
{
    sheet[(rate - MIN_RATE) as usize]
}

// "600 × length / rate rounded up", for a stick of so many millimetres at a melt rate.
pub fn length_seconds(mm: u32, rate: u32) -> u64
    requires { 1 ≤ rate }
    ensures { result ≡ length_seconds mm rate }
{
    (MILLIMETRE_SECONDS * u64::from(mm)).div_ceil(rate.into())
}
