// Putting numbers in decimal.
ghost use Rattle.model.specs.Lines.{decimal, blank_number, blank_signed};
ghost use Rattle.writing.specs.Pages.{Puts};

use itoa::Buffer;
use writing::page::Page;

// Puts a number in decimal.
pub fn put_number(page: &mut Page<'_>, n: u64)
    ensures { Puts page.old page.new (decimal n) }
{
    page.put(Buffer::new().format(n).as_bytes());
}

// Puts a blank and a number.
pub fn put_next(page: &mut Page<'_>, n: u64)
    ensures { Puts page.old page.new (blank_number n) }
{
    page.put(b" ");
    put_number(page, n);
}

// Puts a blank and a signed number: a minus sign before the digits where it is below 0.
pub fn put_signed(page: &mut Page<'_>, x: i64)
    ensures { Puts page.old page.new (blank_signed x) }
{
    if x < 0 {
        page.put(b" -");
        put_number(page, x.unsigned_abs());
        return;
    }
    put_next(page, x.unsigned_abs());
}
