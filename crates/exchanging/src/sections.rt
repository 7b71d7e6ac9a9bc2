// A section of a set form: the number of its items, and then each of them.
ghost use Rattle.std.specs.Prelude.{ℕ, List, ◌≡◌, ◌++◌, ◌<◌, length};
ghost use Rattle.model.specs.Bytes.{number_bytes};
ghost use Rattle.model.specs.Encoding.{parts_to};
ghost use Rattle.reading.specs.Bounds.{short_bound};
ghost use Rattle.writing.specs.Pages.{Puts, Room};

use writing::page::Page;

// What the items of a section are, and how many.
pub trait Section {
    ghost number: { Self → ℕ };

    ghost text: { Self → ℕ → List ℕ };

    // How many items there are.
    fn count(&self) -> usize
        ensures { (result ≡ number self.now) × (result < short_bound) };

    // Puts item i.
    fn put_item(&self, i: usize, page: &mut Page<'_>)
        requires { (i < number self.now) × Room page.old (length (text self.now i)) }
        ensures { Puts page.old page.new (text self.now i) };
}

// Puts how many items there are, in 2 bytes, and then each.
pub fn put_section<S: Section>(section: &S, page: &mut Page<'_>)
    requires { Room
        page.old
        (length (number_bytes 2 (S.number section.now) ++ parts_to (S.text section.now) (S.number section.now))) }
    ensures { Puts
        page.old page.new
        (number_bytes 2 (S.number section.now) ++ parts_to (S.text section.now) (S.number section.now)) }
{
    let n = section.count();
    page.put_number::<2>(n as u32);
    for i in 0..n {
        section.put_item(i, page);
    }
}
