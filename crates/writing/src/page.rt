// A lent buffer that is written from its front on. Text is put as far as it fits, and numbers where there is room for them; the rest of the
// buffer stays.
ghost use Rattle.std.specs.Prelude.{◌≡◌, ◌≤◌, length};

// The buffer, and how much of it is written.
#[derive(Drop)]
pub struct Page<'a> {
    out: &'a mut [u8],
    at: usize,
    ghost within: { at ≤ length out.now },
}

impl<'a> Page<'a> {
    ghost use Rattle.model.specs.Bytes.{number_bytes};
    ghost use Rattle.writing.specs.Pages.{Puts, Room};

    // A buffer of which nothing is written.
    pub fn new(out: &'a mut [u8]) -> Page<'a>
        ensures same { result.out.ghost_name ≡ out.entry.ghost_name }
        ensures value { result.out.now ≡ out.old }
        ensures empty { result.at ≡ 0 }
    {
        Page { out, at: 0 }
    }

    // How much is written.
    pub fn len(&self) -> usize
        ensures { result ≡ self.now.at }
    {
        self.at
    }

    // Puts `text`.
    pub fn put(&mut self, text: &[u8])
        ensures { Puts self.old self.new text.now }
    {
        let n = text.len().min(self.out.len() - self.at);
        self.out[self.at..self.at + n].copy_from_slice(&text[..n]);
        self.at += n;
    }

    // Puts a number in N bytes, the least byte first.
    pub fn put_number<const N: usize>(&mut self, x: u32)
        requires { (N ≤ 4) × Room self.old N }
        ensures { Puts self.old self.new (number_bytes N x) }
    {
        self.out[self.at..self.at + N].copy_from_slice(&x.to_le_bytes()[..N]);
        self.at += N;
    }
}
