// Text that is written into lent memory, one piece after the other.
ghost use Rattle.std.specs.Prelude.{◌≡◌, [], ◌∷◌, ℕ};
ghost use Rattle.text_field.specs.Name.{name_text};
ghost use Rattle.text_field.specs.Number.{number_text};
ghost use Rattle.text_field.specs.Buffer.{Buf};
ghost use Rattle.text_field.specs.Writing.{buf, Wrote};

use crate::{put_byte, put_bytes, put_name, put_number};

// Lent memory, and the place of its next byte. Where the memory is full nothing more is written, and
// the place stays.
#[derive(Drop)]
pub struct Writer<'o> {
    out: &'o mut [u8],
    end: usize,
}

impl<'o> Writer<'o> {
    // Writes from a place of the memory on.
    pub fn at(out: &'o mut [u8], end: usize) -> Writer<'o>
        ensures same { result.out.ghost_name ≡ out.entry.ghost_name }
        ensures starts { buf result ≡ (out.old, end) }
    {
        Writer { out, end }
    }

    // Writes from the start of the memory on.
    pub fn new(out: &'o mut [u8]) -> Writer<'o>
        ensures same { result.out.ghost_name ≡ out.entry.ghost_name }
        ensures starts { buf result ≡ (out.old, 0) }
    {
        Writer::at(out, 0)
    }

    // How much is written.
    pub fn end(&self) -> usize
        ensures answer { result ≡ self.now.end }
    {
        self.end
    }

    // A byte, where there is room.
    pub fn put(&mut self, x: u8)
        ensures wrote { Wrote self.old self.new (x ∷ []) }
    {
        self.end = put_byte(self.out, self.end, x);
    }

    // The bytes of a text.
    pub fn put_bytes(&mut self, s: &[u8])
        ensures wrote { Wrote self.old self.new s.now }
    {
        self.end = put_bytes(self.out, self.end, s);
    }

    // A number in decimal.
    pub fn put_number(&mut self, v: u64)
        ensures wrote { Wrote self.old self.new (number_text v) }
    {
        self.end = put_number(self.out, self.end, v);
    }
    // The bytes that two cells spell.
    pub fn put_name(&mut self, high: u64, low: u64)
        ensures wrote { Wrote self.old self.new (name_text high low) }
    {
        self.end = put_name(self.out, self.end, high, low);
    }
}
