// Pieces of a text, written one behind the other.
ghost use Rattle.std.specs.Prelude.{◌≡◌, ◌+◌, ◌<◌, ◌≤◌, [], ◌∷◌, length};
ghost use Rattle.text.specs.Numbers.{number_text};
ghost use Rattle.text.specs.Appending.{Appended};

// A lent row, and where its next piece begins.
#[derive(Drop)]
pub struct Writer<'a> {
    pub out: &'a mut [u8],
    pub at: usize,
}

impl Writer<'_> {
    pub fn put_byte(&mut self, byte: u8)
        requires { self.old.at < length self.old.out.now }
        ensures { Appended self.old (byte ∷ []) self.new }
    {
        self.at = crate::put_byte(self.out, self.at, byte);
    }

    pub fn put_text(&mut self, text: &[u8])
        requires { self.old.at + length text.now ≤ length self.old.out.now }
        ensures { Appended self.old text.now self.new }
    {
        crate::put_text(self.out, self.at, text);
        self.at += text.len();
    }

    pub fn put_number(&mut self, n: u64)
        requires { self.old.at + 20 ≤ length self.old.out.now }
        ensures { Appended self.old (number_text n) self.new × (self.new.at ≤ self.old.at + 20) }
    {
        self.at = crate::put_number(self.out, self.at, n);
    }
}
