ghost use Rattle.std.specs.Prelude.{◌≡◌, ◌+◌, ◌^◌, ◌<◌, ◌≤◌, [], ◌∷◌, length, decimal, Ok};
ghost use Rattle.numbers.specs.Numbers.{number_at, coded};
ghost use Rattle.numbers.specs.Spelling.{Spells};
ghost use Rattle.numbers.specs.Writers.{Writes};

// Bytes written one after another into a slice that the caller lends; past its end they are only counted.
#[derive(Drop)]
pub struct Writer<'a> {
    out: &'a mut [u8],
    at: usize,
}

impl<'a> Writer<'a> {
    // A writer at the start of `out`, which is not altered.
    pub fn new(out: &'a mut [u8]) -> Writer<'a>
        ensures same { result.out.ghost_name ≡ out.entry.ghost_name }
        ensures out { result.out.now ≡ out.old }
        ensures at { result.at ≡ 0 }
    {
        Writer { out, at: 0 }
    }

    // A writer at the offset `at` of `out`, which is not altered.
    pub fn resume(out: &'a mut [u8], at: usize) -> Writer<'a>
        ensures same { result.out.ghost_name ≡ out.entry.ghost_name }
        ensures out { result.out.now ≡ out.old }
        ensures at { result.at ≡ at }
    {
        Writer { out, at }
    }

    // The offset after what was written, or the largest offset there is.
    pub fn at(&self) -> usize
        ensures { result ≡ self.now.at }
    {
        self.at
    }

    // Writes a byte, if the slice goes so far. `get_mut` would be no plainer, and the check does not prove it alone.
    pub fn put(&mut self, byte: u8)
        ensures { Writes self.old (byte ∷ []) self.new }
    {
        if self.at < self.out.len() {
            self.out[self.at] = byte;
        }
        self.at = self.at.saturating_add(1);
    }

    // Writes a text, as far as the slice goes.
    pub fn put_bytes(&mut self, text: &[u8])
        ensures { Writes self.old text.now self.new }
    {
        for byte in text {
            self.put(*byte);
        }
    }

    // Writes a number's decimal digits, as far as the slice goes. Written out, since `write!` would answer a result that cannot fail.
    pub fn put_decimal(&mut self, value: u64)
        ensures { Writes self.old (decimal value) self.new }
    {
        if value >= 10 {
            self.put_decimal(value / 10);
        }
        self.put(b'0' + (value % 10) as u8);
    }

    // Writes the bytes of a number, as far as the slice goes.
    pub fn put_number(&mut self, value: u64)
        ensures writes { Writes self.old (coded value) self.new }
        ensures law { Spells (coded value) value }
        ensures back { value < 2 ^ 42 → self.old.at + length (coded value) ≤ length self.old.out.now → number_at self.new.out.now self.old.at ≡ Ok (value, self.new.at) }
    {
        if value < 128 {
            self.put(value as u8);
            return;
        }
        self.put((128 + value % 128) as u8);
        self.put_number(value / 128);
    }
}
