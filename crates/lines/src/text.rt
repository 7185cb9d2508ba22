// Text into lent bytes: digits, numbers and words, each with a blank or a newline after it.
ghost use Rattle.std.specs.Prelude.{◌≡◌, ◌+◌, ◌<◌, [], ◌∷◌, length};
ghost use Rattle.lines.specs.Listing.{glyph, hex_digits, hex, decimal, ended};
ghost use Rattle.lines.specs.Inner.Places.{Room, Puts};

pub const BLANK: u8 = 32;

pub const NEWLINE: u8 = 10;

fn digit(d: u32) -> u8
    requires { d < 16 }
    ensures { result ≡ glyph d }
{
    if d < 10 {
        (48 + d) as u8
    } else {
        (55 + d) as u8
    }
}

// Lent bytes, and the place after the text so far.
#[derive(Drop)]
pub struct Text<'a> {
    pub out: &'a mut [u8],
    pub at: usize,
}

impl Text<'_> {
    fn put_byte(&mut self, byte: u8)
        requires { Room 1 self.old }
        ensures { Puts 1 self.old (byte ∷ []) self.new }
    {
        self.out[self.at] = byte;
        self.at += 1;
    }

    // The last w hex digits of n.
    fn put_hex(&mut self, w: usize, n: u64)
        requires { Room w self.old }
        ensures { Puts w self.old (hex_digits w n) self.new }
    {
        if 0 < w {
            self.put_hex(w - 1, n / 16);
            self.put_byte(digit((n % 16) as u32));
        }
    }

    fn put_decimal(&mut self, n: u32)
        requires { Room (length (decimal n)) self.old }
        ensures { Puts (length (decimal n)) self.old (decimal n) self.new }
    {
        if n < 10 {
            self.put_byte(digit(n));
        } else {
            self.put_decimal(n / 10);
            self.put_byte(digit(n % 10));
        }
    }

    pub fn put_number(&mut self, n: u32, end: u8)
        requires { Room 11 self.old }
        ensures { Puts 11 self.old (ended end (decimal n)) self.new }
    {
        self.put_decimal(n);
        self.put_byte(end);
    }

    pub fn put_bits(&mut self, n: u64, end: u8)
        requires { Room 17 self.old }
        ensures { Puts 17 self.old (ended end (hex n)) self.new }
    {
        self.put_hex(16, n);
        self.put_byte(end);
    }

    pub fn put_word(&mut self, word: &[u8], end: u8)
        requires { Room (length word.now + 1) self.old }
        ensures { Puts (length word.now + 1) self.old (ended end word.now) self.new }
    {
        for byte in word.iter() {
            self.put_byte(*byte);
        }
        self.put_byte(end);
    }
}
