// Text into a lent buffer: each method puts its text after what was put before.
#![tactic(auto)]

ghost use Rattle.std.specs.Prelude.{◌≡◌, ◌∷◌, [], ◌+◌, ◌≤◌, ◌<◌, length};
ghost use Rattle.text.specs.Text.{decimal, last_digits};
ghost use Rattle.text.specs.Printer.{Room, Puts};

// A lent buffer and how far it is filled.
#[derive(Drop)]
pub struct Printer<'a> {
    pub out: &'a mut [u8],
    pub end: usize,
}

// Puts the last digits of n, as many as there is room for.
fn put_digits(digits: &mut [u8], n: u64)
    ensures { digits.new ≡ last_digits (length digits.old) n }
{
    if let Some((front, pair)) = digits.split_last_chunk_mut::<2>() {
        *pair = [48 + (n / 10 % 10) as u8, 48 + (n % 10) as u8];
        put_digits(front, n / 100);
    } else if let Some(digit) = digits.first_mut() {
        *digit = 48 + (n % 10) as u8;
    }
}

impl Printer<'_> {
    pub fn put(&mut self, b: u8)
        requires { Room 1 self.old }
        ensures { Puts 1 (b ∷ []) self.old self.new }
    {
        self.out[self.end] = b;
        self.end += 1;
    }

    pub fn put_text(&mut self, text: &[u8])
        requires { Room (length text.now) self.old }
        ensures { Puts (length text.now) text.now self.old self.new }
    {
        let end = self.end + text.len();
        self.out[self.end..end].copy_from_slice(text);
        self.end = end;
    }

    pub fn put_decimal(&mut self, n: u64)
        requires { Room 20 self.old }
        ensures { Puts 20 (decimal n) self.old self.new }
    {
        if n < 10 {
            return self.put(48 + n as u8);
        }
        let end = self.end + n.ilog10() as usize + 1;
        put_digits(&mut self.out[self.end..end], n);
        self.end = end;
    }
}
