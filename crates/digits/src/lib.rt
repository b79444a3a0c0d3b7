// Layer 5, digits: lines of words and numbers, as text in a lent room. A room that is too short gets as much of it as it has room for.
#![tactic(auto)]

ghost use Rattle.std.specs.Prelude.{◌≡◌, List, [], ◌∷◌, ◌++◌, map, ℕ, ◌+◌, ◌<◌};
ghost use Rattle.digits.specs.Printed.{Printed};
ghost use Rattle.digits.specs.Decimal.{decimal};
ghost use Rattle.digits.specs.Numbers.{numbers};

// A number that is printed: of sixteen bits, as ranks are, or of sixty-four.
pub trait Number: Copy {
    // The number itself.
    ghost value: { Self → ℕ };

    // The same number in the widest type.
    fn wide(self) -> u64
        ensures { result ≡ value self };
}

impl Number for u16 {
    ghost value = { λ number. number };

    fn wide(self) -> u64 {
        u64::from(self)
    }
}

impl Number for u64 {
    ghost value = { λ number. number };

    fn wide(self) -> u64 {
        self
    }
}

// A lent room, and the place in it of the next byte.
#[derive(Drop)]
pub struct Printer<'a> {
    pub room: &'a mut [u8],
    pub at: usize,
}

// The digit of a number below ten.
fn digit(number: u64) -> u8
    requires { number < 10 }
    ensures { result ≡ 48 + number }
{
    b'0' + number as u8
}

impl Printer<'_> {
    // Puts a byte, where the room has a place left.
    fn put_byte(&mut self, byte: u8)
        ensures { Printed (byte ∷ []) self.old self.new }
    {
        if self.at < self.room.len() {
            self.room[self.at] = byte;
            self.at += 1;
        }
    }

    // Puts a word.
    fn put_word(&mut self, word: &[u8])
        ensures { Printed word.now self.old self.new }
    {
        for byte in word {
            self.put_byte(*byte);
        }
    }

    // Puts the decimal digits of a number: those of its tenth part, and then the last one.
    // They are made here and not by `Display`, since the edits `digit_lost` and `digit_one_too_high` plant their faults here.
    fn put_decimal(&mut self, number: u64)
        ensures { Printed (decimal number) self.old self.new }
    {
        if number >= 10 {
            self.put_decimal(number / 10);
        }
        self.put_byte(digit(number % 10));
    }

    // Puts a word and numbers, with a space between two and the line feed after the last; without numbers there is no line feed.
    pub fn put_line<T: Number>(&mut self, word: &[u8], list: &[T])
        ensures { Printed (word.now ++ numbers (map T.value list.now)) self.old self.new }
    {
        self.put_word(word);
        for (i, number) in list.iter().enumerate() {
            self.put_decimal(number.wide());
            let after = if i + 1 < list.len() { b' ' } else { b'\n' };
            self.put_byte(after);
        }
    }
}
