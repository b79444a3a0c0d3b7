// A case's line: its fields and the numbers in them.
ghost use Rattle.std.specs.Prelude.{◌≡◌, ◌≤◌, length, take};

use terms::Kind;

// A case: a line that strokes cut into fields.
#[derive(Clone, Copy)]
pub struct Case<'a>(pub &'a [u8]);

impl<'a> Case<'a> {
    // Field k, counted from 0; a field that is not there is empty.
    pub fn field(self, k: usize) -> &'a [u8]
        ensures { length result.now ≤ length self.entry.0.now }
    {
        self.0.split(|byte| *byte == b'|').nth(k).unwrap_or(&[])
    }

    // The first field, which names the case and need not be text.
    pub fn label(self) -> &'a [u8]
        ensures { length result.now ≤ length self.entry.0.now }
    {
        self.field(0)
    }

    // The numbers of the second field, which says what is tried: the first N of them, and 0 for each that is not there.
    pub fn numbers<const N: usize>(self) -> [u16; N] {
        let mut numbers = [0; N];
        numbers_into(self.field(1), &mut numbers);
        numbers
    }
}

// What a number comes to with one more character: a digit goes behind it, and a word stands for the code of its first letter.
fn grown(x: u16, c: u8) -> u16 {
    match c {
        b'0'..=b'9' => x.wrapping_mul(10).wrapping_add(u16::from(c - b'0')),
        _ if c < b'0' => 0,
        _ if x == 0 => u16::from(c),
        _ => x,
    }
}

// Writes the numbers of a field, which have a blank between them, as far as there is room, and answers how many there are. A blank at the beginning leaves the
// first place as it was.
pub fn numbers_into(list: &[u8], room: &mut [u16]) -> usize {
    if list.is_empty() {
        return 0;
    }
    let left = usize::from(list[0] == b' ');
    let words = list.split(|c| *c == b' ');
    for (place, word) in room.iter_mut().zip(words).skip(left) {
        *place = word.iter().fold(0, |x, c| grown(x, *c));
    }
    list.split(|c| *c == b' ').count()
}

// The first n of a list, or all of them.
pub fn front<T>(list: &[T], n: usize) -> &[T]
    ensures { result.now ≡ take n list.now }
{
    &list[..n.min(list.len())]
}

// A word that names nothing to try, as the number that it stands for.
#[derive(Clone, Copy)]
pub struct UnknownWord(pub u16);

// A number of a line as a budget: 65,535 stands for the greatest one. No `From`: no budget elsewhere is so told.
pub fn great(x: u16) -> u64 {
    if x == u16::MAX {
        u64::MAX
    } else {
        u64::from(x)
    }
}

// The kind of tree that a word names by its first letter, `twig` or another. No `From`: that of `Kind` is of the C interface's numbers.
pub fn kind_of(word: u16) -> Kind {
    if word == u16::from(b't') {
        Kind::Twig
    } else {
        Kind::Data
    }
}
