// The trees that lines name by a letter and the number of their elements.
ghost use Rattle.std.specs.Prelude.{◌≤◌, ℕ, length};

use crate::fields::{front, numbers_into};

// Document 01's Ten: name, post, ff and fa of each element.
const TEN: [u16; 40] = [
    1, 10, 11, 0, 2, 5, 7, 1, 3, 3, 6, 2, 4, 1, 5, 3, 5, 2, 6, 3, 7, 4, 7, 2, 6, 9, 11, 1, 8, 8,
    11, 7, 9, 6, 10, 8, 10, 7, 11, 8,
];

// Document 01's Five.
const FIVE: [u16; 20] = [1, 5, 6, 0, 1, 1, 3, 1, 1, 4, 6, 1, 1, 2, 5, 3, 1, 3, 6, 3];

// Entry i of a chain of n elements. The bounds of i and n stand at each such function, since each is handed on as it is.
fn chain(n: u16, i: u16) -> [u16; 4]
    requires { (1 ≤ i) × (i ≤ n) × (n ≤ 20000) }
{
    [1, n + 1 - i, n + 1, i - 1]
}

// Entry i of a root with n - 1 leaves.
fn broad(n: u16, i: u16) -> [u16; 4]
    requires { (1 ≤ i) × (i ≤ n) × (n ≤ 20000) }
{
    if i < 2 {
        [1, n, n + 1, 0]
    } else {
        [1, i - 1, i + 1, 1]
    }
}

// Entry i of n in a chain in which each element has a leaf before the next.
fn stair(n: u16, i: u16) -> [u16; 4]
    requires { (1 ≤ i) × (i ≤ n) × (n ≤ 20000) }
{
    if i < 2 {
        [1, n, n + 1, 0]
    } else if i % 2 == 0 {
        [1, i / 2, i + 1, i - 1]
    } else {
        [1, n + 1 - (i + 1) / 2, n + 1, i - 2]
    }
}

// Entry i of the root of n elements whose children are named 2. Each has a child named 3, and one in every thousand also one named 4, so that the twig
// 2(3,4) begins often and is seldom found.
fn half(n: u16, i: u16) -> [u16; 4]
    requires { (1 ≤ i) × (i ≤ n) × (n ≤ 20000) }
{
    if i < 2 {
        return [1, n, n + 1, 0];
    }
    match (i - 2) % 2001 {
        0 => [2, i + 1, i + 3, 1],
        2 => [4, i - 2, i + 1, i - 2],
        place if place % 2 == 1 && 1 < place => [2, i, i + 2, 1],
        _ => [3, i - 2, i + 1, i - 1],
    }
}

// Writes numbers from the room's beginning on, as far as they fit.
fn put(room: &mut [u16], numbers: &[u16]) {
    for (place, x) in room.iter_mut().zip(numbers) {
        *place = *x;
    }
}

// Writes n entries, as far as they fit, and answers how many numbers they have.
fn entries_into<F: Fn(u16, u16) -> [u16; 4]>(room: &mut [u16], n: u16, entry: F) -> usize
    requires { (i : ℕ) → 1 ≤ i → i ≤ n → F.pre entry n i }
{
    let (places, end) = room.as_chunks_mut::<4>();
    let whole = places.len().min(usize::from(n));
    for i in 0..whole {
        places[i] = entry(n, i as u16 + 1);
    }
    // The entry that fits only in part.
    if whole < usize::from(n) {
        put(end, &entry(n, whole as u16 + 1));
    }
    4 * usize::from(n)
}

// Writes n numbers, as far as they fit, and answers how many they are.
fn list_into<F: Fn(u16) -> u16>(room: &mut [u16], n: u16, number: F) -> usize
    requires { F.IsAlwaysCallable number }
{
    for (i, place) in (1..=n).zip(room.iter_mut()) {
        *place = number(i);
    }
    usize::from(n)
}

// Writes the tree or list of a letter, as far as it fits, and answers how many numbers it has: T document 01's Ten, F its Five, C a chain, B a root with
// leaves, S a chain in which each element has a leaf before the next, H a tree of half matches; and O so many ones, R the ranks up to a number.
fn made_into(room: &mut [u16], letter: u8, n: u16) -> usize {
    // A match on the letter: what is made is lent to `entries_into` as a function, and a table of these would be handed out.
    match letter {
        b'T' => {
            put(room, &TEN);
            TEN.len()
        }
        b'F' => {
            put(room, &FIVE);
            FIVE.len()
        }
        _ if 20000 < n => 0,
        b'O' => list_into(room, n, |_| 1),
        b'R' => list_into(room, n, |i| i),
        b'B' => entries_into(room, n, broad),
        b'S' => entries_into(room, n, stair),
        b'H' => entries_into(room, n, half),
        _ => entries_into(room, n, chain),
    }
}

// Writes the tree that a field names by a letter and a size and, where one number is to be another, its place and what stands there instead.
fn named_into(room: &mut [u16], letter: u8, list: &[u8]) -> usize {
    let mut words = [0; 4];
    let count = numbers_into(list, &mut words);
    let [_, n, at, x] = words;
    let len = made_into(room, letter, n);
    if count == 4 {
        if let Some(place) = room.get_mut(usize::from(at)) {
            *place = x;
        }
    }
    len
}

// Writes what a field lists, as far as it fits, and hands back what is written: the numbers themselves, or the tree or list that a letter names.
// Rooms of a fixed size are lent to it: what a line lists is cut at the room's length, so that a `Vec` would be filled to that length first and then lent just so.
pub fn tree_into<'a>(list: &[u8], room: &'a mut [u16]) -> &'a [u16]
    ensures { length result.now ≤ length room.entry.now }
{
    let len = match list.first() {
        Some(letter) if b'A' <= *letter => named_into(room, *letter, list),
        _ => numbers_into(list, room),
    };
    front(room, len)
}
