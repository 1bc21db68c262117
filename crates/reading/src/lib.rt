// The text that floorwalk takes, read from byte slices: lines of numbers, and the rows of a map.
#![tactic(auto)]

ghost use Rattle.std.specs.Prelude.{◌≡◌, ◌+◌, ◌*◌, ◌<◌, ◌≤◌, eqb, length, get_or, MatchOption};
ghost use Rattle.floor.specs.Refusals.{Tells};
ghost use Rattle.floor.specs.Words.{row_words};
ghost use Rattle.writing.specs.Numbers.{Digit};
ghost use Rattle.reading.specs.Lines.{Has, NumberRead, PairRead, TwoRead, FourRead};
ghost use Rattle.reading.specs.Maps.{Letter, RowAt, RowsRead, Draws, DrawsRow, free_letter};

use floor::Cell;

const NEWLINE: u8 = b'\n';

const SPACE: u8 = b' ';

const FREE: u8 = b'.';

const BLOCKED: u8 = b'#';

// The largest number that a line may have.
const MOST: usize = 999;

// A number, and where the text goes on after it and the byte that ends it. Here and below this is a place in the text and no rest of it, since
// the definitions go by places.
#[derive(Clone, Copy)]
struct Number {
    value: usize,
    next: usize,
}

// A line of two numbers, and where the next line begins.
#[derive(Clone, Copy)]
pub struct Two {
    pub first: usize,
    pub second: usize,
    pub next: usize,
}

// A line of four numbers, which are the two cells of a trip, and where the next line begins.
#[derive(Clone, Copy)]
pub struct Four {
    pub start: Cell,
    pub goal: Cell,
    pub next: usize,
}

// The first row of a map that does not fit, counted from 0.
#[derive(Clone, Copy, PartialEq, Eq, Debug)]
pub struct Misfit {
    pub row: usize,
}

// Whether the text has this byte at this place.
fn has(text: &[u8], at: usize, byte: u8) -> bool
    ensures { Tells (Has (λ b. b ≡ byte) text.now at) result }
{
    text.get(at) == Some(&byte)
}

// What the digit at this place is worth, where there is one.
fn digit_at(text: &[u8], at: usize) -> Option<usize>
    ensures { MatchOption result (¬ (Has Digit text.now at)) (λ d. Has Digit text.now at × (get_or text.now at 0 ≡ 48 + d) × (d < 10)) }
{
    match text.get(at) {
        Some(b @ b'0'..=b'9') => Some(usize::from(*b - b'0')),
        _ => None,
    }
}

// The number at a place, with the byte `end` right after it, which is no digit.
fn read_number(text: &[u8], at: usize, end: u8) -> Option<Number>
    requires { end < 48 }
    ensures { NumberRead text.now at end result }
{
    let mut value = digit_at(text, at)?;
    let mut next = at + 1;
    // The number and the place after it come from one pass.
    while let Some(digit) = digit_at(text, next) {
        // A zero leads no number.
        if value == 0 {
            return None;
        }
        // One more digit makes more than the most.
        if MOST / 10 < value {
            return None;
        }
        value = 10 * value + digit;
        next += 1;
    }
    if has(text, next, end) {
        Some(Number {
            value,
            next: next + 1,
        })
    } else {
        None
    }
}

// Two numbers, one space apart, with the byte `end` right after them.
fn read_pair(text: &[u8], at: usize, end: u8) -> Option<Two>
    requires { end < 48 }
    ensures { PairRead text.now at end result }
{
    let first = read_number(text, at, SPACE)?;
    let second = read_number(text, first.next, end)?;
    Some(Two {
        first: first.value,
        second: second.value,
        next: second.next,
    })
}

// A line of two numbers.
pub fn read_two(text: &[u8], at: usize) -> Option<Two>
    ensures { TwoRead text.now at result }
{
    read_pair(text, at, NEWLINE)
}

// A line of four numbers.
pub fn read_four(text: &[u8], at: usize) -> Option<Four>
    ensures { FourRead text.now at result }
{
    let start = read_pair(text, at, SPACE)?;
    let goal = read_pair(text, start.next, NEWLINE)?;
    Some(Four {
        start: Cell {
            x: start.first,
            y: start.second,
        },
        goal: Cell {
            x: goal.first,
            y: goal.second,
        },
        next: goal.next,
    })
}

// Whether a byte is a letter of the map.
fn is_letter(byte: u8) -> bool
    ensures { Tells (Letter byte) result }
{
    byte == FREE || byte == BLOCKED
}

// Whether w letters and a newline stand from a place on.
fn is_row(text: &[u8], at: usize, w: usize) -> bool
    requires { at ≤ length text.now }
    ensures { Tells (RowAt text.now at w) result }
{
    let line = &text[at..];
    has(line, w, NEWLINE) && line[..w].iter().all(|byte| is_letter(*byte))
}

// The bit of column x of a row: 0 where it is one of its letters and free, and 1 elsewhere.
fn bit_of(letters: &[u8], x: usize) -> u64
    ensures { (result < 2) × (eqb result 0 ≡ free_letter (length letters.now) letters.now x) }
{
    match letters.get(x) {
        Some(letter) => u64::from(*letter != FREE),
        // A column past the letters is not free.
        None => 1,
    }
}

// The word of a row's 64 columns from `first` on, made from its highest bit down.
fn word_of(letters: &[u8], first: usize) -> u64
    requires { first ≤ 255 }
    ensures { Draws letters.now first result }
{
    let mut word = 0;
    for k in (0..64).rev() {
        word = 2 * word + bit_of(letters, first + k);
    }
    word
}

// Writes the words of a row.
fn put_row(letters: &[u8], row: &mut [u64])
    requires { length row.old ≤ 4 }
    ensures { DrawsRow letters.now row.new }
{
    for (i, word) in row.iter_mut().enumerate() {
        *word = word_of(letters, 64 * i);
    }
}

// Reads h rows of w letters into the floor's words, and says where the text goes on; or which row is the first that does not fit, and the
// rows before it are read then.
pub fn read_rows(
    text: &[u8],
    from: usize,
    w: usize,
    h: usize,
    floor: &mut [u64],
) -> Result<usize, Misfit>
    requires { (w ≤ 255) × ((h ≤ 255) × ((from ≤ length text.now) × (h * row_words w ≤ length floor.old))) }
    ensures { RowsRead text.now from w h floor.old floor.new result }
{
    let n = floor::row_words(w);
    // The rows' words are taken by place: after `chunks_mut` only the length of what was written would be known.
    let mut at = from;
    for row in 0..h {
        if !is_row(text, at, w) {
            return Err(Misfit { row });
        }
        let first = row * n;
        put_row(&text[at..at + w], &mut floor[first..first + n]);
        at += w + 1;
    }
    Ok(at)
}
