// A line of a script: its word, the numbers after it, and what stands after them.
use layout::PLACES;
use text::{cut, words};

// How many numbers of a line are read: a seat, and the sums of one record more than a seat has places.
const NUMBERS_MOST: usize = 1 + 2 * (PLACES + 1);

// How many words stand before the sheet of a submit, and before that of a rows.
pub const SUBMIT_WORDS: usize = 6;

pub const ROWS_WORDS: usize = 4;

#[derive(Clone, Copy)]
pub struct Line<'a> {
    pub text: &'a [u8],
    pub word: &'a [u8],

    // What is printed: all but a sheet.
    pub head: &'a [u8],

    // The numbers, as far as they are read, how many they are, and zeros after them, which stand for numbers that are missing.
    pub values: [u64; NUMBERS_MOST],
    pub count: usize,
}

// The number that digits write, or the highest one where they write a higher one. What is no digit changes nothing: `number` of vectors ends
// there, and at numbers that are too long, so that one function would print otherwise.
fn number(s: &[u8]) -> u64 {
    s.iter()
        .filter_map(|b| char::from(*b).to_digit(10))
        .fold(0u64, |n, digit| {
            n.saturating_mul(10).saturating_add(u64::from(digit))
        })
}

// A text up to the blank after its first words, so many of them and one more, or all of it.
fn first_words(s: &[u8], before: usize) -> &[u8] {
    let mut blanks = s.iter().enumerate().filter(|(_, b)| **b == b' ');
    match blanks.nth(before) {
        Some((end, _)) => s.get(..end).unwrap_or(s),
        None => s,
    }
}

fn head_of<'a>(text: &'a [u8], word: &[u8]) -> &'a [u8] {
    match word {
        b"submit" => first_words(text, SUBMIT_WORDS - 1),
        b"rows" => first_words(text, ROWS_WORDS - 1),
        _ => text,
    }
}

// Reads a line.
pub fn line_of(text: &[u8]) -> Line<'_> {
    let (word, _) = cut(text, b' ');
    let head = head_of(text, word);
    let mut values = [0u64; NUMBERS_MOST];
    let mut count = 0;
    for (place, (value, digits)) in (1..).zip(values.iter_mut().zip(words(head).skip(1))) {
        *value = number(digits);
        count = place;
    }
    Line {
        text,
        word,
        head,
        values,
        count,
    }
}

impl<'a> Line<'a> {
    // What stands after the first words, so many of them.
    pub fn after(&self, count: usize) -> &'a [u8] {
        let mut rest = self.text;
        for _ in 0..count {
            (_, rest) = cut(rest, b' ');
        }
        rest
    }

    pub fn is(&self, word: &[u8]) -> bool {
        self.word == word
    }
}
