//! Course: how many callers take how many turns, and in which order their passes are split and joined.

use std::alloc::{AllocError, Global};

/// The most callers of a course.
pub const MOST_CALLERS: usize = 64;

/// A course, as a line tells it: `SEED TURNS KEPT SHAPE PLACE PLACE ..`, with a place for each caller, and `slow ` before
/// all that or not.
#[derive(Drop)]
pub struct Course {
    /// Whether each turn lasts long enough for others to fall asleep.
    pub is_slow: bool,
    pub seed: u64,
    /// How many turns each caller takes.
    pub turns: u32,
    /// Whether what a caller has seen after each turn is kept, and held against the list at the end: `kept` or `bare`.
    pub is_kept: bool,
    /// Whether each pass is split off the one before it, `chain`, and not all off the first, `star`.
    pub is_chain: bool,
    /// The order in which passes are joined: for each, its place among those that are left, which counts round.
    pub places: Vec<usize>,
}

impl Course {
    /// The course of a line, if it is one.
    pub fn from_line(alloc: Global, line: &str) -> Result<Option<Course>, AllocError> {
        let (is_slow, line) = match line.strip_prefix("slow ") {
            Some(rest) => (true, rest),
            None => (false, line),
        };
        let mut words = line.split(' ');
        let (Some(seed), Some(turns)) = (number(words.next()), number(words.next())) else {
            return Ok(None);
        };
        let (Some(is_kept), Some(is_chain)) = (
            choice(words.next(), "kept", "bare"),
            choice(words.next(), "chain", "star"),
        ) else {
            return Ok(None);
        };
        let mut places = Vec::new(alloc);
        for word in words {
            let Ok(place) = word.parse() else {
                return Ok(None);
            };
            places.push(place)?;
        }
        if places.is_empty() || places.len() > MOST_CALLERS || turns > u64::from(u32::MAX) {
            return Ok(None);
        }
        Ok(Some(Course {
            is_slow,
            seed,
            turns: turns as u32,
            is_kept,
            is_chain,
            places,
        }))
    }
}

fn number(word: Option<&str>) -> Option<u64> {
    word?.parse().ok()
}

// True for the first word, false for the second.
fn choice(word: Option<&str>, first: &str, second: &str) -> Option<bool> {
    let word = word?;
    if word == first {
        Some(true)
    } else if word == second {
        Some(false)
    } else {
        None
    }
}
