//! The words of a line, one after another.

ghost use Rattle.std.specs.Prelude.{◌≡◌, ◌==◌, ◌∷◌, [], length, MatchOption, option_copied};
ghost use Rattle.script.specs.Text.{words_of, words_left};

use crate::lines::place_of;
use std::marker::Model;

/// The words that are left of a line. Contracts see the list of them.
#[derive(Drop)]
pub struct Words<'a> {
    rest: Option<&'a [u8]>,
}

impl<'a> Model for Words<'a> {
    ghost use Rattle.std.specs.Prelude.{List, ℕ, option_copied};
    ghost use Rattle.script.specs.Text.{words_left};

    ghost Value = { List (List ℕ) };

    ghost view = { λ words. words_left (option_copied words.rest) };
}

/// The first word of the line, and what is left behind the blank that ends it.
fn first_word(line: &[u8]) -> (&[u8], Option<&[u8]>)
    ensures { words_of line.now ≡ result.0.now ∷ words_left (option_copied result.1) }
{
    match place_of(b' ', line) {
        Some(end) => (&line[..end], Some(&line[end + 1..])),
        None => (line, None),
    }
}

impl<'a> Words<'a> {
    /// The words of the line.
    pub fn of(line: &'a [u8]) -> Words<'a>
        ensures { result ≡ words_of line.now }
    {
        Words { rest: Some(line) }
    }

    /// Whether none is left.
    pub fn are_none(&self) -> bool
        ensures { result ≡ (length self.now == 0) }
    {
        self.rest.is_none()
    }

    /// Takes the first word out, if one is left.
    pub fn next(&mut self) -> Option<&'a [u8]>
        ensures { MatchOption result (self.old ≡ []) (λ word. self.old ≡ word.now ∷ self.new) }
    {
        let (word, rest) = first_word(self.rest?);
        self.rest = rest;
        Some(word)
    }
}
