// The words of a line, one after the other.
ghost use Rattle.std.specs.Prelude.{◌≡◌, ◌≤◌, [], ◌∷◌, length, MatchOption, MatchResult, Some};

use site_lines::fault::Code;
use site_lines::word::word_at;
use std::marker::Model;

// The words of a line that are left. Contracts see their list.
#[derive(Drop)]
pub(crate) struct Words<'a> {
    line: &'a [u8],
    place: usize,
}

impl<'a> Model for Words<'a> {
    ghost use Rattle.std.specs.Prelude.{ℕ, ◌≤◌, List, length, drop};
    ghost use Rattle.site_lines.specs.Words.{words_of};

    ghost Value = { List (List ℕ) };

    ghost view = { λ w. words_of (drop w.place w.line.now) };

    ghost invariant = { λ w. w.place ≤ length w.line.now };
}

impl<'a> Words<'a> {
    ghost use Rattle.site_lines.specs.Words.{words_of};
    ghost use Rattle.site_lines.specs.Readings.{least_code};
    ghost use Rattle.fleet_commands.specs.Reading.{too_few, too_many};

    // All words of a line.
    pub(crate) fn of(line: &'a [u8]) -> Words<'a>
        ensures { result ≡ words_of line.now }
    {
        Words { line, place: 0 }
    }

    // The next word; none where none is left.
    pub(crate) fn next(&mut self) -> Option<&'a [u8]>
        ensures { MatchOption result (self.old ≡ []) (λ word. self.old ≡ word.now ∷ self.new) }
    {
        let (start, stop) = word_at(self.line, self.place)?;
        self.place = stop;
        Some(&self.line[start..stop])
    }

    // The one word that is left.
    pub(crate) fn one(mut self) -> Result<&'a [u8], Code>
        ensures { MatchResult result (λ word. self.entry ≡ word.now ∷ [])
            (λ code. least_code (too_few 1 self.entry ∷ too_many 1 self.entry ∷ []) ≡ Some code) }
    {
        let word = self.next().ok_or(Code::C4)?;
        match self.next() {
            None => Ok(word),
            Some(_) => Err(Code::C5),
        }
    }

    // The two words that are left.
    pub(crate) fn two(mut self) -> Result<(&'a [u8], &'a [u8]), Code>
        ensures { MatchResult result (λ words. self.entry ≡ words.0.now ∷ words.1.now ∷ [])
            (λ code. least_code (too_few 2 self.entry ∷ too_many 2 self.entry ∷ []) ≡ Some code) }
    {
        let word = self.next().ok_or(Code::C4)?;
        let other = self.next().ok_or(Code::C4)?;
        match self.next() {
            None => Ok((word, other)),
            Some(_) => Err(Code::C5),
        }
    }
}
