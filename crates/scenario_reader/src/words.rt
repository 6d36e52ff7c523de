// The words of a line, one after the other.
ghost use Rattle.std.specs.Prelude.{◌≡◌, ◌≤◌, ◌<◌, not, [], ◌∷◌, length, MatchOption, IfOk, IfErr, OnOk, Some, true};
ghost use Rattle.std.specs.List.{list_all};
ghost use Rattle.fleet_names.specs.Names.{is_name};
ghost use Rattle.site_lines.specs.Readings.{least_code};
ghost use Rattle.site_lines.specs.Words.{words_of};
ghost use Rattle.scenario_reader.specs.Tables.{few, many, row, IsFine};

use fleet_names::thing::is_name;
use site_lines::fault::Code;
use site_lines::word::word_at;
use std::marker::Model;

// The words of a line that are left. Contracts see their list.
#[derive(Drop)]
pub(crate) struct Words<'a> {
    line: &'a [u8],
    at: usize,
}

impl<'a> Model for Words<'a> {
    ghost use Rattle.std.specs.Prelude.{List, ℕ, ◌≤◌, length, drop};
    ghost use Rattle.site_lines.specs.Words.{words_of};

    ghost Value = { List (List ℕ) };

    ghost view = { λ w. words_of (drop w.at w.line.now) };

    ghost invariant = { λ w. w.at ≤ length w.line.now };
}

impl<'a> Words<'a> {
    // The words of a line.
    pub(crate) fn of(line: &'a [u8]) -> Words<'a>
        ensures { result ≡ words_of line.now }
    {
        Words { line, at: 0 }
    }

    // The first of them, which is taken off.
    pub(crate) fn next(&mut self) -> Option<&'a [u8]>
        ensures { MatchOption result (self.old ≡ []) (λ word. self.old ≡ word.now ∷ self.new) }
    {
        let (start, stop) = word_at(self.line, self.at)?;
        self.at = stop;
        Some(&self.line[start..stop])
    }

    // The same words once more.
    pub(crate) fn again(&self) -> Words<'a>
        ensures { result ≡ self.now }
    {
        Words {
            line: self.line,
            at: self.at,
        }
    }
}

// There are at least so many words, and each is a name; else the least code.
pub(crate) fn check_names(words: &mut Words, least: usize) -> Result<(), Code>
    ensures fine { OnOk result (IsFine (few least words.old ∷ row (not (list_all is_name words.old)) Code.S7 ∷ [])) }
    ensures names { OnOk result (list_all is_name words.old ≡ true) }
    ensures bad { IfErr result (λ code. least_code (few least words.old ∷ row (not (list_all is_name words.old)) Code.S7 ∷ []) ≡ Some code) }
{
    let mut missing = least;
    let mut are_names = true;
    while let Some(word) = words.next() {
        missing = missing.saturating_sub(1);
        are_names = are_names && is_name(word);
    }
    if missing > 0 {
        return Err(Code::S5);
    }
    if !are_names {
        return Err(Code::S7);
    }
    Ok(())
}

// No word stands there; else the code.
pub(crate) fn none(words: &mut Words) -> Result<(), Code>
    ensures ok { OnOk result (words.old ≡ []) }
    ensures bad { IfErr result (λ code. least_code (many 0 words.old ∷ []) ≡ Some code) }
{
    match words.next() {
        None => Ok(()),
        Some(_) => Err(Code::S6),
    }
}

// The one word that stands there; else the least code.
pub(crate) fn one<'a>(words: &mut Words<'a>) -> Result<&'a [u8], Code>
    ensures ok { IfOk result (λ word. words.old ≡ word.now ∷ []) }
    ensures bad { IfErr result (λ code. least_code (few 1 words.old ∷ many 1 words.old ∷ []) ≡ Some code) }
{
    let Some(word) = words.next() else {
        return Err(Code::S5);
    };
    none(words)?;
    Ok(word)
}

// The two words that stand there; else the least code.
pub(crate) fn two<'a>(words: &mut Words<'a>) -> Result<(&'a [u8], &'a [u8]), Code>
    ensures ok { IfOk result (λ w. words.old ≡ w.0.now ∷ w.1.now ∷ []) }
    ensures bad { IfErr result (λ code. least_code (few 2 words.old ∷ many 2 words.old ∷ []) ≡ Some code) }
{
    let Some(first) = words.next() else {
        return Err(Code::S5);
    };
    let second = one(words)?;
    Ok((first, second))
}

// The three words that stand there; else the least code.
pub(crate) fn three<'a>(words: &mut Words<'a>) -> Result<(&'a [u8], &'a [u8], &'a [u8]), Code>
    ensures ok { IfOk result (λ w. words.old ≡ w.0.now ∷ w.1.now ∷ w.2.now ∷ []) }
    ensures bad { IfErr result (λ code. least_code (few 3 words.old ∷ many 3 words.old ∷ []) ≡ Some code) }
{
    let Some(first) = words.next() else {
        return Err(Code::S5);
    };
    let (second, third) = two(words)?;
    Ok((first, second, third))
}
