//! Samples of the definitions of lines, words and numbers, written out and proved by computing
//! them.

ghost use Rattle.std.specs.Prelude.{◌≡◌, true, false, [], ◌∷◌, codes, Ok, Err};
ghost use Rattle.site_lines.specs.Lines.{lines_of, input_lines, without_return};
ghost use Rattle.site_lines.specs.Words.{words_of, before_comment, has_bad_byte, is_blank};
ghost use Rattle.site_lines.specs.Numbers.{number_of};
ghost use Rattle.site_lines.specs.declared.number.NumberRefused.TheVariants.{BadNumber, OutOfRange};

/// The lines of a text end with a line feed, which the last may lack. Of an input a carriage
/// return before a line feed or at the end is dropped.
pub fn lines()
    ensures nothing { lines_of [] ≡ [] }
    ensures one { lines_of (codes "\n") ≡ [] ∷ [] }
    ensures ended { lines_of (codes "fleet 1\nend\n") ≡ codes "fleet 1" ∷ codes "end" ∷ [] }
    ensures open { lines_of (codes "fleet 1\n\nend") ≡ codes "fleet 1" ∷ [] ∷ codes "end" ∷ [] }
    ensures returns { input_lines (codes "fleet 1\r\n\rend\r\r\n\r") ≡ codes "fleet 1" ∷ codes "\rend\r" ∷ [] ∷ [] }
    ensures kept { without_return (codes "a\rb") ≡ codes "a\rb" }
{}

/// Words stand between spaces and tabs, up to a `#` where a word would begin.
pub fn words()
    ensures plain { words_of (codes "\tlink  b\tc 3 ") ≡ codes "link" ∷ codes "b" ∷ codes "c" ∷ codes "3" ∷ [] }
    ensures comment { words_of (codes "cell a #b c") ≡ codes "cell" ∷ codes "a" ∷ [] }
    ensures within { words_of (codes "cell a#b c#") ≡ codes "cell" ∷ codes "a#b" ∷ codes "c#" ∷ [] }
    ensures whole { words_of (codes "# two yards") ≡ [] }
    ensures before { before_comment (codes "a# # b") ≡ codes "a# " }
    ensures blank { is_blank (codes " \t # a") ≡ true }
    ensures filled { is_blank (codes " \ta") ≡ false }
{}

/// Bad bytes are bad outside a comment alone.
pub fn bad_bytes()
    ensures commented { has_bad_byte (codes "a\t~ #\r\n") ≡ false }
    ensures within { has_bad_byte (codes "a#\r") ≡ true }
    ensures low { has_bad_byte (31 ∷ []) ≡ true }
    ensures high { has_bad_byte (32 ∷ 127 ∷ []) ≡ true }
{}

/// Numbers have 1 to so many digits, and leading zeros count as digits.
pub fn numbers()
    ensures zeros { number_of (codes "007") 9 1 64 ≡ Ok 7 }
    ensures sign { number_of (codes "+7") 9 1 64 ≡ Err BadNumber }
    ensures nothing { number_of [] 9 0 64 ≡ Err BadNumber }
    ensures many { number_of (codes "0000000007") 9 1 64 ≡ Err BadNumber }
    ensures above { number_of (codes "65") 9 1 64 ≡ Err OutOfRange }
    ensures below { number_of (codes "0") 9 1 64 ≡ Err OutOfRange }
{}
