//! Laws of what is read.
//!
//! A law is the contract of a function with an empty body.

ghost use Rattle.std.specs.Prelude.{◌≡◌, ℕ, ◌+◌, ◌≤◌, List, ◌++◌, length, Ok, Err};
ghost use Rattle.std.specs.List.{AllByRecursion};
ghost use Rattle.fleet_base.specs.declared.entries.Entry.{Entry};
ghost use Rattle.fleet_names.specs.Names.{Named, AreDeclared};
ghost use Rattle.site_lines.specs.Readings.{IsFirstFault, IsLeastCode, Row};
ghost use Rattle.site_lines.specs.declared.fault.Code.{Code};
ghost use Rattle.plan_journal.specs.Entries.{judged};
ghost use Rattle.site_lines.specs.declared.fault.At.{At};
ghost use Rattle.fleet_texts.specs.Texts.{journal_text};
ghost use Rattle.plan_journal.specs.Printable.{IsPrintable, IsPrintedFront};
ghost use Rattle.plan_journal.specs.Reading.{Front, Begun, ended_lines, journal_of, read_all, read_line};

/// An accepted text begins with the printed text of its entries, and each of them can be printed.
pub fn accepted_is_printed()
    ensures { (names : Named) (bytes : List ℕ) (front : Front) → AreDeclared names → journal_of names bytes ≡ Ok front → IsPrintedFront names bytes front }
{}

/// A refusal names the first bad line with what is said of it, or the end of the text.
pub fn first_bad_line_is_named()
    ensures { (names : Named) (bytes : List ℕ) (at : At) → journal_of names bytes ≡ Err at → IsFirstFault (read_line names) read_all 1 Begun (ended_lines bytes) at }
{}

/// The printed text of entries that can be printed is read again, whatever stands behind it.
pub fn printed_is_read_again()
    ensures { (names : Named) (entries : List Entry) (tail : List ℕ) → AreDeclared names → length entries ≤ 1000000 → AllByRecursion (IsPrintable names) entries
        → journal_of names (journal_text names entries ++ tail) ≡ Ok (record { entries = entries; used = length (journal_text names entries); lines = length entries + 2 }) }
{}

/// Where a line is judged by a table, its code is that of the first row that fits.
pub fn least_code_is_given()
    ensures { (rows : List Row) (entry : Entry) (code : Code) → judged rows entry ≡ Err code → IsLeastCode rows code }
{}
