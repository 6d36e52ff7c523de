//! Laws of texts of commands.

ghost use Rattle.std.specs.Prelude.{◌≡◌, ◌↔◌, ◌<◌, ℕ, not, is_some, All, List, length, None, Ok, Err};
ghost use Rattle.fleet_base.specs.declared.numbers.CellNo.{CellNo};
ghost use Rattle.fleet_model.specs.Calls.{unknown_at};
ghost use Rattle.fleet_names.specs.Names.{Named, count_of};
ghost use Rattle.fleet_names.specs.Things.{is_area, is_cell};
ghost use Rattle.site_lines.specs.declared.fault.At.{At};
ghost use Rattle.site_lines.specs.Words.{words_of, is_blank};
ghost use Rattle.site_map.specs.Built.{BuiltSite};
ghost use Rattle.site_map.specs.Claims.{site_of};
ghost use Rattle.site_map.specs.Goals.{IsGoal};
ghost use Rattle.site_map.specs.declared.goal.Goal.{Goal};
ghost use Rattle.fleet_commands.specs.Commands.{IsDeclaredGoal};
ghost use Rattle.fleet_commands.specs.Reading.{command_in, commands_of};
ghost use Rattle.fleet_commands.specs.Texts.{AreSaid, IsFirstBad, IsGoodLine};
ghost use Rattle.fleet_commands.specs.declared.command.Command.{Command};

/// A good line says a command exactly where it isn't blank.
pub fn good_lines_say_commands()
    ensures { (names : Named) (line : List ℕ) → IsGoodLine names line →
        is_some (command_in names (words_of line)) ≡ not (is_blank line) }
{}

/// A text is accepted exactly where each of its lines is good, and its commands are those that its
/// lines say, in order.
pub fn good_texts_are_accepted()
    ensures { (names : Named) (n : ℕ) (bytes : List ℕ) (commands : List Command) →
        (commands_of names n bytes ≡ Ok commands) ↔ AreSaid names bytes commands }
{}

/// A text is refused exactly at its first bad line, with the least code of that line.
pub fn refusals_name_the_first_bad_line()
    ensures { (names : Named) (n : ℕ) (bytes : List ℕ) (at : At) →
        (commands_of names n bytes ≡ Err at) ↔ IsFirstBad names n bytes at }
{}

/// Where the names are those of a site, cells that have names are cells of the site, and a goal
/// that has a name is one of its goals.
pub fn declared_things_are_of_the_site()
    ensures cells { (names : Named) (site : BuiltSite) (cells : List CellNo) →
        count_of is_cell names ≡ site.cells →
        All (λ c. c.0 < count_of is_cell names) cells → unknown_at (site_of site) cells ≡ None }
    ensures goal { (names : Named) (site : BuiltSite) (goal : Goal) →
        count_of is_cell names ≡ site.cells → count_of is_area names ≡ length site.areas →
        IsDeclaredGoal names goal → IsGoal site goal }
{}
