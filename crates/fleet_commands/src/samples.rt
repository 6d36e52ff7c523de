//! Samples of what lines of commands say, written out and proved by computing the definitions.
//!
//! They are read behind seven lines of a scenario with the cells `a` to `d`, the crossing `x`, the
//! area `yard` and the robots `r1` and `r2`.

ghost use Rattle.std.specs.Prelude.{◌≡◌, ◌≢◌, ◌<◌, ◌≤◌, ℕ, List, [], ◌∷◌, ◌++◌, length, codes, Some, Ok};
ghost use Rattle.fleet_names.specs.Names.{Named};
ghost use Rattle.site_lines.specs.Readings.{least_code};
ghost use Rattle.fleet_model.specs.Calls as call;
ghost use Rattle.fleet_commands.specs.Commands.{call_of};
ghost use Rattle.fleet_commands.specs.Examples.{said, asks, cells, bad, junction_site};
ghost use Rattle.fleet_commands.specs.Reading.{faults_of};

use fleet_calls::request::Request;
use site_lines::fault::Code;
use site_map::goal::Goal;

/// Each command, and what it asks.
pub fn commands()
    ensures propose { said (codes "propose r2 a b d") ≡ Ok (asks 1 (Request.Propose (cells (0 ∷ 1 ∷ 3 ∷ []))) ∷ []) }
    ensures retry { said (codes "retry r1") ≡ Ok (asks 0 Request.Retry ∷ []) }
    ensures cancel { said (codes "cancel r1") ≡ Ok (asks 0 Request.Cancel ∷ []) }
    ensures withdraw { said (codes "withdraw r1") ≡ Ok (asks 0 Request.Withdraw ∷ []) }
    ensures replan_cell { said (codes "replan r1 b") ≡ Ok (asks 0 (Request.Replan (Goal.Cell (record { 0 = 1 }))) ∷ []) }
    ensures replan_area { said (codes "replan r1 yard") ≡ Ok (asks 0 (Request.Replan (Goal.Area 0)) ∷ []) }
    ensures report { said (codes "report r1 000000000000017") ≡ Ok (asks 0 (Request.Report (record { 0 = 17 })) ∷ []) }
    ensures look { said (codes "look r2") ≡ Ok (asks 1 Request.Look ∷ []) }
{}

/// The call that each command is, with its robot. The goal of a replan is a cell or an area's cells.
pub fn calls()
    ensures propose { call_of junction_site (asks 1 (Request.Propose (cells (0 ∷ 1 ∷ [])))) ≡ (1, call.Propose (cells (0 ∷ 1 ∷ []))) }
    ensures retry { call_of junction_site (asks 0 Request.Retry) ≡ (0, call.Retry) }
    ensures cancel { call_of junction_site (asks 0 Request.Cancel) ≡ (0, call.Cancel) }
    ensures withdraw { call_of junction_site (asks 0 Request.Withdraw) ≡ (0, call.Withdraw) }
    ensures replan_cell { call_of junction_site (asks 0 (Request.Replan (Goal.Cell (record { 0 = 2 })))) ≡ (0, call.Replan (cells (2 ∷ []))) }
    ensures replan_area { call_of junction_site (asks 0 (Request.Replan (Goal.Area 0))) ≡ (0, call.Replan (cells (1 ∷ 3 ∷ []))) }
    ensures report { call_of junction_site (asks 0 (Request.Report (record { 0 = 7 }))) ≡ (0, call.Report (record { 0 = 7 })) }
    ensures look { call_of junction_site (asks 1 Request.Look) ≡ (1, call.LookAt) }
{}

/// Lines are read in order; blank ones and comments say nothing, and are counted.
pub fn lines()
    ensures nothing { said [] ≡ Ok [] }
    ensures several { said (codes "look r1\n\n  # look\n\tretry  r2 # again\r\n") ≡ Ok (asks 0 Request.Look ∷ asks 1 Request.Retry ∷ []) }
    ensures counted { said (codes "look r1\n\n# look\ngo r1\n") ≡ bad 11 Code.C3 }
    ensures first { said (codes "look r1\nlook\ngo\n") ≡ bad 9 Code.C4 }
{}

/// A line that is too long has no other code, whatever stands in it. 65,536 bytes aren't too many.
pub fn too_long_lines()
    ensures longer { (names : Named) (line : List ℕ) → 65536 < length line → least_code (faults_of names line) ≡ Some Code.C1 }
    ensures longest { (names : Named) (line : List ℕ) → length line ≤ 65536 → least_code (faults_of names line) ≢ Some Code.C1 }
{}

/// Bytes are judged outside a comment alone.
pub fn bad_bytes()
    ensures high { said (codes "look r1 " ++ 127 ∷ []) ≡ bad 8 Code.C2 }
    ensures before_keyword { said (codes "go " ++ 200 ∷ codes " r1") ≡ bad 8 Code.C2 }
    ensures blank { said (32 ∷ 11 ∷ []) ≡ bad 8 Code.C2 }
    ensures returned { said (codes "look r1\r\r\n") ≡ bad 8 Code.C2 }
    ensures word { said (codes "look r1#" ++ 200 ∷ []) ≡ bad 8 Code.C2 }
    ensures comment { said (codes "look r1 #" ++ 200 ∷ 0 ∷ []) ≡ Ok (asks 0 Request.Look ∷ []) }
{}

/// The first word is one of the commands, in small letters.
pub fn keywords()
    ensures other { said (codes "go r1") ≡ bad 8 Code.C3 }
    ensures ask { said (codes "ask look r1") ≡ bad 8 Code.C3 }
    ensures capital { said (codes "Look r1") ≡ bad 8 Code.C3 }
    ensures scenario { said (codes "end") ≡ bad 8 Code.C3 }
    ensures before_number { said (codes "reports zz -1") ≡ bad 8 Code.C3 }
{}

/// Too few words come before all that they say.
pub fn too_few_words()
    ensures robot { said (codes "withdraw") ≡ bad 8 Code.C4 }
    ensures cells { said (codes "propose r1") ≡ bad 8 Code.C4 }
    ensures goal { said (codes "replan r1 # b") ≡ bad 8 Code.C4 }
    ensures before_name { said (codes "propose zz") ≡ bad 8 Code.C4 }
    ensures before_kind { said (codes "report a") ≡ bad 8 Code.C4 }
{}

/// Too many words come before all that they say. A proposal has any number of cells.
pub fn too_many_words()
    ensures robot { said (codes "retry r1 a") ≡ bad 8 Code.C5 }
    ensures goal { said (codes "replan r1 a b") ≡ bad 8 Code.C5 }
    ensures before_number { said (codes "report r1 -1 2") ≡ bad 8 Code.C5 }
    ensures before_name { said (codes "look zz a") ≡ bad 8 Code.C5 }
{}

/// Event numbers are 1 to 15 digits.
pub fn numbers()
    ensures minus { said (codes "report r1 -1") ≡ bad 8 Code.C6 }
    ensures plus { said (codes "report r1 +1") ≡ bad 8 Code.C6 }
    ensures digits { said (codes "report r1 0000000000000001") ≡ bad 8 Code.C6 }
    ensures most { said (codes "report r1 999999999999999") ≡ Ok (asks 0 (Request.Report (record { 0 = 999999999999999 })) ∷ []) }
    ensures before_name { said (codes "report zz 1a") ≡ bad 8 Code.C6 }
{}

/// Names are declared, and name a thing of the kind that is wanted.
pub fn names()
    ensures robot { said (codes "look zz") ≡ bad 8 Code.C7 }
    ensures no_name { said (codes "look R1") ≡ bad 8 Code.C7 }
    ensures kind { said (codes "look a") ≡ bad 8 Code.C7 }
    ensures cell { said (codes "propose r1 a r2") ≡ bad 8 Code.C7 }
    ensures area { said (codes "propose r1 yard") ≡ bad 8 Code.C7 }
    ensures both { said (codes "propose a x") ≡ bad 8 Code.C7 }
    ensures goal { said (codes "replan r1 x") ≡ bad 8 Code.C7 }
    ensures reporting { said (codes "report yard 1") ≡ bad 8 Code.C7 }
{}
