//! What assignments are.

ghost use Rattle.std.specs.Prelude.{◌≡◌, ◌<◌, ◌≤◌, ℕ};
ghost use Rattle.task_assign.specs.Squares.{Square, cost_at};
ghost use Rattle.task_assign.specs.Pairings.{IsPairing, total_of};
ghost use Rattle.task_assign.specs.Assignments.{Pairs, column_at, row_number_at, column_number_at, IsShown, IsAssignment};

/// What the checker accepts has the least total of all permutations.
pub fn shown_is_least()
    ensures { (square : Square) (pairs : Pairs) → IsShown square pairs →
        (other : ℕ → ℕ) → IsPairing square.size other → pairs.total ≤ total_of square.size (cost_at square) other }
{}

/// A square has one assignment: two have the same columns, numbers and total.
pub fn assignment_is_unique()
    ensures columns { (square : Square) (a b : Pairs) → IsAssignment square a → IsAssignment square b →
        (i : ℕ) → i < square.size → column_at a i ≡ column_at b i }
    ensures rows { (square : Square) (a b : Pairs) → IsAssignment square a → IsAssignment square b →
        (i : ℕ) → i < square.size → row_number_at a i ≡ row_number_at b i }
    ensures column_numbers { (square : Square) (a b : Pairs) → IsAssignment square a → IsAssignment square b →
        (j : ℕ) → j < square.size → column_number_at a j ≡ column_number_at b j }
    ensures total { (square : Square) (a b : Pairs) → IsAssignment square a → IsAssignment square b → a.total ≡ b.total }
{}
