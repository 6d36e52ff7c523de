//! Samples of the definitions of names, written out and proved by computing them.

ghost use Rattle.std.specs.Prelude.{◌≡◌, true, false, [], ◌∷◌, codes, Some, None};
ghost use Rattle.fleet_names.specs.declared.thing.Thing.TheVariants.{Cell, Area, Robot};
ghost use Rattle.fleet_names.specs.Names.{is_name, thing_of, name_of, count_of};
ghost use Rattle.fleet_names.specs.Things.{is_cell, same_kind};

/// Names have 1 to 32 bytes of `a` to `z`, `0` to `9` and `_`.
pub fn names()
    ensures short { is_name (codes "a") ≡ true }
    ensures long { is_name (codes "abcdefghijklmnopqrstuvwxyz_01289") ≡ true }
    ensures keyword { is_name (codes "cell") ≡ true }
    ensures nothing { is_name [] ≡ false }
    ensures longer { is_name (codes "abcdefghijklmnopqrstuvwxyz_012893") ≡ false }
    ensures capital { is_name (codes "aZ") ≡ false }
    ensures sign { is_name (codes "a-b") ≡ false }
{}

/// Cells, areas and robots share one name space, and are numbered each for themselves.
pub fn things()
    ensures found { thing_of ((codes "a", Cell 0) ∷ (codes "r1", Robot 0) ∷ (codes "b", Cell 1) ∷ []) (codes "b") ≡ Some (Cell 1) }
    ensures missed { thing_of ((codes "a", Cell 0) ∷ (codes "r1", Robot 0) ∷ []) (codes "r") ≡ None }
    ensures named { name_of ((codes "a", Cell 0) ∷ (codes "r1", Robot 0) ∷ []) (Robot 0) ≡ Some (codes "r1") }
    ensures other_kind { name_of ((codes "a", Cell 0) ∷ (codes "r1", Robot 0) ∷ []) (Area 0) ≡ None }
    ensures cells { count_of is_cell ((codes "a", Cell 0) ∷ (codes "r1", Robot 0) ∷ (codes "b", Cell 1) ∷ []) ≡ 2 }
    ensures kind { count_of (same_kind (Robot 5)) ((codes "a", Cell 0) ∷ (codes "r1", Robot 0) ∷ []) ≡ 1 }
{}
