//! What holds of every set.

ghost use Rattle.std.specs.Prelude.{ℕ, ◌≤◌, List, Option, length};
ghost use Rattle.std.specs.List.{AllByRecursion};
ghost use Rattle.step_unicode.specs.declared.set.State.{State};
ghost use Rattle.step_unicode.specs.declared.set.State.TheVariants.{Plain};
ghost use Rattle.step_unicode.specs.declared.set.Uni.{Uni};
ghost use Rattle.step_unicode.specs.Sets.{IsStateOf, IsUnit, IsSpellable, spelling};
ghost use Rattle.unit_relations.specs.Units.{AreApart, HaveBytes, AreShort, Reads};
ghost use Rattle.unit_relations.specs.Spellings.{Joins, IsShort};

/// In one state no unit begins another; a unit gives one answer, leads to one state, and has one to
/// eight bytes.
#[inline(always)]
pub fn units_are_apart()
    ensures apart { (set : Uni) → AreApart (IsUnit set) }
    ensures bytes { (set : Uni) → HaveBytes (IsUnit set) }
    ensures few { (set : Uni) → AreShort (IsUnit set) }
{}

/// A list is spelled part by part, and a point in at most eight bytes.
#[inline(always)]
pub fn spellings_join()
    ensures joins { (set : Uni) → Joins (spelling set) }
    ensures short { (set : Uni) → IsShort (spelling set) }
{}

/// A unit and a spelling lead from states of their set to such states; the initial one is one of every
/// set.
#[inline(always)]
pub fn states_stay()
    ensures first { (set : Uni) → IsStateOf set Plain }
    ensures read { (set : Uni) (s : State) (u : List ℕ) (q : Option ℕ) (t : State) →
        IsStateOf set s → IsUnit set s u q t → IsStateOf set t }
    ensures written { (set : Uni) (s : State) (q : List ℕ) →
        IsStateOf set s → IsStateOf set ((spelling set).after s q) }
{}

/// What a set spells, it reads as the same points; both leave one state.
pub fn spellings_read_back()
    ensures { (set : Uni) (s : State) (q : List ℕ) → IsStateOf set s → AllByRecursion (IsSpellable set) q →
        Reads (IsUnit set) s ((spelling set).bytes s q) q ((spelling set).after s q) }
{}
