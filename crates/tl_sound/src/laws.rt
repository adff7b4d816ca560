ghost use Rattle.std.specs.Prelude.{◌≡◌, ℕ, List, [], ◌∷◌, IfSome, Contains};
ghost use Rattle.tl_base.specs.declared.crossing.Crossing.{Crossing};
ghost use Rattle.tl_types.specs.Below.{Test};
ghost use Rattle.tl_rules.specs.Crossings.{IsCrossingList, block_marks};
ghost use Rattle.lua_meaning.specs.PlainPrograms.{IsSameRun};
ghost use Rattle.lua_meaning.specs.Programs.{Module, meaning};
ghost use Rattle.tl_sound.specs.Laws.{IsMarked, HasMark, IsAfterOneOf, main_marks};

use lua_meaning::plain_programs_run_alike;

/// Soundness. The rules take a module m, and m' is its marked form; it is run with any file words, any input and any number of turns.
/// Where an operation then fails for the kind of an operand, at a place of a typed module, a mark was passed before.
pub fn errors_follow_marks()
    ensures { (below consistent : Test) (m m' : Module) (words : List (List ℕ)) (input : List ℕ) (n : ℕ) → IsMarked below consistent m m' → IfSome (meaning (m' ∷ []) words input n).error HasMark }
{}

/// The marks that a run passes are marks of the main module's tree, so they stand on the list that was printed before the run.
pub fn marks_are_listed()
    ensures first { (ms : List Module) (words : List (List ℕ)) (input : List ℕ) (n : ℕ) (list : List Crossing) → IsCrossingList (main_marks ms) list → IfSome (meaning ms words input n).mark (Contains list) }
    ensures after { (ms : List Module) (words : List (List ℕ)) (input : List ℕ) (n : ℕ) (list : List Crossing) → IsCrossingList (main_marks ms) list → IfSome (meaning ms words input n).error (λ e. IfSome e.after (Contains list)) }
{}

/// Both together: where the report names an operand-kind error of a typed module, it names a crossing of the printed list as well.
pub fn errors_name_crossings()
    ensures { (below consistent : Test) (m m' : Module) (words : List (List ℕ)) (input : List ℕ) (n : ℕ) (list : List Crossing) → IsMarked below consistent m m' → IsCrossingList (block_marks m'.body) list → IfSome (meaning (m' ∷ []) words input n).error (IsAfterOneOf list) }
{}

/// What a module does isn't changed by typing it: the marked form has the same output, the same ending and the same turns.
pub fn typed_modules_run_alike()
    ensures { (below consistent : Test) (m m' : Module) (words : List (List ℕ)) (input : List ℕ) (n : ℕ) → IsMarked below consistent m m' → IsSameRun (meaning (m' ∷ []) words input n) (meaning (m ∷ []) words input n) }
{
    plain_programs_run_alike();
}
