ghost use Rattle.std.specs.Prelude.{◌≡◌, ℕ, ◌+◌, List, ◌∷◌, length, Some};
ghost use Rattle.tl_base.specs.declared.place.ModuleKind.{ModuleKind};
ghost use Rattle.lua_meaning.specs.Programs.{Module, Result};
ghost use Rattle.lua_code.specs.declared.code.Code.{Code};
ghost use Rattle.lua_code.specs.Faithful.{IsFaithful};
ghost use Rattle.lua_code.specs.Generated.{program};
ghost use Rattle.lua_code.specs.Shapes.{IsWellFormed};
ghost use Rattle.lua_code.specs.Steps.{run};

/// A run that has ended stays as it ended, however many steps more it is given, and so it has one end. Nothing is computed: the contract is the law.
pub fn runs_end_once()
    ensures more { (code : Code) (kinds : List ModuleKind) (words : List (List ℕ)) (input : List ℕ) (turns n k : ℕ) (r : Result) → run code kinds words input turns n ≡ Some r → run code kinds words input turns (n + k) ≡ Some r }
    ensures one { (code : Code) (kinds : List ModuleKind) (words : List (List ℕ)) (input : List ℕ) (turns n m : ℕ) (r q : Result) → run code kinds words input turns n ≡ Some r → run code kinds words input turns m ≡ Some q → r ≡ q }
{}

/// The code of a program, as the definition of the generator gives it, has the program's meaning: for every list of file words, every input and
/// every number of turns its run ends with the same output, the same ending, the same turns and the same records. Nothing is asked of the
/// modules but that there is one. Nothing is computed: the contract is the law.
pub fn code_has_the_meaning()
    ensures { (m : Module) (ms : List Module) → IsFaithful (m ∷ ms) (program (m ∷ ms)) }
{}

/// The code of a program, as the definition of the generator gives it, is well formed: each instruction has a shape that says what stands on the
/// stack and in the slots before it, all steps agree with the shapes, and all numbers are in range. Nothing is asked of the modules but that there
/// is one. Nothing is computed: the contract is the law.
pub fn code_is_well_formed()
    ensures { (m : Module) (ms : List Module) → IsWellFormed (program (m ∷ ms)) (length (m ∷ ms)) }
{}
