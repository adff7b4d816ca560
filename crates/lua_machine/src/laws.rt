ghost use Rattle.std.specs.Prelude.{◌≡◌, ℕ, List, [], Some};
ghost use Rattle.tl_base.specs.declared.place.ModuleKind.{ModuleKind};
ghost use Rattle.lua_meaning.specs.World.{World};
ghost use Rattle.lua_meaning.specs.Programs.{Ending, start};
ghost use Rattle.lua_code.specs.declared.code.Proto.{Proto};
ghost use Rattle.lua_code.specs.Configurations.{Next, stop};
ghost use Rattle.lua_code.specs.Steps.{begin_turn, end_of, halts};
ghost use Rattle.lua_machine.specs.Outside.{with_outside};
ghost use Rattle.lua_machine.specs.Runs.{after};

/// A machine's run, which has nothing written before it and no input, stands for the runs with every outside: a run begins alike with every input,
/// its steps are the same whatever was written before and whatever input is left, and where it stops it has ended. Nothing is computed: the
/// contract is the law.
pub fn runs_keep_the_outside()
    ensures begins { (code : List Proto) (kinds : List ModuleKind) (words : List (List ℕ)) (input : List ℕ) (turns : ℕ) → begin_turn code turns (start kinds words input turns) ≡ with_outside [] input (begin_turn code turns (start kinds words [] turns)) }
    ensures steps { (code : List Proto) (out input : List ℕ) (k : ℕ) (n : Next) → after code k (with_outside out input n) ≡ with_outside out input (after code k n) }
    ensures ends { (code : List Proto) (k : ℕ) (n : Next) (e : Ending) (w : World) → after code k n ≡ stop e w → end_of (halts code k) n ≡ Some (record { ending = e; world = w }) }
{}
