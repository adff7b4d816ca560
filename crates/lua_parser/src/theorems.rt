//! Laws of the grammar, which no program calls.

ghost use Rattle.std.specs.Prelude.{◌≡◌, ℕ, ◌+◌, ◌<◌, ◌⊎◌, ◌∷◌, ◌++◌, length, get_or};
ghost use Rattle.tl_base.specs.declared.place.ModuleKind.{ModuleKind};
ghost use Rattle.tl_base.specs.declared.refusal.RefusalCode.{RefusalCode};
ghost use Rattle.lua_tree.specs.declared.syntax.Block.{Block};
ghost use Rattle.lua_parser.specs.Words.{Word, Words};
ghost use Rattle.lua_parser.specs.Grammar.Syntax.{SpellsChunk};
ghost use Rattle.lua_parser.specs.Grammar.Fault.{FaultAt, HasCode};
ghost use Rattle.lua_parser.specs.Grammar.Depth.{labels};
ghost use Rattle.lua_parser.specs.Grammar.TooDeep.{Limits, TooDeepAt, plain};
ghost use Rattle.lua_parser.specs.Parts.{parts_of, AreNumbered};

/// Words spell at most one tree.
pub fn at_most_one_tree()
    ensures { (kind : ModuleKind) (ts : Words) (a b : Block) → SpellsChunk kind a ts → SpellsChunk kind b ts → a ≡ b }
{}

/// Words spell a tree, or they have a first word with which no spelling goes on.
pub fn tree_or_fault()
    ensures { (kind : ModuleKind) (ts : Words) → ((b : Block) × SpellsChunk kind b ts) ⊎ ((rest : Words) × FaultAt kind ts rest) }
{}

/// Words that spell a tree have no such word.
pub fn no_fault_in_a_tree()
    ensures { (kind : ModuleKind) (ts rest : Words) (b : Block) → SpellsChunk kind b ts → FaultAt kind ts rest → ⊥ }
{}

/// Words have at most one first fault.
pub fn at_most_one_fault()
    ensures { (kind : ModuleKind) (ts p q : Words) → FaultAt kind ts p → FaultAt kind ts q → p ≡ q }
{}

/// A fault has exactly one code.
pub fn one_code()
    ensures code { (front : Words) (x : Word) (rest : Words) → (c : RefusalCode) × HasCode front (x ∷ rest) c }
    ensures no_other { (front rest : Words) (c d : RefusalCode) → HasCode front rest c → HasCode front rest d → c ≡ d }
{}

/// At most one word is the first that is too deep, whatever the limits.
pub fn at_most_one_too_deep()
    ensures { (m : Limits) (kind : ModuleKind) (ts p q : Words) → TooDeepAt m kind ts p → TooDeepAt m kind ts q → p ≡ q }
{}

/// The first word that is too deep stands before the first word with which no spelling goes on.
pub fn too_deep_before_fault()
    ensures { (m : Limits) (kind : ModuleKind) (ts p q : Words) → TooDeepAt m kind ts p → FaultAt kind ts q → length q < length p }
{}

/// In each spelling of the same words each word has the same label.
pub fn one_label()
    ensures { (kind : ModuleKind) (ts : Words) (a b : Block) (x : SpellsChunk kind a ts) (y : SpellsChunk kind b ts) → labels x ≡ labels y }
{}

/// How many constructs a word is inside of is the same in all modules that begin with the same words up to this one.
pub fn nesting_stays()
    ensures { (kind : ModuleKind) (ts more other : Words) (a b : Block) (x : SpellsChunk kind a (ts ++ more)) (y : SpellsChunk kind b (ts ++ other)) (n : ℕ)
        → n < length ts → (get_or (labels x) n plain).inside ≡ (get_or (labels y) n plain).inside }
{}

/// A word's label is the same in all modules that begin with the same words up to the second behind this one.
pub fn label_stays()
    ensures { (kind : ModuleKind) (ts more other : Words) (a b : Block) (x : SpellsChunk kind a (ts ++ more)) (y : SpellsChunk kind b (ts ++ other)) (n : ℕ)
        → n + 2 < length ts → get_or (labels x) n plain ≡ get_or (labels y) n plain }
{}

/// The uses of names in a spelled tree are numbered from 0 on in order of place, and it has together fewer uses, locals and function bodies than words.
pub fn uses_are_numbered()
    ensures numbered { (kind : ModuleKind) (ts : Words) (b : Block) → SpellsChunk kind b ts → AreNumbered 0 (parts_of b) }
    ensures fewer { (kind : ModuleKind) (ts : Words) (b : Block) → SpellsChunk kind b ts → length (parts_of b) < length ts }
{}
