//! Laws of the definition of scopes, which no program calls.

ghost use Rattle.std.specs.Prelude.{◌≡◌, ◌∷◌, [], ◌||◌, ℕ, false, None, Ok, Err, List, codes};
ghost use Rattle.std.specs.Str.{bytes_eq};
ghost use Rattle.tl_base.specs.declared.place.Pos.{Pos};
ghost use Rattle.lua_tree.specs.declared.syntax.Expr.{Expr};
ghost use Rattle.lua_tree.specs.declared.syntax.Stat.{Stat};
ghost use Rattle.lua_tree.specs.declared.syntax.Block.{Block};
ghost use Rattle.lua_tree.specs.Scopes.Events as says;
ghost use Rattle.lua_tree.specs.Scopes.Trees.{said_of, stat_of, block_of, scope};
ghost use Rattle.lua_tree.specs.Scopes.Lexical.{Keeps, Opens};
ghost use Rattle.lua_scope.specs.Examples.{own_initialiser, until_sees, IsNoName, S1_at, one_local_used};
ghost use Rattle.lua_tree.specs.Scopes.Resolved.{resolution};

/// Behind an expression the same locals are in scope as before it, whatever functions stand in it.
pub fn an_expression_declares_nothing()
    ensures { (e : Expr) → Keeps (said_of e).value }
{}

/// Behind a block or a loop's body the same locals are in scope as before it.
pub fn a_block_hides_what_it_declares()
    ensures in_block { (b : Block) → Keeps (scope says.block (block_of b)) }
    ensures in_loop { (b : Block) → Keeps (scope says.loop (block_of b)) }
{}

/// A statement ends in the blocks in which it began, and with no local that is declared and not yet visible.
pub fn a_statement_ends_where_it_began()
    ensures { (s : Stat) → Opens (stat_of s) }
{}

/// `local x = x` looks for another `x`.
pub fn a_local_is_not_seen_in_its_own_initialiser()
    ensures { (p q r : Pos) (x : List ℕ) → IsNoName x → S1_at r (resolution (own_initialiser p q r x)) }
{}

/// In `repeat local x until x` the condition's `x` is the local.
pub fn the_condition_of_repeat_sees_the_locals_of_its_body()
    ensures { (p q r : Pos) (x : List ℕ) → one_local_used (resolution (until_sees p q r x)) }
{}
