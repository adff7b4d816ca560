//! Laws of the definitions, each the contract of a function that does nothing.

ghost use Rattle.std.specs.Prelude.{◌≡◌, List, []};
ghost use Rattle.tl_base.specs.declared.crossing.Crossing.{Crossing};
ghost use Rattle.tl_base.specs.declared.place.ModuleKind.{ModuleKind};
ghost use Rattle.lua_tree.specs.declared.scoped.Use.{Use};
ghost use Rattle.lua_tree.specs.Plain.{plain_block};
ghost use Rattle.lua_tree.specs.Tree.{Block};
ghost use Rattle.tl_types.specs.Below.{Test};
ghost use Rattle.tl_rules.specs.Checked.{fine};
ghost use Rattle.tl_rules.specs.Crossings.{IsCrossingList};
ghost use Rattle.tl_rules.specs.Orders.{AreOrders, plain_order, loose_order};
ghost use Rattle.tl_rules.specs.Statements.{check_module};

/// Marks have one crossing list at most.
pub fn crossing_lists_are_unique()
    ensures { (marks list other : List Crossing) → IsCrossingList marks list → IsCrossingList marks other → list ≡ other }
{}

/// Where there are no interfaces, there are tests that decide plain and consistent subtyping.
pub fn orders_are_decided()
    ensures { AreOrders [] plain_order loose_order }
{}

/// What the rules take differs from its marked form in marks alone: without marks and annotations both are the same tree.
pub fn typing_adds_marks_alone()
    ensures { (uses : List Use) (plain loose : Test) (kind : ModuleKind) (body made : Block) → check_module uses plain loose kind body ≡ fine made → plain_block made ≡ plain_block body }
{}
