//! Laws of the definitions, each the contract of a function that does nothing.

ghost use Rattle.std.specs.Prelude.{◌≡◌, ◌↔◌, ℕ, zero, suc, ℤ, Bool, true, false, ◌&&◌, List, [], ◌∷◌, Contains, flat_map};
ghost use Rattle.std.specs.List.{list_any, list_all, IsDistinct};
ghost use Rattle.tl_types.specs.declared.types.Ty.{Ty};
ghost use Rattle.tl_types.specs.declared.types.Ty.TheVariants as ty;
ghost use Rattle.tl_types.specs.declared.types.Ty.TheOpen.{Rec};
ghost use Rattle.tl_types.specs.declared.types.FuncOf.{FuncOf};
ghost use Rattle.tl_types.specs.declared.flow.Flow.{Flow};
ghost use Rattle.tl_types.specs.Types.{Field, Bodies, members, unfolded};
ghost use Rattle.tl_types.specs.Same.{same_type};
ghost use Rattle.tl_types.specs.Unions.{is_any, is_value, is_covered, union_form, general_form};
ghost use Rattle.tl_types.specs.Below.{below, IsBelow, IsSubtype, IsConsistent, IsFlow};
ghost use Rattle.tl_types.specs.Cases.{IsNoUnion, Case, EachPlace, EachTuple, EachField};
ghost use Rattle.tl_types.specs.Laws.{AtDepth};

/// The test for the same tree holds exactly of equal types.
pub fn equality_is_decided()
    ensures { (s t : Ty) → (same_type s t ≡ true) ↔ (s ≡ t) }
{}

/// A union with a member `any` is `any`, else one with a member `value` is `value`, and the union of nothing is `never`.
pub fn unions_are_absorbed()
    ensures any { (ts : List Ty) → list_any is_any (flat_map members ts) ≡ true → union_form ts ≡ ty.Any }
    ensures value { (ts : List Ty) → list_any is_any (flat_map members ts) ≡ false → list_any is_value (flat_map members ts) ≡ true → union_form ts ≡ ty.Value }
    ensures never { union_form [] ≡ ty.Union [] }
{}

/// A union is flat, has no member twice and no literal beside its base type. Its members are those given that aren't covered by a base type.
pub fn unions_are_tidy()
    ensures flat { (ts us : List Ty) → union_form ts ≡ ty.Union us → (u : Ty) → Contains us u → IsNoUnion u }
    ensures once { (ts us : List Ty) → union_form ts ≡ ty.Union us → IsDistinct same_type us }
    ensures integers { (ts us : List Ty) → union_form ts ≡ ty.Union us → Contains us ty.Int → (n : ℤ) → Contains us (ty.IntLit n) → ⊥ }
    ensures strings { (ts us : List Ty) → union_form ts ≡ ty.Union us → Contains us ty.Str → (s : List ℕ) → Contains us (ty.StrLit s) → ⊥ }
    ensures has { (ts us : List Ty) → union_form ts ≡ ty.Union us → (t : Ty) → Contains us t → Contains (flat_map members ts) t × (is_covered (flat_map members ts) t ≡ false) }
    ensures keeps { (ts us : List Ty) → union_form ts ≡ ty.Union us → (t : Ty) → Contains (flat_map members ts) t → is_covered (flat_map members ts) t ≡ false → Contains us t }
{}

/// To depth 0 each type is below each, and to depth n + 1 exactly where one of the cases holds with components compared to depth n.
pub fn orders_have_their_cases()
    ensures start { (loose : Bool) (bodies : Bodies) (s t : Ty) → below loose bodies zero s t ≡ true }
    ensures cases { (loose : Bool) (bodies : Bodies) (n : ℕ) (s t : Ty) → (below loose bodies (suc n) s t ≡ true) ↔ Case loose bodies (AtDepth loose bodies n) s t }
{}

/// What is below to a depth is below to each lesser one, and what is below plainly is below consistently.
pub fn orders_fall_with_depth()
    ensures falls { (loose : Bool) (bodies : Bodies) (n : ℕ) (s t : Ty) → below loose bodies (suc n) s t ≡ true → below loose bodies n s t ≡ true }
    ensures loosens { (bodies : Bodies) (n : ℕ) (s t : Ty) → below false bodies n s t ≡ true → below true bodies n s t ≡ true }
    ensures consistent { (bodies : Bodies) (s t : Ty) → IsSubtype bodies s t → IsConsistent bodies s t }
{}

/// Both orders are reflexive, and the plain one is transitive.
pub fn orders_compare()
    ensures itself { (loose : Bool) (bodies : Bodies) (t : Ty) → IsBelow loose bodies t t }
    ensures passes { (bodies : Bodies) (s t u : Ty) → IsSubtype bodies s t → IsSubtype bodies t u → IsSubtype bodies s u }
    ensures passes_to_depth { (bodies : Bodies) (n : ℕ) (s t u : Ty) → below false bodies n s t ≡ true → below false bodies n t u ≡ true → below false bodies n s u ≡ true }
{}

/// A union is below a type exactly where each member is. What is below a member is below the union, and to each depth a type that is no union is
/// below a union only so.
pub fn unions_compare_by_members()
    ensures from { (loose : Bool) (bodies : Bodies) (ms : List Ty) (t : Ty) → IsBelow loose bodies (ty.Union ms) t ↔ ((m : Ty) → Contains ms m → IsBelow loose bodies m t) }
    ensures to { (loose : Bool) (bodies : Bodies) (s m : Ty) (ms : List Ty) → Contains ms m → IsBelow loose bodies s m → IsBelow loose bodies s (ty.Union ms) }
    ensures only { (loose : Bool) (bodies : Bodies) (n : ℕ) (s : Ty) (ms : List Ty) → IsNoUnion s → (loose && is_any s) ≡ false → below loose bodies (suc n) s (ty.Union ms) ≡ list_any (λ m. below loose bodies (suc n) s m) ms }
{}

/// The same of the union that is built: to each depth it is below a type exactly where each of its types is, and a type that is no union is below
/// it exactly where it is below one of its types.
pub fn unions_are_bounds()
    ensures from { (loose : Bool) (bodies : Bodies) (n : ℕ) (ts : List Ty) (t : Ty) → (loose && list_any is_any (flat_map members ts)) ≡ false → below loose bodies (suc n) (union_form ts) t ≡ list_all (λ s. below loose bodies (suc n) s t) ts }
    ensures to { (loose : Bool) (bodies : Bodies) (n : ℕ) (s : Ty) (ts : List Ty) → IsNoUnion s → (loose && is_any s) ≡ false → below loose bodies (suc n) s (union_form ts) ≡ list_any (λ t. below loose bodies (suc n) s t) ts }
{}

/// A function is below another exactly where its parameters are above place by place and, to each depth, each tuple of its results is below one
/// of the other's.
pub fn functions_compare_by_parts()
    ensures { (loose : Bool) (bodies : Bodies) (f g : FuncOf Ty) → IsBelow loose bodies (ty.Func f) (ty.Func g) ↔ (EachPlace (IsBelow loose bodies) g.params f.params × ((n : ℕ) → EachTuple (AtDepth loose bodies n) f.results.tuples g.results.tuples)) }
{}

/// Types that stand for records compare by their fields.
pub fn records_compare_by_fields()
    ensures { (loose : Bool) (bodies : Bodies) (s t : Ty) (fs gs : List Field) → unfolded bodies s ≡ Rec fs → unfolded bodies t ≡ Rec gs → IsBelow loose bodies s t ↔ EachField (IsBelow loose bodies) fs gs }
{}

/// Maps compare by keys and values, both ways.
pub fn maps_compare_both_ways()
    ensures { (loose : Bool) (bodies : Bodies) (k v l w : Ty) → IsBelow loose bodies (ty.Map k v) (ty.Map l w) ↔ ((IsBelow loose bodies k l × IsBelow loose bodies l k) × (IsBelow loose bodies v w × IsBelow loose bodies w v)) }
{}

/// A type is a subtype of its general form.
pub fn general_forms_are_above()
    ensures { (bodies : Bodies) (t : Ty) → IsSubtype bodies t (general_form t) }
{}

/// A type flows to another in one way at most.
pub fn flows_are_one()
    ensures { (bodies : Bodies) (s t : Ty) (f g : Flow) → IsFlow bodies s t f → IsFlow bodies s t g → f ≡ g }
{}
