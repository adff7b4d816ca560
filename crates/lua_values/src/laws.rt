ghost use Rattle.std.specs.Prelude.{◌≡◌, ℕ, suc, ◌≤◌, ℤ, pos, negsuc, ◌+ℤ◌, ◌*ℤ◌, ◌≤ℤ◌, ◌<ℤ◌, ◌↔◌, FitsSigned, false, [], ◌∷◌, ◌++◌, Option, None, Some};
ghost use Rattle.std.specs.Int.{w64};
ghost use Rattle.std.specs.Map.{keys_of};
ghost use Rattle.lua_values.specs.Integers.{word, floor_div, floor_mod, quotient, remainder, shift_left, shift_right};
ghost use Rattle.lua_values.specs.Laws.{DifferByWords, IsListed, IsUnlisted, AreRemoved};
ghost use Rattle.lua_values.specs.Tables.{Entries, get, set, next_of, AreDistinct, nth, IsBorder, border};
ghost use Rattle.lua_values.specs.Values.{same_value, is_nil};
ghost use Rattle.lua_values.specs.declared.value.Value.{Value};
ghost use Rattle.lua_values.specs.declared.value.Value.TheVariants.{Nil};

/// The quotient times the divisor, and the remainder added, is the dividend.
pub fn quotient_and_remainder()
    ensures { (a b : ℤ) → (floor_div a b *ℤ b) +ℤ floor_mod a b ≡ a }
{}

/// The remainder is nearer to 0 than the divisor, and where it isn't 0, it has the divisor's sign.
pub fn remainder_has_sign_of_divisor()
    ensures positive { (a b : ℤ) → pos 0 <ℤ b → (pos 0 ≤ℤ floor_mod a b) × (floor_mod a b <ℤ b) }
    ensures negative { (a b : ℤ) → b <ℤ pos 0 → (b <ℤ floor_mod a b) × (floor_mod a b ≤ℤ pos 0) }
{}

/// 0 is the one divisor by which there is no quotient and no remainder.
pub fn division_fails_by_zero()
    ensures quotient { (a b : ℤ) → (quotient a b ≡ None) ↔ (b ≡ pos 0) }
    ensures remainder { (a b : ℤ) → (remainder a b ≡ None) ↔ (b ≡ pos 0) }
{}

/// A shift by 64 places or more leaves 0, and a negative amount shifts the other way.
pub fn shifts_empty_words()
    ensures left { (a : ℤ) (k : ℕ) → 64 ≤ k → shift_left a (pos k) ≡ pos 0 }
    ensures right { (a : ℤ) (k : ℕ) → FitsSigned w64 a → 64 ≤ k → shift_right a (pos k) ≡ pos 0 }
    ensures left_negative { (a : ℤ) (k : ℕ) → shift_left a (negsuc k) ≡ shift_right a (pos (suc k)) }
    ensures right_negative { (a : ℤ) (k : ℕ) → shift_right a (negsuc k) ≡ shift_left a (pos (suc k)) }
{}

/// The word of a whole number is an integer of 64 bits that differs from it by a multiple of 2^64, and an integer of 64 bits is its own.
pub fn words_wrap()
    ensures fits { (z : ℤ) → FitsSigned w64 (word z) }
    ensures same { (z : ℤ) → FitsSigned w64 z → word z ≡ z }
    ensures differs { (z : ℤ) → DifferByWords z (word z) }
{}

/// After a store, the key has the value that was stored, and every other key has what it had.
pub fn tables_give_what_was_stored()
    ensures same { (es : Entries) (k v : Value) → get (set es k v) k ≡ v }
    ensures other { (es : Entries) (k j v : Value) → same_value j k ≡ false → get (set es k v) j ≡ get es j }
{}

/// Keys stand in the order in which they were first assigned, each once. A removed key keeps its place, and has it again when it is stored again.
/// To store nil at a key that was never assigned changes nothing.
pub fn keys_keep_their_places()
    ensures once { (es : Entries) (k v : Value) → AreDistinct es → AreDistinct (set es k v) }
    ensures listed { (es : Entries) (k v : Value) → IsListed es k → keys_of (set es k v) ≡ keys_of es }
    ensures again { (es : Entries) (k v : Value) → IsListed es k → keys_of (set (set es k Nil) k v) ≡ keys_of es }
    ensures new { (es : Entries) (k v : Value) → IsUnlisted es k → is_nil v ≡ false → set es k v ≡ es ++ (k, Some v) ∷ [] }
    ensures nothing { (es : Entries) (k : Value) → IsUnlisted es k → set es k Nil ≡ es }
{}

/// `next` begins at nil, goes from each key to the first one behind it that has a value, and passes over the removed ones. Where there is none
/// it ends. A key that was never assigned has no next one.
pub fn next_goes_in_order()
    ensures begin { (gone rest : Entries) (k v : Value) → AreRemoved gone → next_of (gone ++ (k, Some v) ∷ rest) Nil ≡ Some (Some (k, v)) }
    ensures behind { (front gone rest : Entries) (k j v : Value) (slot : Option Value) → is_nil k ≡ false → IsUnlisted front k → AreRemoved gone → next_of (front ++ (k, slot) ∷ (gone ++ (j, Some v) ∷ rest)) k ≡ Some (Some (j, v)) }
    ensures end { (front gone : Entries) (k : Value) (slot : Option Value) → is_nil k ≡ false → IsUnlisted front k → AreRemoved gone → next_of (front ++ (k, slot) ∷ gone) k ≡ Some None }
    ensures empty { (gone : Entries) → AreRemoved gone → next_of gone Nil ≡ Some None }
    ensures unlisted { (es : Entries) (k : Value) → is_nil k ≡ false → IsUnlisted es k → next_of es k ≡ None }
{}

/// The border is the least n from 0 on that has nil behind it, at n + 1. Each number from 1 to it has a value, and there is one border.
pub fn border_is_least()
    ensures border { (es : Entries) → IsBorder es (border es) }
    ensures least { (es : Entries) (n : ℕ) → get es (nth n) ≡ Nil → border es ≤ n }
    ensures one { (es : Entries) (m n : ℕ) → IsBorder es m → IsBorder es n → m ≡ n }
{}
