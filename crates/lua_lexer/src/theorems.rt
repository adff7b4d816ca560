//! Laws of the definition of tokens, which no program calls.

ghost use Rattle.std.specs.Prelude.{◌≡◌, ◌++◌, ℕ, List, length};
ghost use Rattle.lua_lexer.specs.Letters.{Text};
ghost use Rattle.lua_lexer.specs.Lines.{pos_at, Reaches};
ghost use Rattle.lua_lexer.specs.Tokens.{Lexed, Refused, InOrder};
ghost use Rattle.lua_lexer.specs.declared.token.Token.{Token};
ghost use Rattle.tl_base.specs.declared.place.Pos.{Pos};
ghost use Rattle.tl_base.specs.declared.refusal.Refusal.{Refusal};

/// At most one list of tokens belongs to a text.
pub fn at_most_one_list()
    ensures { (file : ℕ) (text : Text) (a b : List Token) → Lexed file text a → Lexed file text b → a ≡ b }
{}

/// A text has at most one refusal.
pub fn at_most_one_refusal()
    ensures { (file : ℕ) (text : Text) (p q : Refusal) → Refused file text p → Refused file text q → p ≡ q }
{}

/// A text to which tokens belong is not refused.
pub fn tokens_or_refusal()
    ensures { (file : ℕ) (text : Text) (a : List Token) (p : Refusal) → Lexed file text a → Refused file text p → ⊥ }
{}

/// The tokens of a text are in order, and the last is `End` at the text's end.
pub fn tokens_are_in_order()
    ensures { (file : ℕ) (text : Text) (a : List Token) → Lexed file text a → InOrder (length text) 0 a }
{}

/// A place counts the line ends before it, and the bytes behind the last of them.
pub fn places_count_line_ends()
    ensures { (file : ℕ) (all before rest : Text) (l c : ℕ) → all ≡ before ++ rest → Reaches 1 1 before l c → pos_at file all rest ≡ record { «module» = file; line = l; column = c } }
{}
