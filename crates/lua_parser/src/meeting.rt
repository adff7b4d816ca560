use crate::seen::Seen;
use crate::signs::{Sign, Tuple};
use crate::starters::{Opener, Start};
use crate::tally::{Tally, above};
use lua_lexer::{Keyword, Symbol};
use tl_base::NoMemory;

impl Tally {
    ghost use Rattle.std.specs.Prelude.{◌≡◌, ◌∷◌, OnOk, IfOk};
    ghost use Rattle.lua_parser.specs.Grammar.Depth.{begins};
    ghost use Rattle.lua_parser.specs.declared.signs.Sign.TheVariants as sign;
    ghost use Rattle.lua_parser.specs.Counting.Count.{at, statement};
    ghost use Rattle.lua_parser.specs.Counting.Choices.{Chooses, Meets};

    /// The first token of a statement, behind which what is expected here comes.
    fn statement(&mut self, seen: &Seen<'_>) -> Result<bool, NoMemory>
        ensures { IfOk result (λ taken. Chooses (λ other. statement seen.now self.old.expected self.old.height self.old.reached other) self.old taken self.new) }
    {
        match seen.opener() {
            Opener::Plain(Start::Semicolon) => self.push(Sign::ABlock)?,
            Opener::Plain(Start::Break) => self.push(Sign::ABlock)?,
            Opener::Plain(Start::Do) => {
                self.reached.begin()?;
                self.push(Sign::ABlock)?;
                self.push(Sign::Leave)?;
                self.push(Sign::Pass)?;
                self.push(Sign::ABlock)?;
            }
            Opener::Plain(Start::While) => {
                self.reached.begin()?;
                self.push(Sign::ABlock)?;
                self.push(Sign::Leave)?;
                self.push(Sign::Pass)?;
                self.push(Sign::ABlock)?;
                self.push(Sign::Pass)?;
                self.push(Sign::Expr(1))?;
            }
            Opener::Plain(Start::Repeat) => {
                self.reached.begin()?;
                self.push(Sign::ABlock)?;
                self.push(Sign::Leave)?;
                self.push(Sign::Expr(1))?;
                self.push(Sign::Pass)?;
                self.push(Sign::ABlock)?;
            }
            Opener::Plain(Start::If) => {
                self.reached.begin()?;
                self.push(Sign::ABlock)?;
                self.push(Sign::Leave)?;
                self.push(Sign::Clauses)?;
                self.push(Sign::ABlock)?;
                self.push(Sign::Pass)?;
                self.push(Sign::Expr(1))?;
            }
            Opener::Plain(Start::For) => {
                self.reached.begin()?;
                self.push(Sign::ABlock)?;
                self.push(Sign::Leave)?;
                self.push(Sign::ForNames)?;
            }
            Opener::Plain(Start::Function) => {
                self.height = 1;
                self.push(Sign::ABlock)?;
                self.push(Sign::Note)?;
                self.push(Sign::Path)?;
                self.push(Sign::Pass)?;
            }
            Opener::Plain(Start::Local) => {
                self.push(Sign::ABlock)?;
                self.push(Sign::RestOfLocal)?;
            }
            Opener::Return => {
                self.push(Sign::MaybeSemicolon)?;
                self.push(Sign::ReturnValues)?;
            }
            Opener::OpenParen => {
                self.push(Sign::ABlock)?;
                self.push(Sign::RestOfStat)?;
                self.push(Sign::Up)?;
                self.push(Sign::Pass)?;
                self.push(Sign::Expr(1))?;
            }
            Opener::Name => {
                self.height = 1;
                self.push(Sign::ABlock)?;
                self.push(Sign::BehindName(seen.declares()))?;
            }
            Opener::Other => return Ok(false),
        }
        Ok(true)
    }

    /// The token meets this sign, which was expected first. Whether it is taken.
    pub(crate) fn meet_sign(&mut self, sign: Sign, seen: &Seen<'_>) -> Result<bool, NoMemory>
        ensures { IfOk result (λ taken. Meets sign seen.now self.old taken self.new) }
    {
        match sign {
            Sign::Pass => return Ok(true),
            Sign::Begin => self.reached.begin()?,
            Sign::Leave => self.reached.end(),
            Sign::LeaveBody => {
                self.reached.end();
                self.height = 1;
            }
            Sign::Grow(other) => self.height = above(other, self.height)?,
            Sign::Up => self.height = self.height.checked_add(1).ok_or(NoMemory)?,
            Sign::Note => self.note()?,
            other => return self.meet_expr(other, seen),
        }
        Ok(false)
    }

    /// The token meets a sign of expressions.
    fn meet_expr(&mut self, sign: Sign, seen: &Seen<'_>) -> Result<bool, NoMemory>
        ensures { IfOk result (λ taken. Meets sign seen.now self.old taken self.new) }
    {
        match sign {
            Sign::Expr(least) => {
                self.push(Sign::Operations(least))?;
                self.operand(seen)?;
            }
            Sign::Operations(least) => {
                if self.operation(least, seen)? {
                    return Ok(true);
                }
                self.note()?;
                return Ok(false);
            }
            Sign::Suffixes => {
                if self.suffix(Sign::Suffixes, seen)? {
                    return Ok(true);
                }
                return Ok(false);
            }
            Sign::RestOfArguments => {
                if seen.is(Symbol::CloseParen) {
                    self.height = 0;
                    return Ok(true);
                }
                self.push(Sign::Pass)?;
                self.push(Sign::MoreExprs(0))?;
                self.push(Sign::Operations(1))?;
                self.operand(seen)?;
            }
            Sign::SomeArguments => {
                if seen.is(Symbol::OpenParen) {
                    self.push(Sign::RestOfArguments)?;
                } else if seen.is(Symbol::OpenBrace) {
                    self.push(Sign::Up)?;
                    self.push(Sign::Entries(0))?;
                } else {
                    self.height = 1;
                }
            }
            Sign::MoreExprs(others) => {
                let highest = others.max(self.height);
                if seen.is(Symbol::Comma) {
                    self.push(Sign::MoreExprs(highest))?;
                    self.push(Sign::Expr(1))?;
                    return Ok(true);
                }
                self.height = highest;
                return Ok(false);
            }
            Sign::ReturnValues => {
                if !seen.starts_expr() {
                    return Ok(false);
                }
                self.push(Sign::MoreExprs(0))?;
                self.push(Sign::Operations(1))?;
                self.operand(seen)?;
            }
            Sign::Entries(highest) => {
                if seen.is(Symbol::CloseBrace) {
                    self.height = highest;
                } else if seen.is(Symbol::OpenBracket) {
                    self.push(Sign::ValueOfKey(highest))?;
                    self.push(Sign::Pass)?;
                    self.push(Sign::Pass)?;
                    self.push(Sign::Expr(1))?;
                } else if seen.is_name() {
                    self.height = 1;
                    self.push(Sign::BehindNameIn(highest))?;
                } else {
                    self.push(Sign::BehindEntry(highest))?;
                    self.push(Sign::Operations(1))?;
                    self.operand(seen)?;
                }
            }
            Sign::BehindNameIn(highest) => return self.behind_name_in(highest, seen),
            Sign::ValueOfKey(highest) => {
                let most = highest.max(self.height);
                self.push(Sign::BehindEntry(most))?;
                self.push(Sign::Operations(1))?;
                self.operand(seen)?;
            }
            Sign::BehindEntry(highest) => self.entry_end(highest, seen)?,
            other => return self.meet_stat(other, seen),
        }
        Ok(true)
    }

    /// The token behind a name that begins an entry.
    fn behind_name_in(&mut self, highest: u32, seen: &Seen<'_>) -> Result<bool, NoMemory>
        ensures { IfOk result (λ taken. Meets (sign.BehindNameIn highest) seen.now self.old taken self.new) }
    {
        if seen.is(Symbol::Assign) {
            self.push(Sign::BehindEntry(highest))?;
            self.push(Sign::Expr(1))?;
            return Ok(true);
        }
        self.push(Sign::BehindEntry(highest))?;
        self.push(Sign::Operations(1))?;
        if self.suffix(Sign::Suffixes, seen)? {
            return Ok(true);
        }
        let _operations = self.expected.pop();
        if self.operation(1, seen)? {
            return Ok(true);
        }
        self.note()?;
        let _entry = self.expected.pop();
        self.entry_end(highest, seen)?;
        Ok(true)
    }

    /// These are expected of a function's body, from behind its first parenthesis on.
    fn body(&mut self) -> Result<(), NoMemory>
        ensures { OnOk result (self.new ≡ at (sign.Params ∷ sign.Outcome ∷ sign.ABlock ∷ sign.Pass ∷ sign.LeaveBody ∷ self.old.expected) self.old.height (begins self.old.reached)) }
    {
        self.reached.begin()?;
        self.push(Sign::LeaveBody)?;
        self.push(Sign::Pass)?;
        self.push(Sign::ABlock)?;
        self.push(Sign::Outcome)?;
        self.push(Sign::Params)
    }

    /// The token meets a sign of statements.
    fn meet_stat(&mut self, sign: Sign, seen: &Seen<'_>) -> Result<bool, NoMemory>
        ensures { IfOk result (λ taken. Meets sign seen.now self.old taken self.new) }
    {
        match sign {
            Sign::ABody => self.body()?,
            Sign::Params => {
                if seen.is(Symbol::CloseParen) {
                    self.height = 0;
                } else if seen.is(Symbol::Colon) {
                    self.push(Sign::Params)?;
                    self.push(Sign::AType)?;
                } else {
                    self.push(Sign::Params)?;
                }
            }
            Sign::Outcome => {
                if !seen.is(Symbol::Colon) {
                    return Ok(false);
                }
                self.push(Sign::BodyResults)?;
            }
            Sign::ABlock => {
                self.height = 0;
                if self.statement(seen)? {
                    return Ok(true);
                }
                return Ok(false);
            }
            Sign::Clauses => {
                if seen.is_word(Keyword::Elseif) {
                    self.push(Sign::Clauses)?;
                    self.push(Sign::ABlock)?;
                    self.push(Sign::Pass)?;
                    self.push(Sign::Expr(1))?;
                } else if seen.is_word(Keyword::Else) {
                    self.push(Sign::Pass)?;
                    self.push(Sign::ABlock)?;
                }
            }
            Sign::ForNames => {
                if seen.is(Symbol::Assign) || seen.is_word(Keyword::In) {
                    self.push(Sign::Pass)?;
                    self.push(Sign::ABlock)?;
                    self.push(Sign::Pass)?;
                    self.push(Sign::MoreExprs(0))?;
                    self.push(Sign::Expr(1))?;
                } else {
                    self.push(Sign::ForNames)?;
                }
            }
            Sign::Path => {
                self.note()?;
                if seen.is(Symbol::Dot) {
                    self.push(Sign::Path)?;
                    self.push(Sign::Up)?;
                    self.push(Sign::Pass)?;
                } else if seen.is(Symbol::Colon) {
                    self.push(Sign::ABody)?;
                    self.push(Sign::Pass)?;
                } else {
                    self.body()?;
                }
            }
            Sign::RestOfLocal => {
                if seen.is_word(Keyword::Function) {
                    self.push(Sign::Note)?;
                    self.push(Sign::ABody)?;
                    self.push(Sign::Pass)?;
                } else {
                    self.push(Sign::MoreNames)?;
                }
            }
            Sign::MoreNames => {
                if seen.is(Symbol::Comma) {
                    self.push(Sign::MoreNames)?;
                    self.push(Sign::Pass)?;
                } else if seen.is(Symbol::Colon) {
                    self.push(Sign::MoreNames)?;
                    self.push(Sign::AType)?;
                } else if seen.is(Symbol::Assign) {
                    self.push(Sign::MoreExprs(0))?;
                    self.push(Sign::Expr(1))?;
                } else {
                    return Ok(false);
                }
            }
            Sign::MaybeSemicolon => {
                self.height = 0;
                if seen.is(Symbol::Semicolon) {
                    return Ok(true);
                }
                return Ok(false);
            }
            Sign::BehindName(declares) => {
                if seen.is_name() {
                    self.declared(declares)?;
                    return Ok(true);
                }
                return self.rest_of_stat(seen);
            }
            Sign::RestOfStat => return self.rest_of_stat(seen),
            Sign::NextTarget => {
                self.push(Sign::RestOfStat)?;
                if seen.is_name() {
                    self.height = 1;
                } else {
                    self.push(Sign::Up)?;
                    self.push(Sign::Pass)?;
                    self.push(Sign::Expr(1))?;
                }
            }
            other => return self.meet_type(other, seen),
        }
        Ok(true)
    }

    /// The token behind a part of a prefix that begins a statement.
    fn rest_of_stat(&mut self, seen: &Seen<'_>) -> Result<bool, NoMemory>
        ensures { IfOk result (λ taken. Meets sign.RestOfStat seen.now self.old taken self.new) }
    {
        if self.suffix(Sign::RestOfStat, seen)? {
            return Ok(true);
        }
        if self.assignment(seen)? {
            return Ok(true);
        }
        self.note()?;
        Ok(false)
    }

    /// The token meets a sign of types.
    fn meet_type(&mut self, sign: Sign, seen: &Seen<'_>) -> Result<bool, NoMemory>
        ensures { IfOk result (λ taken. Meets sign seen.now self.old taken self.new) }
    {
        match sign {
            Sign::AType => {
                self.push(Sign::Bar)?;
                self.member(seen)?;
            }
            Sign::AMember => self.member(seen)?,
            Sign::Bar => {
                if self.bar_at(seen)? {
                    return Ok(true);
                }
                return Ok(false);
            }
            Sign::MoreBars(others) => {
                if seen.is(Symbol::Pipe) {
                    let highest = others.max(self.height);
                    self.push(Sign::MoreBars(highest))?;
                    self.push(Sign::AMember)?;
                    return Ok(true);
                }
                self.height = above(others, self.height)?;
                self.note()?;
                return Ok(false);
            }
            Sign::MaybeMark => {
                if self.marked_at(seen)? {
                    return Ok(true);
                }
                self.note()?;
                return Ok(false);
            }
            Sign::Dots => {
                if !seen.is(Symbol::Dot) {
                    return Ok(false);
                }
                self.push(Sign::Dots)?;
                self.push(Sign::Pass)?;
            }
            Sign::InBraces => {
                if seen.is(Symbol::CloseBrace) {
                    self.height = 1;
                } else if seen.is(Symbol::OpenBracket) {
                    self.push(Sign::MapValue)?;
                    self.push(Sign::Pass)?;
                    self.push(Sign::Pass)?;
                    self.push(Sign::AType)?;
                } else if seen.is_name() {
                    self.height = 1;
                    self.push(Sign::NamedInBraces)?;
                } else {
                    self.push(Sign::Up)?;
                    self.push(Sign::Pass)?;
                    self.push(Sign::Bar)?;
                    self.member(seen)?;
                }
            }
            Sign::MapValue => {
                let height = self.height;
                self.push(Sign::Grow(height))?;
                self.push(Sign::Pass)?;
                self.push(Sign::Bar)?;
                self.member(seen)?;
            }
            Sign::NamedInBraces => return self.named_in_braces(seen),
            Sign::BehindField(others) => {
                if seen.is(Symbol::Comma) {
                    let highest = others.max(self.height);
                    self.push(Sign::NextField(highest))?;
                } else {
                    self.height = above(others, self.height)?;
                }
            }
            Sign::NextField(others) => {
                if seen.is(Symbol::CloseBrace) {
                    self.height = others.checked_add(1).ok_or(NoMemory)?;
                } else {
                    self.push(Sign::RestOfField(others))?;
                }
            }
            Sign::RestOfField(others) => {
                self.push(Sign::BehindField(others))?;
                self.push(Sign::AType)?;
                if !seen.is(Symbol::Colon) {
                    self.push(Sign::Pass)?;
                }
            }
            Sign::InterfaceFields => {
                if seen.is_word(Keyword::End) {
                    self.height = 0;
                } else {
                    self.push(Sign::InterfaceFields)?;
                    if seen.is(Symbol::Colon) {
                        self.push(Sign::AType)?;
                    }
                }
            }
            other => return self.meet_tuple(other, seen),
        }
        Ok(true)
    }

    /// The token behind a name in braces.
    fn named_in_braces(&mut self, seen: &Seen<'_>) -> Result<bool, NoMemory>
        ensures { IfOk result (λ taken. Meets sign.NamedInBraces seen.now self.old taken self.new) }
    {
        if seen.is(Symbol::Colon) {
            self.push(Sign::BehindField(0))?;
            self.push(Sign::AType)?;
            return Ok(true);
        }
        if seen.is_name() {
            self.push(Sign::BehindField(0))?;
            self.push(Sign::AType)?;
            self.push(Sign::Pass)?;
            return Ok(true);
        }
        self.push(Sign::Up)?;
        self.push(Sign::Pass)?;
        self.push(Sign::Bar)?;
        if seen.is(Symbol::Dot) {
            self.push(Sign::MaybeMark)?;
            self.push(Sign::Dots)?;
            self.push(Sign::Pass)?;
            return Ok(true);
        }
        if self.marked_at(seen)? {
            return Ok(true);
        }
        self.note()?;
        let _bar = self.expected.pop();
        if self.bar_at(seen)? {
            return Ok(true);
        }
        let _brace = self.expected.pop();
        Ok(true)
    }

    /// The token meets a sign of types in parentheses.
    fn meet_tuple(&mut self, sign: Sign, seen: &Seen<'_>) -> Result<bool, NoMemory>
        ensures { IfOk result (λ taken. Meets sign seen.now self.old taken self.new) }
    {
        match sign {
            Sign::Items(of, others) => {
                if seen.is(Symbol::CloseParen) {
                    self.height = 0;
                    self.push(Sign::BehindItems(of, others))?;
                } else {
                    self.push(Sign::BehindItem(of, others))?;
                    self.push(Sign::Bar)?;
                    self.member(seen)?;
                }
            }
            Sign::BehindItem(of, others) => {
                let highest = others.max(self.height);
                if seen.is(Symbol::Comma) {
                    self.push(Sign::BehindItem(of, highest))?;
                    self.push(Sign::AType)?;
                } else if seen.is(Symbol::Star) {
                    self.push(Sign::BehindItem(of, others))?;
                } else {
                    self.height = 0;
                    self.push(Sign::BehindItems(of, highest))?;
                }
            }
            Sign::BehindItems(Tuple::OfMember, highest) => {
                if seen.is(Symbol::Arrow) {
                    self.push(Sign::Results(highest))?;
                    return Ok(true);
                }
                self.height = highest.checked_add(1).ok_or(NoMemory)?;
                if self.marked_at(seen)? {
                    return Ok(true);
                }
                self.note()?;
                return Ok(false);
            }
            Sign::BehindItems(Tuple::OfResults(params), highest) => {
                if seen.is(Symbol::Pipe) {
                    self.height = 0;
                    self.push(Sign::BehindBar(params, highest))?;
                    return Ok(true);
                }
                self.height = above(params, highest)?;
                self.note()?;
                return Ok(false);
            }
            Sign::BehindItems(Tuple::OfBody, highest) => {
                if !seen.is(Symbol::Pipe) {
                    return Ok(false);
                }
                self.height = 0;
                self.push(Sign::Items(Tuple::OfBody, highest))?;
                self.push(Sign::Pass)?;
            }
            Sign::Results(params) => {
                if seen.is(Symbol::OpenParen) {
                    self.height = 0;
                    self.push(Sign::Items(Tuple::OfResults(params), 0))?;
                } else {
                    self.push(Sign::EndOfFunction(params))?;
                    self.push(Sign::Bar)?;
                    self.member(seen)?;
                }
            }
            Sign::EndOfFunction(params) => {
                self.height = above(params, self.height)?;
                self.note()?;
                return Ok(false);
            }
            Sign::BehindBar(params, highest) => {
                if seen.is(Symbol::OpenParen) {
                    self.height = 0;
                    self.push(Sign::Items(Tuple::OfResults(params), highest))?;
                } else {
                    let height = above(params, highest)?;
                    self.height = height;
                    self.reached.tell_before(height)?;
                    self.barred(seen)?;
                }
            }
            Sign::BodyResults => {
                if seen.is(Symbol::OpenParen) {
                    self.height = 0;
                    self.push(Sign::Items(Tuple::OfBody, 0))?;
                } else {
                    self.push(Sign::Bar)?;
                    self.member(seen)?;
                }
            }
            _ => return Err(NoMemory),
        }
        Ok(true)
    }
}
