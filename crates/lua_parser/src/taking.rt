ghost use Rattle.std.specs.Prelude.{◌≡◌, ◌<◌, length};
ghost use Rattle.lua_parser.specs.Words.{sign, key, finish};
ghost use Rattle.lua_parser.specs.Outcomes.{Passes, TakesMark, Needs, NeedsName, TakesText, Grows};

use crate::cursor::{Cursor, Stop};
use lua_lexer::{Keyword, Symbol, TokenKind};
use lua_tree::Name;
use std::alloc::Global;
use tl_base::Bytes;

// Taking tokens within the limits on depth and height.
impl<'a> Cursor<'a> {
    /// Takes the first token, unless it is inside too many constructs.
    pub(crate) fn pass(&mut self) -> Result<(), Stop>
        requires { 0 < length self.old }
        ensures { Passes self.old result self.new }
    {
        if self.limits.is_deep() {
            return Err(Stop::Deep);
        }
        self.limits.pass();
        self.advance();
        Ok(())
    }

    /// Takes this symbol, if it is the first token.
    pub(crate) fn take(&mut self, symbol: Symbol) -> Result<bool, Stop>
        ensures { TakesMark (sign symbol) self.old result self.new }
    {
        if self.at(symbol) {
            if self.limits.is_deep() {
                return Err(Stop::Deep);
            }
            self.limits.pass();
        }
        Ok(self.eat(symbol))
    }

    /// Takes this keyword, if it is the first token.
    pub(crate) fn take_word(&mut self, word: Keyword) -> Result<bool, Stop>
        ensures { TakesMark (key word) self.old result self.new }
    {
        if self.at_word(word) {
            if self.limits.is_deep() {
                return Err(Stop::Deep);
            }
            self.limits.pass();
        }
        Ok(self.eat_word(word))
    }

    /// Takes this symbol, which has to be the first token.
    pub(crate) fn need(&mut self, symbol: Symbol) -> Result<(), Stop>
        ensures { Needs (sign symbol) self.old result self.new }
    {
        if self.take(symbol)? {
            Ok(())
        } else {
            Err(Stop::Unexpected)
        }
    }

    /// Takes this keyword, which has to be the first token.
    pub(crate) fn need_word(&mut self, word: Keyword) -> Result<(), Stop>
        ensures { Needs (key word) self.old result self.new }
    {
        if self.take_word(word)? {
            Ok(())
        } else {
            Err(Stop::Unexpected)
        }
    }

    /// Takes the first token, which has to be a name, and copies its text.
    pub(crate) fn need_name(&mut self, alloc: Global) -> Result<Name, Stop>
        ensures { NeedsName self.old result self.new }
    {
        let deep = self.limits.is_deep();
        let name = self.name(alloc)?;
        if deep {
            return Err(Stop::Deep);
        }
        self.limits.pass();
        Ok(name)
    }

    /// Takes the first token, if it is a string, and copies its bytes.
    pub(crate) fn take_text(&mut self, alloc: Global) -> Result<Option<Bytes>, Stop>
        ensures { TakesText self.old result self.new }
    {
        let deep = self.limits.is_deep();
        let text = self.text(alloc)?;
        if text.is_some() {
            if deep {
                return Err(Stop::Deep);
            }
            self.limits.pass();
        }
        Ok(text)
    }

    /// An expression was read that has in it the one read last and others, the highest of them so high. Of one that is too high the last token is left.
    pub(crate) fn grow(&mut self, others: u32) -> Result<(), Stop>
        ensures { Grows self.old result self.new }
    {
        self.limits.grow(others);
        if self.limits.is_high() {
            self.back();
            return Err(Stop::Deep);
        }
        Ok(())
    }

    /// How many constructs are open.
    pub(crate) fn depth(&self) -> u32 {
        self.limits.depth()
    }

    /// The height of the expression that was read last.
    pub(crate) fn height(&self) -> u32 {
        self.limits.height()
    }

    /// The token that was taken last begins a construct.
    pub(crate) fn open(&mut self)
        ensures { self.new ≡ self.old }
    {
        self.limits.open();
    }

    /// The next token begins a right operand.
    pub(crate) fn begin(&mut self)
        ensures { self.new ≡ self.old }
    {
        self.limits.begin();
    }

    /// So many constructs are open again.
    pub(crate) fn close(&mut self, depth: u32)
        ensures { self.new ≡ self.old }
    {
        self.limits.close(depth);
    }

    /// An expression with none inside was read.
    pub(crate) fn leaf(&mut self)
        ensures { self.new ≡ self.old }
    {
        self.limits.leaf();
    }

    /// The highest of the expression read last and others.
    pub(crate) fn highest(&self, others: u32) -> u32 {
        self.limits.highest(others)
    }

    /// Takes the end of the file, which has to be the first token.
    pub(crate) fn need_end(&mut self) -> Result<(), Stop>
        ensures { Needs finish self.old result self.new }
    {
        let ends = match self.rest.first() {
            Some(token) => match &token.kind {
                TokenKind::End => true,
                _ => false,
            },
            None => false,
        };
        if !ends {
            return Err(Stop::Unexpected);
        }
        self.pass()
    }
}
