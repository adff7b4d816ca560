// The limits of the reading lie above those of the grammar, 200 and 1000, so that it goes on behind the first token that is too deep until that token's
// label is settled. They keep its memory small, and its calls in one another few.

/// How many constructs may be open in one another: a token may begin two.
pub(crate) const DEEPEST: u32 = 210;

/// How high an expression or type may be, and how many results without parentheses may be open in one another: a token may end something in each
/// construct that is open.
pub(crate) const HIGHEST: u32 = 1300;

/// How deep the reading is, and how high the expression is that was read last. Contracts see nothing of it.
#[derive(Clone, Copy, Debug)]
pub(crate) struct Limits {
    /// How many constructs are open.
    depth: u32,
    /// How many constructs the next token begins by being a right operand's first token.
    beginning: u32,
    /// The height of the expression that was read last.
    height: u32,
}

impl Limits {
    pub(crate) fn new() -> Limits {
        Limits {
            depth: 0,
            beginning: 0,
            height: 0,
        }
    }

    /// Whether a token that is taken now is inside too many constructs.
    pub(crate) fn is_deep(&self) -> bool {
        self.depth > DEEPEST
    }

    /// Whether the expression that was read last is too high.
    pub(crate) fn is_high(&self) -> bool {
        self.height > HIGHEST
    }

    pub(crate) fn depth(&self) -> u32 {
        self.depth
    }

    pub(crate) fn height(&self) -> u32 {
        self.height
    }

    /// A token is taken.
    pub(crate) fn pass(&mut self) {
        self.depth = self.depth.saturating_add(self.beginning);
        self.beginning = 0;
    }

    /// The token that was taken last begins a construct.
    pub(crate) fn open(&mut self) {
        self.depth = self.depth.saturating_add(1);
    }

    /// The next token begins a right operand.
    pub(crate) fn begin(&mut self) {
        self.beginning = 1;
    }

    /// So many constructs are open again.
    pub(crate) fn close(&mut self, depth: u32) {
        self.depth = depth;
    }

    /// An expression with none inside was read.
    pub(crate) fn leaf(&mut self) {
        self.height = 1;
    }

    /// An expression was read that has in it the one read last and others, the highest of them so high.
    pub(crate) fn grow(&mut self, others: u32) {
        self.height = self.height.max(others).saturating_add(1);
    }

    /// The highest of the one read last and others.
    pub(crate) fn highest(&self, others: u32) -> u32 {
        self.height.max(others)
    }
}
