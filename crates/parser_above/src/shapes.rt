//! Expressions with the trees that they spell, worked out by hand from the levels of the operators.

use lua_lexer::lex;
use lua_parser::parse;
use lua_tree::{BinaryOperator, Block, Entry, Expr, UnaryOperator};
use std::alloc::{AllocError, Global};
use std::process::Abort;
use std::test::Fail;
use tl_base::{Bytes, ModuleKind};

// Each line is an expression, two spaces, and its tree: what is done stands first, each operation in parentheses.
const SHAPES: &str = "\
nil  nil
false  false
...  ...
'a'  'a'
f  f
(f)  (paren f)
f.x  (. f x)
f[1]  (at f 1)
f.x[y].z  (. (at (. f x) y) z)
f()  (call f)
f(1, nil)  (call f 1 nil)
f 'a'  (call f 'a')
f {1}  (call f { 1})
f:m()  (method f m)
f:m 'a' (1)  (call (method f m 'a') 1)
f.x:m(1).y  (. (method (. f x) m 1) y)
{}  {}
{1, x; y = 2, [3] = 4,}  { 1 x y=2 [3]=4}
{x.y, f()}  { (. x y) (call f)}
function() end  function
function(a, ...) return 1 end  function
a or b or c  (or (or a b) c)
a or b and c  (or a (and b c))
a and b or c  (or (and a b) c)
a and b < c  (and a (< b c))
a < b and c  (and (< a b) c)
a == b ~= c  (~= (== a b) c)
a < b | c  (< a (| b c))
a | b >= c  (>= (| a b) c)
a | b ~ c  (| a (~ b c))
a ~ b | c  (| (~ a b) c)
a ~ b & c  (~ a (& b c))
a & b ~ c  (~ (& a b) c)
a & b << c  (& a (<< b c))
a >> b & c  (& (>> a b) c)
a << b .. c  (<< a (.. b c))
a .. b >> c  (>> (.. a b) c)
a .. b .. c  (.. a (.. b c))
a .. b + c  (.. a (+ b c))
a - b .. c  (.. (- a b) c)
a - b - c  (- (- a b) c)
2 + 3 * 4  (+ 2 (* 3 4))
2 * 3 + 4  (+ (* 2 3) 4)
a // b % c  (% (// a b) c)
a * not b  (* a (not b))
not a == b  (== (not a) b)
- a * b  (* (neg a) b)
# a .. b  (.. (len a) b)
~ a ~ b  (~ (flip a) b)
- - a  (neg (neg a))
not not a.b  (not (not (. a b)))
- f()  (neg (call f))
";

/// What is still to be printed: an expression, an entry of a table, a word of fixed spelling or a name.
#[derive(Clone, Copy)]
enum Piece<'a> {
    Tree(&'a Expr),
    Entry(&'a Entry),
    Word(&'static str),
    Name(&'a Bytes),
}

fn put_bytes(out: &mut String, text: &Bytes) -> Result<(), AllocError> {
    for byte in text.as_slice() {
        out.push(*byte as char)?;
    }
    Ok(())
}

fn unary(operator: UnaryOperator) -> &'static str {
    match operator {
        UnaryOperator::Not => "not",
        UnaryOperator::Length => "len",
        UnaryOperator::Negate => "neg",
        UnaryOperator::BitNot => "flip",
    }
}

fn binary(operator: BinaryOperator) -> &'static str {
    match operator {
        BinaryOperator::Or => "or",
        BinaryOperator::And => "and",
        BinaryOperator::Less => "<",
        BinaryOperator::Greater => ">",
        BinaryOperator::LessEqual => "<=",
        BinaryOperator::GreaterEqual => ">=",
        BinaryOperator::NotEqual => "~=",
        BinaryOperator::Equal => "==",
        BinaryOperator::BitOr => "|",
        BinaryOperator::BitXor => "~",
        BinaryOperator::BitAnd => "&",
        BinaryOperator::ShiftLeft => "<<",
        BinaryOperator::ShiftRight => ">>",
        BinaryOperator::Concat => "..",
        BinaryOperator::Add => "+",
        BinaryOperator::Subtract => "-",
        BinaryOperator::Multiply => "*",
        BinaryOperator::Divide => "//",
        BinaryOperator::Modulo => "%",
    }
}

// Puts away the end of a group: these values, each behind a blank, and the parenthesis. What is put away last is printed first.
fn put_values<'a>(todo: &mut Vec<Piece<'a>>, values: &'a [Expr]) -> Result<(), AllocError> {
    todo.push(Piece::Word(")"))?;
    for value in values.iter().rev() {
        todo.push(Piece::Tree(value))?;
        todo.push(Piece::Word(" "))?;
    }
    Ok(())
}

// Puts away the beginning of a group: its head and the first tree in it.
fn put_head<'a>(
    todo: &mut Vec<Piece<'a>>,
    head: &'static str,
    first: &'a Expr,
) -> Result<(), AllocError> {
    todo.push(Piece::Tree(first))?;
    todo.push(Piece::Word(" "))?;
    todo.push(Piece::Word(head))?;
    todo.push(Piece::Word("("))?;
    Ok(())
}

fn put_two<'a>(
    todo: &mut Vec<Piece<'a>>,
    head: &'static str,
    left: &'a Expr,
    right: &'a Expr,
) -> Result<(), AllocError> {
    todo.push(Piece::Word(")"))?;
    todo.push(Piece::Tree(right))?;
    todo.push(Piece::Word(" "))?;
    put_head(todo, head, left)
}

fn put_named<'a>(
    todo: &mut Vec<Piece<'a>>,
    head: &'static str,
    object: &'a Expr,
    name: &'a Bytes,
) -> Result<(), AllocError> {
    todo.push(Piece::Name(name))?;
    todo.push(Piece::Word(" "))?;
    put_head(todo, head, object)
}

fn put_table<'a>(todo: &mut Vec<Piece<'a>>, entries: &'a [Entry]) -> Result<(), AllocError> {
    todo.push(Piece::Word("}"))?;
    for entry in entries.iter().rev() {
        todo.push(Piece::Entry(entry))?;
        todo.push(Piece::Word(" "))?;
    }
    todo.push(Piece::Word("{"))?;
    Ok(())
}

fn put_entry<'a>(todo: &mut Vec<Piece<'a>>, entry: &'a Entry) -> Result<(), AllocError> {
    match entry {
        Entry::Keyed(key, value) => {
            todo.push(Piece::Tree(value))?;
            todo.push(Piece::Word("]="))?;
            todo.push(Piece::Tree(key))?;
            todo.push(Piece::Word("["))?;
        }
        Entry::Named(name, value) => {
            todo.push(Piece::Tree(value))?;
            todo.push(Piece::Word("="))?;
            todo.push(Piece::Name(&name.text))?;
        }
        Entry::Item(value) => todo.push(Piece::Tree(value))?,
    }
    Ok(())
}

fn put_leaf(alloc: Global, out: &mut String, expr: &Expr) -> Result<(), AllocError> {
    match expr {
        Expr::Nil(_) => out.push_str("nil"),
        Expr::Bool(_, value) => out.push_str(if *value { "true" } else { "false" }),
        Expr::Int(_, value) => out.push_str(&format!(in alloc; "{value}")?),
        Expr::Vararg(_) => out.push_str("..."),
        Expr::Function(_, _) => out.push_str("function"),
        Expr::Name(_, _, text) => put_bytes(out, text),
        Expr::Str(_, text) => {
            out.push('\'')?;
            put_bytes(out, text)?;
            out.push('\'')
        }
        _ => out.push_str("?"),
    }
}

// Prints an expression with none in it, or puts away its parts.
fn put_tree<'a>(
    alloc: Global,
    out: &mut String,
    todo: &mut Vec<Piece<'a>>,
    expr: &'a Expr,
) -> Result<(), AllocError> {
    match expr {
        Expr::Paren(_, inner) => put_two_of(todo, "paren", inner.get()),
        Expr::Field(_, object, name) => {
            todo.push(Piece::Word(")"))?;
            put_named(todo, ".", object.get(), &name.text)
        }
        Expr::Index(_, object, key) => put_two(todo, "at", object.get(), key.get()),
        Expr::Call(_, callee, values) => {
            put_values(todo, values.as_slice())?;
            put_head(todo, "call", callee.get())
        }
        Expr::Method(_, object, name, values) => {
            put_values(todo, values.as_slice())?;
            put_named(todo, "method", object.get(), &name.text)
        }
        Expr::Table(_, entries) => put_table(todo, entries.as_slice()),
        Expr::Unary(_, operator, inner) => put_two_of(todo, unary(*operator), inner.get()),
        Expr::Binary(_, operator, left, right) => {
            put_two(todo, binary(*operator), left.get(), right.get())
        }
        Expr::Mark(_, inner) => put_two_of(todo, "mark", inner.get()),
        other => put_leaf(alloc, out, other),
    }
}

fn put_two_of<'a>(
    todo: &mut Vec<Piece<'a>>,
    head: &'static str,
    inner: &'a Expr,
) -> Result<(), AllocError> {
    todo.push(Piece::Word(")"))?;
    put_head(todo, head, inner)
}

// Prints the next piece, or puts away its parts.
fn put_piece<'a>(
    alloc: Global,
    out: &mut String,
    todo: &mut Vec<Piece<'a>>,
    piece: Piece<'a>,
) -> Result<(), AllocError> {
    match piece {
        Piece::Tree(expr) => put_tree(alloc, out, todo, expr),
        Piece::Entry(entry) => put_entry(todo, entry),
        Piece::Word(word) => out.push_str(word),
        Piece::Name(name) => put_bytes(out, name),
    }
}

// The text of an expression of at most a thousand pieces.
fn shape(alloc: Global, expr: &Expr) -> Result<String, AllocError> {
    let mut out = String::new(alloc);
    let mut todo = Vec::new(alloc);
    todo.push(Piece::Tree(expr))?;
    for _ in 0..1000 {
        if let Some(piece) = todo.pop() {
            put_piece(alloc, &mut out, &mut todo, piece)?;
        }
    }
    Ok(out)
}

fn value_of(block: &Block) -> Option<&Expr> {
    match &block.result {
        Some(result) => result.values.as_slice().first(),
        None => None,
    }
}

fn answer(alloc: Global, text: &str) -> Result<String, AllocError> {
    let source = format!(in alloc; "return {text}")?;
    let Ok(tokens) = lex(alloc, 0, source.as_bytes()) else {
        return format!(in alloc; "no tokens");
    };
    match parse(alloc, 0, ModuleKind::Untyped, source.as_bytes(), &tokens) {
        Ok(chunk) => match value_of(&chunk.body) {
            Some(expr) => shape(alloc, expr),
            None => format!(in alloc; "nothing"),
        },
        Err(_) => format!(in alloc; "no tree"),
    }
}

// The lines of a table whose tree is another one, each with the tree that came, and the number of the others.
fn others(alloc: Global, table: &str) -> Result<String, AllocError> {
    let mut out = String::new(alloc);
    let mut count: usize = 0;
    for line in table.lines() {
        let (text, want) = line.rsplit_once("  ").unwrap_or((line, "nothing"));
        let got = answer(alloc, text)?;
        if got.as_str() == want {
            count = count.saturating_add(1);
        } else {
            out.push_str(&format!(in alloc; "{text}  {got}\n")?)?;
        }
    }
    out.push_str(&format!(in alloc; "{count}")?)?;
    Ok(out)
}

#[test]
fn operators_bind_by_their_levels(rt: HostRuntime) -> Result<(), Fail> {
    assert_eq!(rt; others(rt.alloc(), SHAPES)?.as_str(), "52");
    Ok(())
}

#[test]
fn a_call_on_the_next_line_goes_on(rt: HostRuntime) -> Result<(), Fail> {
    assert_eq!(rt;
        answer(rt.alloc(), "f\n(g)()")?.as_str(),
        "(call (call f g))"
    );
    Ok(())
}
