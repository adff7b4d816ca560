//! Texts with the place and the code of their first fault, worked out by hand from the grammar.

use lua_lexer::lex;
use lua_parser::parse;
use std::alloc::{AllocError, Global};
use std::process::Abort;
use std::test::Fail;
use tl_base::{Failure, ModuleKind};

// Each line is a text, two spaces, and its answer: `tree`, or place and code.
const UNTYPED: &str = "\
x = 1  tree
x = 1 / 2  1:7 P2
x = 2 ^ 3  1:7 P2
goto done  1:1 P3
x = 1 :: y  1:7 P3
local x: integer = 1  1:8 P5
local function f(a: integer) end  1:19 P5
interface x  1:11 P5
typealias x = any  1:11 P5
x = y:  1:7 P1
x.y:z = 1  1:7 P1
f() = 1  1:5 P1
(x) = 1  1:5 P1
x, f() = 1, 2  1:8 P1
x = f (g)()  tree
x = 1 (g)()  tree
x  1:2 P1
x =  1:4 P1
x = 1,  1:7 P1
local  1:6 P1
local x,  1:9 P1
local function  1:15 P1
local function f(...,  1:21 P1
function a.b:c.d() end  1:15 P1
if x then  1:10 P1
if x then elseif  1:17 P1
if x then else elseif y then end  1:16 P1
while x do break end  tree
while x do break x end  1:20 P1
for i = 1 do end  1:11 P1
for i = 1, 2, 3, 4 do end  1:16 P1
for i, j = 1, 2 do end  1:10 P1
for i in f() do end  tree
repeat until  1:13 P1
return 1 x  1:10 P1
return 1; ;  1:11 P1
do return end  tree
x = {a = 1, [2] = 3; 4}  tree
x = {[2], 4}  1:9 P1
x = {a b}  1:8 P1
x = not  1:8 P1
x = 1 2  1:7 P1
x = (1  1:7 P1
x = f(1 2)  1:9 P1
x = )  1:5 P1
end  1:1 P1
x = 'a' 'b'  1:9 P1
x = f 'a' {b}  tree
";

const TYPED: &str = "\
local x: integer = 1  tree
local x: = 1  1:10 P1
local x: integer? | string, y: {integer} = 1, 2  tree
local f: (integer, string*) -> (integer) | (nil, string) = g  tree
local f: (integer, string) = g  1:28 P1
local f: () -> integer | string  tree
local f: () -> (integer) | string  tree
local r: {x: integer, const y: string?,} = t  tree
local r: {x: integer y: string} = t  1:22 P1
local m: {[string]: any} = t  tree
interface A x: integer, const y: A? end  tree
interface A end (f)()  1:17 P1
typealias A = integer (f)()  1:23 P1
interface = 1  tree
interface.x = 1  tree
typealias(1)  tree
interface 1  1:11 P1
do interface A end end  1:14 P1
local function f(a: integer, ...: string): (integer, any*) end  tree
local function f(): integer | string end  tree
local x: m.n.T = 1  tree
local x: - 1 = 1  tree
local x: - y = 1  1:12 P1
x = 1 / 2  1:7 P2
";

pub(crate) fn answer(alloc: Global, kind: ModuleKind, text: &str) -> Result<String, AllocError> {
    let source = text.as_bytes();
    let Ok(tokens) = lex(alloc, 0, source) else {
        return format!(in alloc; "no tokens");
    };
    match parse(alloc, 0, kind, source, &tokens) {
        Ok(_) => format!(in alloc; "tree"),
        Err(Failure::NoMemory) => format!(in alloc; "no memory"),
        Err(Failure::Refused(refusal)) => {
            let code = refusal.code.name();
            format!(in alloc; "{}:{} {code}", refusal.pos.line, refusal.pos.column)
        }
    }
}

// Compares each line of a table, and gives their number.
pub(crate) fn agrees(
    rt: &impl Abort,
    alloc: Global,
    kind: ModuleKind,
    table: &str,
) -> Result<usize, AllocError> {
    let mut count: usize = 0;
    for line in table.lines() {
        let (text, want) = line.rsplit_once("  ").unwrap_or((line, "nothing"));
        let got = answer(alloc, kind, text)?;
        assert_eq!(rt; got.as_str(), want, "{text}");
        count = count.saturating_add(1);
    }
    Ok(count)
}

#[test]
fn texts_have_their_first_faults(rt: HostRuntime) -> Result<(), Fail> {
    let alloc = rt.alloc();
    assert_eq!(rt; agrees(&rt, alloc, ModuleKind::Untyped, UNTYPED)?, 48);
    assert_eq!(rt; agrees(&rt, alloc, ModuleKind::Typed, TYPED)?, 24);
    Ok(())
}
