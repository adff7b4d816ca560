//! Typed modules with the types of their annotations or their first fault, worked out by hand from the rules of types.

use lua_lexer::lex;
use lua_parser::parse;
use lua_tree::Scoped;
use std::alloc::{AllocError, Global};
use std::process::Abort;
use std::test::Fail;
use tl_base::{Failure, List, ModuleKind};
use tl_types::{Field, Func, Interfaces, Text, Tuple, Ty};
use type_reader::{TypeNames, TypedChunk, read_types};

// Each line is a text, two spaces, and its answer. A `/` stands between the texts of a module `a.b`, read first, and of the module that is answered.
const TYPES: &str = "\
local x: integer, y: any, z: value  integer any value
local x: boolean, y: string?, z: boolean?  true|false string|nil true|false|nil
local x: 7 | 'a' | true | nil  7|'a'|true|nil
local x: 7 | integer, y: string | any  integer any
local x: {integer}, y: {[string]: integer}  {[integer]: integer} {[string]: integer}
local x: {[integer | 'a' | true]: nil}  {[union]: nil}
local x: {x: integer, const y: string}, y: {}  {x: integer, const y: string} {}
local x: (integer) -> string  (integer, value*)->(string, nil*)
local x: (any*) -> (integer) | (nil, string)  (any*)->(integer, nil*)|(nil, string, nil*)
local function f(a: integer, ...: string): (true, any*) end  integer string (value*)->(true, any*)
function f(): (integer, string) end  (value*)->(integer, string, nil*)
local x: A typealias A = B typealias B = integer  integer integer integer
typealias K = boolean local x: {[K]: nil}  true|false {[union]: nil}
local x: I interface I j: J end interface J i: I end  #0 #0 #1
interface I a: A end typealias A = {x: I}  #0 {x: #0}
interface I end / interface J end local x: J, y: a.b.I  #1 #1 #0
typealias N = integer / typealias N = {a.b.N} local x: N  {[integer]: integer} {[integer]: integer}
interface I x: y end / interface I end local x: I  #0 #0
";

const FAULTS: &str = "\
local x: y  1:10 Y2
typealias N = integer local x: c.N  1:32 Y2
typealias N = integer / local x: N  1:10 Y2
typealias N = integer local x: y / local x: a.b.N  1:10 Y2
typealias A = B typealias B = x  1:31 Y2
local x: y typealias A = z  1:26 Y2
local x: {x: y, x: y}  1:14 Y2
typealias integer = nil  1:11 Y3
interface value end  1:11 Y3
typealias A = nil interface A end  1:29 Y3
local x: {x: nil, x: nil}  1:19 Y3
interface I x: nil, const x: nil end  1:21 Y3
local x: y typealias A = A typealias B = nil typealias B = nil  1:56 Y3
local x: {[value]: nil}  1:12 Y4
local x: {[any]: nil}  1:12 Y4
local x: {[nil]: nil}  1:12 Y4
local x: {[integer?]: nil}  1:12 Y4
local x: {[{integer}]: y}  1:12 Y4
typealias K = value local x: {[K]: nil}  1:32 Y4
interface I end local x: {[I]: nil}  1:28 Y4
typealias A = A  1:1 Y5
typealias A = {A}  1:1 Y5
typealias A = {x: y, x: A}  1:1 Y5
typealias A = B typealias B = A  1:1 Y5
typealias A = B typealias B = B  1:17 Y5
typealias A = integer typealias B = C typealias C = B  1:23 Y5
";

fn put_text(out: &mut String, text: &Text) -> Result<(), AllocError> {
    for byte in text.as_slice() {
        out.push(*byte as char)?;
    }
    Ok(())
}

fn word(ty: &Ty) -> &'static str {
    match ty {
        Ty::Nil => "nil",
        Ty::True => "true",
        Ty::False => "false",
        Ty::Int => "integer",
        Ty::Str => "string",
        Ty::Value => "value",
        Ty::Any => "any",
        Ty::Union(_) => "union",
        Ty::Func(_) => "function",
        Ty::Rec(_) => "record",
        Ty::Map(_, _) => "map",
        _ => "literal",
    }
}

// A type, with no more than a word for what has components.
fn put_short(alloc: Global, out: &mut String, ty: &Ty) -> Result<(), AllocError> {
    match ty {
        Ty::IntLit(number) => out.push_str(&format!(in alloc; "{number}")?),
        Ty::Iface(number) => out.push_str(&format!(in alloc; "#{number}")?),
        Ty::StrLit(text) => {
            out.push('\'')?;
            put_text(out, text)?;
            out.push('\'')
        }
        other => out.push_str(word(other)),
    }
}

fn put_union(alloc: Global, out: &mut String, members: &[Ty]) -> Result<(), AllocError> {
    let mut between = "";
    for member in members {
        out.push_str(between)?;
        put_short(alloc, out, member)?;
        between = "|";
    }
    Ok(())
}

fn put_tuple(alloc: Global, out: &mut String, tuple: &Tuple) -> Result<(), AllocError> {
    out.push('(')?;
    for item in tuple.items.as_slice() {
        put_short(alloc, out, item)?;
        out.push_str(", ")?;
    }
    put_short(alloc, out, tuple.tail.get())?;
    out.push_str("*)")
}

fn put_function(alloc: Global, out: &mut String, function: &Func) -> Result<(), AllocError> {
    put_tuple(alloc, out, &function.params)?;
    let mut between = "->";
    for tuple in function.results.tuples.as_slice() {
        out.push_str(between)?;
        put_tuple(alloc, out, tuple)?;
        between = "|";
    }
    Ok(())
}

fn put_record(alloc: Global, out: &mut String, fields: &[Field]) -> Result<(), AllocError> {
    out.push('{')?;
    let mut between = "";
    for field in fields {
        out.push_str(between)?;
        out.push_str(if field.is_const { "const " } else { "" })?;
        put_text(out, &field.name)?;
        out.push_str(": ")?;
        put_short(alloc, out, &field.ty)?;
        between = ", ";
    }
    out.push('}')
}

fn put_map(alloc: Global, out: &mut String, key: &Ty, value: &Ty) -> Result<(), AllocError> {
    out.push_str("{[")?;
    put_short(alloc, out, key)?;
    out.push_str("]: ")?;
    put_short(alloc, out, value)?;
    out.push('}')
}

// A type with its components in short.
fn put_type(alloc: Global, out: &mut String, ty: &Ty) -> Result<(), AllocError> {
    match ty {
        Ty::Union(members) => put_union(alloc, out, members.as_slice()),
        Ty::Func(function) => put_function(alloc, out, function.get()),
        Ty::Rec(fields) => put_record(alloc, out, fields.as_slice()),
        Ty::Map(key, value) => put_map(alloc, out, key.get(), value.get()),
        other => put_short(alloc, out, other),
    }
}

fn types_in(alloc: Global, read: &TypedChunk) -> Result<String, AllocError> {
    let mut out = String::new(alloc);
    let mut between = "";
    for ty in read.types.as_slice() {
        out.push_str(between)?;
        put_type(alloc, &mut out, ty)?;
        between = " ";
    }
    Ok(out)
}

fn fault(alloc: Global, failure: Failure) -> Result<String, AllocError> {
    match failure {
        Failure::NoMemory => format!(in alloc; "nothing"),
        Failure::Refused(refusal) => {
            let code = refusal.code;
            format!(in alloc; "{}:{} {code:?}", refusal.pos.line, refusal.pos.column)
        }
    }
}

fn no_names(alloc: Global) -> TypeNames {
    TypeNames {
        names: List::new(alloc),
        interfaces: Interfaces {
            bodies: List::new(alloc),
        },
    }
}

// What is read of a text; a text without a tree is answered as want of memory.
fn read(
    alloc: Global,
    name: &str,
    text: &str,
    known: &mut TypeNames,
) -> Result<TypedChunk, Failure> {
    let source = text.as_bytes();
    let Ok(tokens) = lex(alloc, 0, source) else {
        return Err(Failure::NoMemory);
    };
    let Ok(chunk) = parse(alloc, 0, ModuleKind::Typed, source, &tokens) else {
        return Err(Failure::NoMemory);
    };
    let scoped = Scoped {
        chunk,
        uses: List::new(alloc),
        locals: List::new(alloc),
        required: List::new(alloc),
    };
    read_types(alloc, name.as_bytes(), &scoped, known)
}

fn answer(alloc: Global, texts: &str) -> Result<String, AllocError> {
    let mut known = no_names(alloc);
    let mut text = texts;
    if let Some((first, last)) = texts.split_once(" / ") {
        let _first = read(alloc, "a.b", first, &mut known);
        text = last;
    }
    match read(alloc, "c", text, &mut known) {
        Ok(read) => types_in(alloc, &read),
        Err(failure) => fault(alloc, failure),
    }
}

// Compares each line of a table, and gives their number.
fn agrees(rt: &impl Abort, alloc: Global, table: &str) -> Result<usize, AllocError> {
    let mut count: usize = 0;
    for line in table.lines() {
        let (texts, want) = line.split_once("  ").unwrap_or((line, "nothing"));
        let got = answer(alloc, texts)?;
        assert_eq!(rt; got.as_str(), want, "{texts}");
        count = count.saturating_add(1);
    }
    Ok(count)
}

#[test]
fn annotations_have_their_types_or_first_fault(rt: HostRuntime) -> Result<(), Fail> {
    let alloc = rt.alloc();
    assert_eq!(rt; agrees(&rt, alloc, TYPES)?, 18);
    assert_eq!(rt; agrees(&rt, alloc, FAULTS)?, 26);
    Ok(())
}

#[derive(Clone, Copy, Debug)]
enum Chain {
    Forwards,
    Backwards,
    Doubled,
    Nested,
}

// A line that declares the alias of this number or of the next by the other one.
fn link(alloc: Global, chain: Chain, number: u32) -> Result<String, AllocError> {
    let next = number.saturating_add(1);
    match chain {
        Chain::Forwards => format!(in alloc; "typealias A{next} = A{number}\n"),
        Chain::Backwards => format!(in alloc; "typealias A{number} = A{next}\n"),
        Chain::Doubled => format!(in alloc; "typealias A{next} = {{x: A{number}, y: A{number}}}\n"),
        Chain::Nested => format!(in alloc; "typealias A{next} = {{A{number}}}\n"),
    }
}

// So many links from an alias of `integer`.
fn chain_text(alloc: Global, chain: Chain, links: u32) -> Result<String, AllocError> {
    let mut text = String::new(alloc);
    let end = if matches!(chain, Chain::Backwards) {
        links
    } else {
        0
    };
    text.push_str(&format!(in alloc; "typealias A{end} = integer\n")?)?;
    for number in 0..links {
        text.push_str(&link(alloc, chain, number)?)?;
    }
    Ok(text)
}

// The number of types that are read of a text, or the fault.
fn length(alloc: Global, text: &str) -> Result<String, AllocError> {
    let mut known = no_names(alloc);
    match read(alloc, "c", text, &mut known) {
        Ok(read) => format!(in alloc; "{}", read.types.len()),
        Err(failure) => fault(alloc, failure),
    }
}

const GROWING: [(Chain, u32, &str); 4] = [
    // a record has twice the nodes of the alias before it and one more: 65535 after 15 links
    (Chain::Doubled, 15, "16"),
    (Chain::Doubled, 16, "17:1 Y1"),
    (Chain::Nested, 99, "100"),
    (Chain::Nested, 100, "101:1 Y1"),
];

const LONG: [(Chain, u32, &str); 2] = [
    (Chain::Forwards, 10000, "10001"),
    (Chain::Backwards, 10000, "10001"),
];

fn chains_agree(
    rt: &impl Abort,
    alloc: Global,
    table: &[(Chain, u32, &str)],
) -> Result<(), AllocError> {
    for (chain, links, want) in table {
        let text = chain_text(alloc, *chain, *links)?;
        let got = length(alloc, &text)?;
        assert_eq!(rt; got.as_str(), *want, "{chain:?} {links}");
    }
    Ok(())
}

#[test]
fn types_grow_to_the_limits(rt: HostRuntime) -> Result<(), Fail> {
    chains_agree(&rt, rt.alloc(), &GROWING)?;
    Ok(())
}

// The last two doublings that keep within the limit: together they are too large, unless `any` takes their place.
const UNIONS: [(&str, &str); 3] = [
    ("A15 | A15", "17"),
    ("A15 | A14", "17:1 Y1"),
    ("A15 | A14 | any", "17"),
];

// `A14` has 32767 nodes: unions of just 65536 nodes, and of one more.
const AT_LIMIT: [(&str, &str); 4] = [
    ("A14 | {x: A14}", "16"),
    ("A14 | {x: A14} | nil", "16:1 Y1"),
    ("(A14 | {a: A13, b: A13})?", "16"),
    ("(A14 | {x: A14})?", "16:1 Y1"),
];

// What is read of each union behind so many doublings.
fn unions_agree(
    rt: &impl Abort,
    alloc: Global,
    links: u32,
    table: &[(&str, &str)],
) -> Result<(), AllocError> {
    for (union, want) in table {
        let mut text = chain_text(alloc, Chain::Doubled, links)?;
        text.push_str(&format!(in alloc; "typealias B = {union}\n")?)?;
        let got = length(alloc, &text)?;
        assert_eq!(rt; got.as_str(), *want, "{union}");
    }
    Ok(())
}

#[test]
fn a_union_has_each_member_once(rt: HostRuntime) -> Result<(), Fail> {
    unions_agree(&rt, rt.alloc(), 15, &UNIONS)?;
    Ok(())
}

#[test]
fn a_union_of_just_the_limit_is_read(rt: HostRuntime) -> Result<(), Fail> {
    unions_agree(&rt, rt.alloc(), 14, &AT_LIMIT)?;
    Ok(())
}

#[test]
fn long_chains_of_aliases_are_read(rt: HostRuntime) -> Result<(), Fail> {
    chains_agree(&rt, rt.alloc(), &LONG)?;
    Ok(())
}
