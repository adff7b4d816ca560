//! Modules and what their names mean, worked out by hand from the rules of scopes.

mod reader;

use crate::*;
use lua_tree::{Scoped, Use, lib_text};
use reader::chunk_of;
use std::alloc::Global;
use std::process::Abort;
use std::test::Fail;
use tl_base::{Bytes, Failure};

fn flag(set: bool, name: &str) -> &str {
    if set { name } else { "" }
}

// What is found, as the tables write it: the uses, each local's function and what is told of it, the calls of `require`.
fn shown(alloc: Global, scoped: &Scoped) -> Result<String, Fail> {
    let mut text = String::new(alloc);
    for one in scoped.uses.as_slice() {
        match one {
            Use::Local(number) => text.push_str(&format!(in alloc; "{number} ")?)?,
            Use::Lib(name) => {
                for byte in lib_text(alloc, *name)?.as_slice() {
                    text.push(*byte as char)?;
                }
                text.push_str(" ")?;
            }
        }
    }
    text.push_str("|")?;
    for local in scoped.locals.as_slice() {
        let number = local.function;
        let captured = flag(local.captured, "c");
        let assigned = flag(local.assigned, "a");
        let inner = flag(local.assigned_in_closure, "i");
        text.push_str(&format!(in alloc; " {number}{captured}{assigned}{inner}")?)?;
    }
    for require in scoped.required.as_slice() {
        text.push_str(" ")?;
        for byte in require.name.as_slice() {
            text.push(*byte as char)?;
        }
        let column = require.pos.column;
        text.push_str(&format!(in alloc; "@{column}")?)?;
    }
    Ok(text)
}

// What is found of a module, or its refusal with the number of the word.
fn found(alloc: Global, text: &str) -> Result<String, Fail> {
    match resolve(alloc, chunk_of(alloc, text)?) {
        Ok(scoped) => shown(alloc, &scoped),
        Err(Failure::Refused(refusal)) => {
            let code = refusal.code.name();
            let column = refusal.pos.column;
            Ok(format!(in alloc; "{code}@{column}")?)
        }
        Err(Failure::NoMemory) => Ok(format!(in alloc; "no memory")?),
    }
}

// The text of all parts, one after another.
fn joined(alloc: Global, parts: &[&str]) -> Result<String, Fail> {
    let mut text = String::new(alloc);
    for part in parts {
        text.push_str(part)?;
        text.push_str(" ")?;
    }
    Ok(text)
}

// Compares the refusal of a module with what is wanted, which is nothing where none is.
fn refused_at(rt: &impl Abort, alloc: Global, parts: &[&str], want: &str) -> Result<(), Fail> {
    let text = joined(alloc, parts)?;
    let got = found(alloc, text.as_str())?;
    let refusal = if got.contains('@') { got.as_str() } else { "" };
    assert_eq!(rt; refusal, want);
    Ok(())
}

const SHADOWS: [(&str, &str); 15] = [
    ("!x local !x x local x run", "0 1 | 0 0"),
    ("!x local { !x x local x run } do x run", "0 1 0 | 0 0"),
    (
        "!x local x { !x x local x run } while x run",
        "0 0 1 0 | 0 0",
    ),
    ("!x local { !x x local } x repeat x run", "0 1 0 | 0 0"),
    (
        "!x local x { !x local x run } x { x run } { !x local x run } if x run",
        "0 1 0 0 2 0 | 0 0 0",
    ),
    ("!x local !x x x { x run } for x run", "0 0 1 0 | 0 0"),
    (
        "!x local !x x x x { !x x local x run } for-step x run",
        "0 0 0 1 2 0 | 0 0 0",
    ),
    ("!x local !x !y x y { x run } each", "S1@6"),
    (
        "!x !y local !x !y x y { x run y run } each x run",
        "0 1 2 3 0 | 0 0 0 0",
    ),
    (
        "!x local !x { x run !x x local x run } fn1 run x run",
        "1 1 2 0 | 0 1 1",
    ),
    ("!x local !y { x run } fn1 run", "0 | 0c 1"),
    ("!f { f run } fn0 local", "S1@3"),
    ("!f { f run } fn0 localfunction f run", "0 0 | 0c"),
    (
        "!o local o !a { self run a run } fn1 method",
        "0 1 2 | 0 1 1",
    ),
    ("!a !a local a run", "1 | 0 0"),
];

const REFUSALS: [(&str, &str); 39] = [
    ("y run", "S1@1"),
    ("string .foo run", "S1@2"),
    ("string .len run", "string.len |"),
    ("print .len run", "print |"),
    ("string .foo nil set1", "S1@2"),
    ("string .len nil set1", "S2@1"),
    ("string .len .x nil set1", "string.len |"),
    ("print nil set1", "S2@1"),
    ("y nil set1", "S1@1"),
    ("string nil set1", "S3@1"),
    ("string run", "S3@1"),
    ("math 'len [] run", "S3@1"),
    ("math :len run", "S3@1"),
    ("io paren .read run", "S3@1"),
    ("io mark .read run", "io.read |"),
    ("require run", "S4@1"),
    ("require nil set1", "S2@1"),
    ("require 'a call1 run", "require | a@2"),
    ("require 'a 'b call2 run", "S4@1"),
    ("require nil call1 run", "S4@1"),
    ("require call0 run", "S4@1"),
    ("require paren 'a call1 run", "S4@1"),
    ("require mark 'a mark call1 run", "require | a@3"),
    ("!require local require 'a call1 run", "0 | 0"),
    ("break", "S7@1"),
    ("print { break } while", "print |"),
    ("print { { break } fn0 run } while", "S7@4"),
    ("print { break } while break", "S7@6"),
    ("{ break } print repeat", "print |"),
    ("!i nil nil { break } for", "| 0"),
    ("!i print { break } each", "print | 0"),
    ("... run", "|"),
    ("{ ... run } fn0 run", "S8@2"),
    ("{ ... run } fn... run", "|"),
    ("{ { ... run } fn0 run } fn... run", "S8@3"),
    ("string { } fn0 method", "S3@1"),
    ("string { } fn0 function", "S3@1"),
    ("string .len { } fn0 function", "S2@1"),
    ("{ ... run y run } fn0 run", "S8@2"),
];

const FLAGS: [(&str, &str); 14] = [
    ("!n local n nil set1", "0 | 0a"),
    ("!n local { n nil set1 } fn0 run", "0 | 0cai"),
    ("!n local { { n nil set1 } fn0 run } fn0 run", "0 | 0cai"),
    ("!n local { !n local n nil set1 } fn0 run", "1 | 0 1a"),
    ("!f { f nil set1 } fn0 localfunction", "0 | 0cai"),
    ("!t local t .x t set1", "0 0 | 0"),
    (
        "!t local t .x { } fn0 function t { } fn0 function",
        "0 0 | 0a",
    ),
    (
        "!t local t t [] nil set1 { t .k nil set1 } fn0 run",
        "0 0 0 | 0c",
    ),
    ("!p { p nil set1 { p run } fn0 run } fn1 run", "0 0 | 1ca"),
    (
        "!a local !b { !c local { a run b run c run } fn0 run } fn1 run",
        "0 1 2 | 0c 1c 1c",
    ),
    ("!a !b { !c local } fn1 local !d local d run", "3 | 0 1 1 0"),
    ("!i !b { } fn1 nil { i run } for print run", "0 print | 0 1"),
    ("!a { !b { } fn1 run } fn1 run !c { } fn1 run", "| 1 2 3"),
    (
        "!t local t t t table run t t t + not return",
        "0 0 0 0 0 0 | 0",
    ),
];

fn agree(rt: &impl Abort, alloc: Global, rows: &[(&str, &str)]) -> Result<(), Fail> {
    for (text, want) in rows {
        let got = found(alloc, text)?;
        assert_eq!(rt; got.as_str(), *want, "{text}");
    }
    Ok(())
}

#[test]
fn names_mean_the_latest_local_in_scope(rt: HostRuntime) -> Result<(), Fail> {
    an_expression_declares_nothing();
    a_block_hides_what_it_declares();
    a_statement_ends_where_it_began();
    a_local_is_not_seen_in_its_own_initialiser();
    the_condition_of_repeat_sees_the_locals_of_its_body();
    agree(&rt, rt.alloc(), SHADOWS.as_slice())
}

#[test]
fn names_are_refused_at_the_first_place(rt: HostRuntime) -> Result<(), Fail> {
    agree(&rt, rt.alloc(), REFUSALS.as_slice())
}

#[test]
fn what_is_told_of_locals_is_exact(rt: HostRuntime) -> Result<(), Fail> {
    agree(&rt, rt.alloc(), FLAGS.as_slice())
}

// A word for each number below a count.
fn repeated(alloc: Global, count: u32, before: &str, after: &str) -> Result<String, Fail> {
    let mut text = String::new(alloc);
    for number in 0..count {
        text.push_str(&format!(in alloc; "{before}{number}{after} ")?)?;
    }
    Ok(text)
}

#[test]
fn two_hundred_locals_of_a_function_are_alive(rt: HostRuntime) -> Result<(), Fail> {
    let alloc = rt.alloc();
    let made = repeated(alloc, 200, "!v", " local")?;
    let most = made.as_str();
    let names = repeated(alloc, 198, "!v", "")?;
    let params = names.as_str();
    let t = "!t local t";
    refused_at(&rt, alloc, &["{", most, "} do", most], "")?;
    refused_at(&rt, alloc, &[most, "!x local"], "S5@401")?;
    refused_at(&rt, alloc, &[most, "{ !x local } do"], "S5@402")?;
    refused_at(&rt, alloc, &[most, "!x nil nil { } for"], "S5@401")?;
    refused_at(&rt, alloc, &[most, "!x { } fn1 run"], "")?;
    refused_at(&rt, alloc, &[t, params, "{ !x local } fn198 method"], "")?;
    refused_at(
        &rt,
        alloc,
        &[t, params, "{ !x local !y local } fn198 method"],
        "S5@205",
    )?;
    refused_at(&rt, alloc, &[params, "!x !y { } fn200 run"], "")?;
    refused_at(&rt, alloc, &[params, "!x !y !z { } fn201 run"], "S5@201")?;
    Ok(())
}

#[test]
fn a_function_captures_at_most_255_locals(rt: HostRuntime) -> Result<(), Fail> {
    let alloc = rt.alloc();
    let made = repeated(alloc, 200, "!v", " local")?;
    let outer = made.as_str();
    let made = repeated(alloc, 56, "!w", " local")?;
    let inner = made.as_str();
    let used = repeated(alloc, 200, "v", " run")?;
    let all = used.as_str();
    let used = repeated(alloc, 55, "w", " run")?;
    let most = used.as_str();
    let here = [
        outer,
        "{",
        inner,
        "{",
        all,
        most,
        most,
        all,
        "} fn0 run } fn0 run",
    ];
    refused_at(&rt, alloc, &here, "")?;
    let here = [
        outer,
        "{",
        inner,
        "{",
        all,
        most,
        most,
        "w55 run } fn0 run } fn0 run",
    ];
    refused_at(&rt, alloc, &here, "S6@1135")?;
    let inside = [
        outer,
        "{",
        inner,
        "{",
        all,
        "{",
        most,
        "w55 run } fn0 run } fn0 run } fn0 run",
    ];
    refused_at(&rt, alloc, &inside, "S6@1026")?;
    let beside = [
        outer,
        "{",
        inner,
        "{",
        all,
        "} fn0 run {",
        most,
        "w55 run } fn0 run } fn0 run",
    ];
    refused_at(&rt, alloc, &beside, "")?;
    Ok(())
}

fn named(alloc: Global, name: &str, module: u32) -> Result<NamedModule, Fail> {
    Ok(NamedModule {
        name: Bytes::from_slice(alloc, name.as_bytes())?,
        module,
    })
}

fn modules(alloc: Global, scoped: &Scoped) -> Result<String, Fail> {
    let mut text = String::new(alloc);
    for require in scoped.required.as_slice() {
        let module = require.module;
        text.push_str(&format!(in alloc; "{module:?} ")?)?;
    }
    Ok(text)
}

#[test]
fn calls_of_require_are_bound(rt: HostRuntime) -> Result<(), Fail> {
    let alloc = rt.alloc();
    let text = "require 'a call1 run require 'b call1 run require 'a call1 run";
    let mut scoped = resolve(alloc, chunk_of(alloc, text)?)?;
    let mut names = Vec::new(alloc);
    names.push(named(alloc, "b", 7)?)?;
    let refusal = bind(&mut scoped, names.as_slice()).err().ok_or("bound")?;
    assert_eq!(rt; refusal.code.name(), "G1");
    assert_eq!(rt; refusal.pos.column, 2);
    assert_eq!(rt; modules(alloc, &scoped)?.as_str(), "None None None ");
    names.push(named(alloc, "a", 3)?)?;
    assert!(rt; bind(&mut scoped, names.as_slice()).is_ok());
    assert_eq!(rt;
        modules(alloc, &scoped)?.as_str(),
        "Some(3) Some(7) Some(3) "
    );
    Ok(())
}
