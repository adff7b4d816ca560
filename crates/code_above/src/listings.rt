use code_gen::generate;
use lua_code::listing;
use lua_lexer::lex;
use lua_parser::parse;
use lua_scope::resolve;
use lua_tree::Scoped;
use std::alloc::Global;
use std::test::Fail;
use tl_base::{Bytes, Failure, List, ModuleKind};

const PRINT: &str = "\
function 0 params 0 vararg 0 slots 0 captures 0
0:0 Lib print
0:1 Int 1
0:2 Int 2
0:3 Add
0:4 Pack 1
0:5 Call
0:6 First
0:7 Pop
0:8 Pack 0
0:9 Return
";

const BOTH: &str = "\
function 0 params 0 vararg 0 slots 1 captures 0
0:0 Lib print
0:1 Int 1
0:2 Int 2
0:3 Lt
0:4 KeepIfNot 10
0:5 Int 3
0:6 SetSlot 0
0:7 Int 4
0:8 GetSlot 0
0:9 Lt
0:10 Pack 1
0:11 Call
0:12 First
0:13 Pop
0:14 Pack 0
0:15 Return
";

const LOOP: &str = "\
function 0 params 0 vararg 0 slots 0 captures 0
0:0 Jump 3
0:1 Turn
0:2 Jump 5
0:3 True
0:4 JumpIf 1
0:5 Pack 0
0:6 Return
";

const REPEAT: &str = "\
function 0 params 0 vararg 0 slots 1 captures 0
0:0 Turn
0:1 Int 1
0:2 Pack 1
0:3 Spread 1
0:4 SetSlot 0
0:5 NewCell 0
0:6 GetCell 0
0:7 JumpIfNot 0
0:8 Pack 0
0:9 Return
";

const CHOICE: &str = "\
function 0 params 0 vararg 0 slots 0 captures 0
0:0 True
0:1 JumpIfNot 8
0:2 Lib print
0:3 Pack 0
0:4 Call
0:5 First
0:6 Pop
0:7 Jump 14
0:8 Lib print
0:9 Int 1
0:10 Pack 1
0:11 Call
0:12 First
0:13 Pop
0:14 Pack 0
0:15 Return
";

const LOCAL: &str = "\
function 0 params 0 vararg 0 slots 1 captures 0
0:0 Int 1
0:1 Pack 1
0:2 Spread 1
0:3 SetSlot 0
0:4 NewCell 0
0:5 GetCell 0
0:6 Pack 1
0:7 Spread 1
0:8 SetCell 0
0:9 Pack 0
0:10 Return
";

const COUNT: &str = "\
function 0 params 0 vararg 0 slots 4 captures 0
0:0 Int 1
0:1 Bound
0:2 SetSlot 0
0:3 Int 2
0:4 Bound
0:5 SetSlot 1
0:6 Int 1
0:7 SetSlot 2
0:8 ForPrep 0 14
0:9 Turn
0:10 GetSlot 0
0:11 SetSlot 3
0:12 NewCell 3
0:13 ForStep 0 9
0:14 Pack 0
0:15 Return
";

const EACH: &str = "\
function 0 params 0 vararg 0 slots 4 captures 0
0:0 Lib print
0:1 Pack 1
0:2 Spread 3
0:3 SetSlot 2
0:4 SetSlot 1
0:5 SetSlot 0
0:6 Jump 11
0:7 Turn
0:8 Spread 1
0:9 SetSlot 3
0:10 NewCell 3
0:11 GetSlot 0
0:12 GetSlot 1
0:13 GetSlot 2
0:14 Pack 2
0:15 Call
0:16 Dup
0:17 First
0:18 Dup
0:19 SetSlot 2
0:20 Nil
0:21 Eq
0:22 JumpIfNot 7
0:23 Pop
0:24 Pack 0
0:25 Return
";

const CLOSURE: &str = "\
function 0 params 0 vararg 0 slots 1 captures 0
0:0 Closure 1
0:1 Pack 1
0:2 Spread 1
0:3 SetSlot 0
0:4 NewCell 0
0:5 Pack 0
0:6 Return
function 1 params 0 vararg 1 slots 0 captures 0
1:0 Rest
1:1 Cons 0
1:2 Return
1:3 Pack 0
1:4 Return
";

const CAPTURE: &str = "\
function 0 params 0 vararg 0 slots 2 captures 0
0:0 Int 1
0:1 Pack 1
0:2 Spread 1
0:3 SetSlot 0
0:4 NewCell 0
0:5 Nil
0:6 SetSlot 1
0:7 NewCell 1
0:8 Closure 1
0:9 SetCell 1
0:10 Pack 0
0:11 Return
function 1 params 1 vararg 0 slots 1 captures 2
1:0 NewCell 0
1:1 GetCell 0
1:2 Pack 1
1:3 Spread 1
1:4 SetUp 1
1:5 Pack 0
1:6 Return
";

const TWO: &str = "\
function 0 params 0 vararg 0 slots 1 captures 0
0:0 Closure 2
0:1 Pack 1
0:2 Spread 1
0:3 SetSlot 0
0:4 NewCell 0
0:5 Pack 0
0:6 Return
function 1 params 0 vararg 0 slots 0 captures 0
1:0 Jump 3
1:1 Turn
1:2 Jump 5
1:3 True
1:4 JumpIf 1
1:5 Pack 0
1:6 Return
function 2 params 0 vararg 1 slots 0 captures 0
2:0 Rest
2:1 Cons 0
2:2 Return
2:3 Pack 0
2:4 Return
";

/// A module that is read and whose names mean something.
fn module(alloc: Global, text: &str) -> Result<Scoped, Failure> {
    let tokens = lex(alloc, 0, text.as_bytes())?;
    let chunk = parse(alloc, 0, ModuleKind::Untyped, text.as_bytes(), &tokens)?;
    resolve(alloc, chunk)
}

/// The listing of the code of these modules.
fn code_of(alloc: Global, texts: &[&str]) -> Result<Bytes, Failure> {
    let mut modules = List::new(alloc);
    for text in texts {
        modules.push(module(alloc, text)?)?;
    }
    let code = generate(alloc, modules.as_slice())?;
    let text = listing(alloc, &code)?;
    Ok(text)
}

/// Whether the code of these modules has this listing.
fn lists(alloc: Global, texts: &[&str], expected: &str) -> bool {
    match code_of(alloc, texts) {
        Ok(text) => text.as_slice() == expected.as_bytes(),
        Err(_) => false,
    }
}

#[test]
fn code_is_written(rt: HostRuntime) {
    let alloc = rt.alloc();
    assert!(rt; lists(alloc, &["print(1 + 2)"], PRINT));
    assert!(rt; lists(alloc, &["print(1 < 2 and 3 > 4)"], BOTH));
    assert!(rt; lists(alloc, &["while true do break end"], LOOP));
    assert!(rt; lists(alloc, &["repeat local x = 1 until x"], REPEAT));
    assert!(rt; lists(alloc, &["if true then print() else print(1) end"], CHOICE));
    assert!(rt; lists(alloc, &["local x = 1 x = x"], LOCAL));
    assert!(rt; lists(alloc, &["for x = 1, 2 do end"], COUNT));
    assert!(rt; lists(alloc, &["for x in print do end"], EACH));
    assert!(rt; lists(alloc, &["local x = function(...) return ... end"], CLOSURE));
    assert!(rt;
        lists(
            alloc,
            &["local x = 1 local function f(y) x = y end"],
            CAPTURE
        )
    );
}

#[test]
fn blocks_come_before_bodies(rt: HostRuntime) {
    let texts = [
        "local x = function(...) return ... end",
        "while true do break end",
    ];
    assert!(rt; lists(rt.alloc(), &texts, TWO));
}
