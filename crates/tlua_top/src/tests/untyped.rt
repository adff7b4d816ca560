use crate::Status;
use crate::tests::calls::{check_run, repeated};
use std::test::Fail;

#[test]
fn untyped_modules_run(rt: HostRuntime) -> Result<(), Fail> {
    for (text, printed, line) in [
        ("", "", "done 1\n"),
        ("print(1 + 2, \"a\")", "3\ta\n", "done 1\n"),
        ("print(2 - 3 * 4)", "-10\n", "done 1\n"),
        (
            "print(9223372036854775807 + 1)",
            "-9223372036854775808\n",
            "done 1\n",
        ),
        ("print(--[[x]] 0x10 + 1)", "17\n", "done 1\n"),
        ("print(0xffffffffffffffff)", "-1\n", "done 1\n"),
        ("print(#\"\\u{20AC}\")", "3\n", "done 1\n"),
        (
            "print(7 // -2, 7 % -2, -7 // 2, -7 % 2)",
            "-4\t-1\t-4\t1\n",
            "done 1\n",
        ),
        (
            "local function c() local n = 0 return function() n = n + 1 return n end end local a, b = c(), c() print(a(), a(), b())",
            "1\t2\t1\n",
            "done 6\n",
        ),
        (
            "local function f(...) return ... end print((f()), f(1, nil, 3))",
            "nil\t1\tnil\t3\n",
            "done 3\n",
        ),
        ("repeat until true", "", "done 2\n"),
        (
            "local s = 0 for i = 1, 10 do if i % 2 == 0 then s = s + i end end print(s)",
            "30\n",
            "done 11\n",
        ),
        (
            "local function f(n) if n == 0 then return 0 end return 1 + f(n - 1) end print(f(1000))",
            "1000\n",
            "done 1002\n",
        ),
        (
            "print('a' .. 1, 'b' < 'c', not nil)",
            "a1\ttrue\ttrue\n",
            "done 1\n",
        ),
        ("return 1, 2", "", "done 1\n"),
    ] {
        check_run(
            &rt,
            rt.alloc(),
            "main.lua",
            text.as_bytes(),
            Status::Done,
            printed,
            line,
        )?;
    }
    Ok(())
}

#[test]
fn untyped_modules_that_fail_or_are_cut(rt: HostRuntime) -> Result<(), Fail> {
    for (text, status, printed, line) in [
        (
            "local function f() return 1 + f() end print(f())",
            Status::LuaError,
            "",
            "error 100000 main.lua:1:31: stack overflow\n",
        ),
        (
            "while true do end",
            Status::TurnsSpent,
            "",
            "cut 10000000\n",
        ),
        (
            "print(1) print(1 + nil)",
            Status::LuaError,
            "1\n",
            "error 1 main.lua:1:16: arithmetic on a nil\n",
        ),
        (
            "local x = 1 x()",
            Status::LuaError,
            "",
            "error 1 main.lua:1:13: call of a number\n",
        ),
    ] {
        check_run(
            &rt,
            rt.alloc(),
            "main.lua",
            text.as_bytes(),
            status,
            printed,
            line,
        )?;
    }
    Ok(())
}

#[test]
fn refusals_come_phase_by_phase(rt: HostRuntime) -> Result<(), Fail> {
    for (text, line) in [
        ("print(9223372036854775808)", "refused main.lua:1:7 L4\n"),
        ("print([[abc", "refused main.lua:1:7 L2\n"),
        ("print(1 / 2)", "refused main.lua:1:9 P2\n"),
        ("print(1 / 2) print([[abc", "refused main.lua:1:20 L2\n"),
        ("local x: integer = 1", "refused main.lua:1:8 P5\n"),
        ("x = 1 print(1 / 2)", "refused main.lua:1:15 P2\n"),
        ("x = 1", "refused main.lua:1:1 S1\n"),
        ("local t = {} x = 1", "refused main.lua:1:14 S1\n"),
        ("print = 1", "refused main.lua:1:1 S2\n"),
        ("local t = {}", "refused main.lua:1:1 X1\n"),
        ("local t = nil print(t.x)", "refused main.lua:1:1 X1\n"),
        ("local t = nil t:f()", "refused main.lua:1:1 X1\n"),
        (
            "local t = nil function t.f() end",
            "refused main.lua:1:1 X1\n",
        ),
        ("print(type(1))", "refused main.lua:1:1 X1\n"),
        ("require \"m\"", "refused main.lua:1:1 X1\n"),
    ] {
        check_run(
            &rt,
            rt.alloc(),
            "main.lua",
            text.as_bytes(),
            Status::Refused,
            "",
            line,
        )?;
    }
    Ok(())
}

#[test]
fn long_chains_run(rt: HostRuntime) -> Result<(), Fail> {
    let alloc = rt.alloc();
    let text = repeated(alloc, "print(1", " + 1", 900, ")")?;
    check_run(
        &rt,
        alloc,
        "main.lua",
        text.as_bytes(),
        Status::Done,
        "901\n",
        "done 1\n",
    )
}
