use crate::Status;
use crate::tests::calls::{check_run, repeated};
use std::alloc::Global;
use std::process::Abort;
use std::test::Fail;

#[test]
fn typed_modules_without_crossings_run(rt: HostRuntime) -> Result<(), Fail> {
    for (text, printed) in [
        ("", ""),
        (
            "print(2 - 3 * 4, nil, true, false, \"s\")",
            "-10\tnil\ttrue\tfalse\ts\n",
        ),
        ("local x = 1 x = x + 1 print(x)", "2\n"),
        (
            "local x = 1 local x = x + 1 local y = \"s\" print(x, y)",
            "2\ts\n",
        ),
        ("local b = true b = false print(b)", "false\n"),
        ("local u = nil u = 1 u = \"s\" print(u)", "s\n"),
        (
            "local n: nil = nil local b: boolean = false print(n, b)",
            "nil\tfalse\n",
        ),
        (
            "local i: integer = 1 local s: string = \"s\" print(i, s)",
            "1\ts\n",
        ),
        (
            "local v: value = 1 print(v + 1) v = \"s\" print(v)",
            "2\ns\n",
        ),
        (
            "local v: value = \"s\" v = 1 local n: integer = v print(n * n)",
            "1\n",
        ),
        ("local a: any = \"s\" a = nil print(a)", "nil\n"),
    ] {
        check_run(
            &rt,
            rt.alloc(),
            "main.tl",
            text.as_bytes(),
            Status::Done,
            printed,
            "done 1\n",
        )?;
    }
    Ok(())
}

#[test]
fn typed_modules_with_a_fault_are_refused(rt: HostRuntime) -> Result<(), Fail> {
    for (text, line) in [
        ("local n: integer = \"s\"", "refused main.tl:1:20 F1\n"),
        ("local s: string = 1 + 2", "refused main.tl:1:19 F1\n"),
        ("local b: boolean = nil", "refused main.tl:1:20 F1\n"),
        ("local x = 1\nx = \"s\"", "refused main.tl:2:5 F1\n"),
        ("local b = true\nb = 1", "refused main.tl:2:5 F1\n"),
        (
            "local v: value = \"s\"\nlocal n: integer = v",
            "refused main.tl:2:20 F1\n",
        ),
        ("print(\"x\" + 1)", "refused main.tl:1:7 F2\n"),
        ("print(1 - true)", "refused main.tl:1:11 F2\n"),
        ("print(\"x\" * nil)", "refused main.tl:1:7 F2\n"),
        ("print(1, 2 + 3 * \"x\")", "refused main.tl:1:18 F2\n"),
        (
            "local a: any = 1\nprint(a + \"x\")",
            "refused main.tl:2:11 F2\n",
        ),
        (
            "local x: value = 1\nx = \"s\"\nprint(x + 1)",
            "refused main.tl:3:7 F2\n",
        ),
        (
            "print(1 + nil)\nlocal n: integer = \"s\"",
            "refused main.tl:1:11 F2\n",
        ),
        (
            "local n: integer = \"s\"\nprint(1 + nil)",
            "refused main.tl:1:20 F1\n",
        ),
    ] {
        check_run(
            &rt,
            rt.alloc(),
            "main.tl",
            text.as_bytes(),
            Status::Refused,
            "",
            line,
        )?;
    }
    Ok(())
}

#[test]
fn other_typed_modules_are_refused(rt: HostRuntime) -> Result<(), Fail> {
    for (text, line) in [
        ("print(x)", "refused main.tl:1:7 S1\n"),
        ("x = 1", "refused main.tl:1:1 S1\n"),
        ("local x = x", "refused main.tl:1:11 S1\n"),
        ("print = 1", "refused main.tl:1:1 S2\n"),
        ("local end = 1", "refused main.tl:1:7 P1\n"),
        ("local x = 1 / 2", "refused main.tl:1:13 P2\n"),
        ("local x == 1", "refused main.tl:1:9 P1\n"),
        ("print(1", "refused main.tl:1:8 P1\n"),
        ("local print = 1", "refused main.tl:1:1 X1\n"),
        ("local x = print", "refused main.tl:1:1 X1\n"),
        ("local x: number = 1", "refused main.tl:1:1 X1\n"),
        ("local x: true = true", "refused main.tl:1:1 X1\n"),
        ("local x: integer", "refused main.tl:1:1 X1\n"),
        ("local x, y = 1, 2", "refused main.tl:1:1 X1\n"),
        ("local x = (1)", "refused main.tl:1:1 X1\n"),
        ("local x = -1", "refused main.tl:1:1 X1\n"),
        ("local x = 1;", "refused main.tl:1:1 X1\n"),
        ("print()", "refused main.tl:1:1 X1\n"),
        ("return", "refused main.tl:1:1 X1\n"),
        (
            "local n: integer = \"s\" return",
            "refused main.tl:1:1 X1\n",
        ),
    ] {
        check_run(
            &rt,
            rt.alloc(),
            "main.tl",
            text.as_bytes(),
            Status::Refused,
            "",
            line,
        )?;
    }
    Ok(())
}

/// A module that has its middle part so many times runs and prints this, or is refused so where nothing is to be printed.
fn check_repeated<R: Abort>(
    rt: &R,
    alloc: Global,
    parts: (&str, &str, &str),
    count: u32,
    printed: &str,
    line: &str,
) -> Result<(), Fail> {
    let text = repeated(alloc, parts.0, parts.1, count, parts.2)?;
    let status = if printed.is_empty() {
        Status::Refused
    } else {
        Status::Done
    };
    check_run(rt, alloc, "main.tl", text.as_bytes(), status, printed, line)
}

#[test]
fn typed_modules_have_200_locals_and_200_atoms(rt: HostRuntime) -> Result<(), Fail> {
    let alloc = rt.alloc();
    let locals = ("local x = 0 ", "local x = x + 1 ", "print(x)");
    let sum = ("local x = 0 x = x", " + 1", " print(x)");
    let difference = ("local x = 0 local y = x", " - 1", " print(y)");
    let product = ("local x = 2 print(x, 1", " * x", ")");
    let done = "done 1\n";
    let other = "refused main.tl:1:1 X1\n";
    check_repeated(&rt, alloc, locals, 199, "199\n", done)?;
    check_repeated(&rt, alloc, locals, 200, "", "refused main.tl:1:3203 S5\n")?;
    check_repeated(&rt, alloc, sum, 199, "199\n", done)?;
    check_repeated(&rt, alloc, sum, 200, "", other)?;
    check_repeated(&rt, alloc, difference, 200, "", other)?;
    check_repeated(&rt, alloc, product, 199, "2\t0\n", done)?;
    check_repeated(&rt, alloc, product, 200, "", other)
}

#[test]
fn crossings_are_listed(rt: HostRuntime) -> Result<(), Fail> {
    for (text, printed, lines) in [
        (
            "local a: any = 4\nlocal n: integer = a + 1\nprint(n)",
            "5\n",
            "crossing main.tl:2:20 place\ncrossing main.tl:2:20 operand\ndone 1\n",
        ),
        (
            "local a: any = 4\nlocal n: integer = a\nprint(n + n)",
            "8\n",
            "crossing main.tl:2:20 place\ndone 1\n",
        ),
        (
            "local a: any = 4\nprint(a + 1 + 1)",
            "6\n",
            "crossing main.tl:2:7 operand\ndone 1\n",
        ),
        (
            "local a: any = 4 local b: any = 5\nprint(2 * a - b, a)",
            "3\t4\n",
            "crossing main.tl:2:7 operand\ncrossing main.tl:2:11 operand\ncrossing main.tl:2:15 operand\ndone 1\n",
        ),
        (
            "local a: any = 4\nlocal v: value = a\nprint(v * v)",
            "16\n",
            "crossing main.tl:3:7 operand\ncrossing main.tl:3:11 operand\ndone 1\n",
        ),
        (
            "local a: any = 4\nlocal n = 1\nn = a\na = n\nprint(n + a)",
            "8\n",
            "crossing main.tl:3:5 place\ncrossing main.tl:5:11 operand\ndone 1\n",
        ),
    ] {
        check_run(
            &rt,
            rt.alloc(),
            "main.tl",
            text.as_bytes(),
            Status::Done,
            printed,
            lines,
        )?;
    }
    Ok(())
}

#[test]
fn kind_errors_name_the_first_crossing(rt: HostRuntime) -> Result<(), Fail> {
    for (text, printed, lines) in [
        (
            "local a: any = \"s\"\nprint(a + 1)",
            "",
            "crossing main.tl:2:7 operand\nkind main.tl:2:7 after main.tl:2:7 operand\nerror 1 main.tl:2:7: arithmetic on a string\n",
        ),
        (
            "local x = nil\nprint(x + 1)",
            "",
            "crossing main.tl:2:7 operand\nkind main.tl:2:7 after main.tl:2:7 operand\nerror 1 main.tl:2:7: arithmetic on a nil\n",
        ),
        (
            "local a: any = true\nprint(1, 2 - a)\nprint(3)",
            "",
            "crossing main.tl:2:14 operand\nkind main.tl:2:10 after main.tl:2:14 operand\nerror 1 main.tl:2:10: arithmetic on a boolean\n",
        ),
        (
            "local a: any = nil local b: any = \"s\"\nprint(b * a)",
            "",
            "crossing main.tl:2:7 operand\ncrossing main.tl:2:11 operand\nkind main.tl:2:7 after main.tl:2:7 operand\nerror 1 main.tl:2:7: arithmetic on a string\n",
        ),
        (
            "local a: any = 1\nprint(a + 1)\na = \"s\"\nprint(a - 1)\nprint(a + 1)",
            "2\n",
            "crossing main.tl:2:7 operand\ncrossing main.tl:4:7 operand\ncrossing main.tl:5:7 operand\nkind main.tl:4:7 after main.tl:2:7 operand\nerror 1 main.tl:4:7: arithmetic on a string\n",
        ),
        (
            "local a: any = \"s\"\nlocal n: integer = a + 1",
            "",
            "crossing main.tl:2:20 place\ncrossing main.tl:2:20 operand\nkind main.tl:2:20 after main.tl:2:20 operand\nerror 1 main.tl:2:20: arithmetic on a string\n",
        ),
        (
            "local a: any = \"s\"\nlocal n: integer = a\nprint(n)\nprint(1 + n)",
            "s\n",
            "crossing main.tl:2:20 place\nkind main.tl:4:7 after main.tl:2:20 place\nerror 1 main.tl:4:7: arithmetic on a string\n",
        ),
    ] {
        check_run(
            &rt,
            rt.alloc(),
            "main.tl",
            text.as_bytes(),
            Status::LuaError,
            printed,
            lines,
        )?;
    }
    Ok(())
}

#[test]
fn an_odd_file_word_is_escaped_in_the_error_alone(rt: HostRuntime) -> Result<(), Fail> {
    let lines =
        "crossing a\t\\\n\u{7f}é ~.tl:1:26 operand\nkind a\t\\\n\u{7f}é ~.tl:1:26 after a\t\\\n\u{7f}é ~.tl:1:26 operand\nerror 1 a\\x09\\x5c\\x0a\\x7f\\xc3\\xa9 ~.tl:1:26: arithmetic on a string\n";
    check_run(
        &rt,
        rt.alloc(),
        "a\t\\\n\u{7f}é ~.tl",
        b"local a: any = \"s\" print(a + 1)",
        Status::LuaError,
        "",
        lines,
    )?;
    check_run(
        &rt,
        rt.alloc(),
        "a\t\\\n\u{7f}é ~.tl",
        b"local n: integer = nil",
        Status::Refused,
        "",
        "refused a\t\\\n\u{7f}é ~.tl:1:20 F1\n",
    )
}
