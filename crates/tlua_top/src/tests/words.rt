use crate::Status;
use crate::tests::calls::{check_run, check_words};
use std::test::Fail;

#[test]
fn words_without_a_reading(rt: HostRuntime) -> Result<(), Fail> {
    let usage = "usage: tlua run|check|erase|code|gen\n";
    check_words(
        &rt,
        rt.alloc(),
        &[],
        "main.lua",
        b"",
        Status::Usage,
        "",
        usage,
    )?;
    check_words(
        &rt,
        rt.alloc(),
        &["run"],
        "main.lua",
        b"",
        Status::Usage,
        "",
        usage,
    )?;
    check_words(
        &rt,
        rt.alloc(),
        &["run", "main.lua", "main.lua"],
        "main.lua",
        b"",
        Status::Usage,
        "",
        usage,
    )?;
    for (command, file) in [
        ("check", "main.lua"),
        ("Run", "main.lua"),
        ("", "main.lua"),
        ("main.lua", "run"),
        ("run", "-"),
        ("run", "-main.lua"),
    ] {
        check_words(
            &rt,
            rt.alloc(),
            &[command, file],
            "main.lua",
            b"",
            Status::Usage,
            "",
            usage,
        )?;
    }
    Ok(())
}

#[test]
fn files_that_are_refused_by_their_words(rt: HostRuntime) -> Result<(), Fail> {
    for (word, line) in [
        ("", "refused :1:1 X1\n"),
        ("a.txt", "refused a.txt:1:1 X1\n"),
        ("lua", "refused lua:1:1 X1\n"),
        ("main.LUA", "refused main.LUA:1:1 X1\n"),
        ("main.lua ", "refused main.lua :1:1 X1\n"),
        ("main.tlx", "refused main.tlx:1:1 X1\n"),
        ("none.lua", "refused none.lua:1:1 G6\n"),
        ("none.tl", "refused none.tl:1:1 G6\n"),
        (".lua", "refused .lua:1:1 G6\n"),
        ("./main.lua", "refused ./main.lua:1:1 G6\n"),
    ] {
        check_words(
            &rt,
            rt.alloc(),
            &["run", word],
            "main.lua",
            b"",
            Status::Refused,
            "",
            line,
        )?;
    }
    Ok(())
}

#[test]
fn files_of_the_greatest_length(rt: HostRuntime) -> Result<(), Fail> {
    let alloc = rt.alloc();
    for (name, length, filler, status, line) in [
        ("main.lua", 1048576, b' ', Status::Done, "done 1\n"),
        (
            "main.lua",
            1048577,
            b' ',
            Status::Refused,
            "refused main.lua:1:1 L5\n",
        ),
        (
            "main.tl",
            1048577,
            b' ',
            Status::Refused,
            "refused main.tl:1:1 L5\n",
        ),
        (
            "main.lua",
            1048576,
            b'?',
            Status::Refused,
            "refused main.lua:1:1 P1\n",
        ),
        (
            "main.lua",
            1048577,
            b'?',
            Status::Refused,
            "refused main.lua:1:1 L5\n",
        ),
    ] {
        let text = vec![in alloc; filler; length]?;
        check_run(&rt, alloc, name, text.as_slice(), status, "", line)?;
    }
    Ok(())
}
