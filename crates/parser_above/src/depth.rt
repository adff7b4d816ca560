//! Modules that are just deep enough, and such that are too deep.

use crate::faults::answer;
use std::alloc::{AllocError, Global};
use std::test::Fail;
use tl_base::ModuleKind;

// A part that is repeated: what stands before it, the part, what stands in the middle, what closes each part, and what stands behind.
type Parts = [&'static str; 5];

fn text(alloc: Global, parts: Parts, times: usize) -> Result<String, AllocError> {
    let [before, part, middle, close, after] = parts;
    let mut text = String::new(alloc);
    text.push_str(before)?;
    for _ in 0..times {
        text.push_str(part)?;
    }
    text.push_str(middle)?;
    for _ in 0..times {
        text.push_str(close)?;
    }
    text.push_str(after)?;
    Ok(text)
}

// So many parts are read, and with one more P4 stands at this column of the first line.
type Limit = (Parts, usize, u32);

const STATEMENTS: [Limit; 12] = [
    (["print(", "(", "1", ")", ")"], 199, 207),
    (["", "function f() ", "", "end ", ""], 199, 2599),
    (["return ", "(", "1", ")", ""], 200, 209),
    (["return ", "- ", "1", "", ""], 200, 410),
    (["return ", "not ", "x", "", ""], 200, 812),
    (["return ", "{", "", "}", ""], 200, 209),
    (["return a", "..a", "", "", ""], 201, 612),
    (["", "if a then ", "", "end ", ""], 200, 2004),
    (["", "while a do ", "", "end ", ""], 200, 2207),
    (["x = a", ".a", "", "", ""], 999, 2005),
    (["x = 1", " + 1", "", "", ""], 999, 4005),
    (["f", "()", "", "", ""], 999, 2001),
];

const TYPES: [Limit; 2] = [
    (["local x: ", "(", "integer", ")", ""], 200, 211),
    (["local x: ", "{", "integer", "}", ""], 200, 211),
];

fn is_as_deep(alloc: Global, kind: ModuleKind, limit: &Limit) -> Result<bool, AllocError> {
    let (parts, most, column) = *limit;
    let whole = answer(alloc, kind, text(alloc, parts, most)?.as_str())?;
    let more = text(alloc, parts, most.saturating_add(1))?;
    let deep = answer(alloc, kind, more.as_str())?;
    let wanted = format!(in alloc; "1:{column} P4")?;
    Ok(whole.as_str() == "tree" && deep.as_str() == wanted.as_str())
}

#[test]
fn what_is_too_deep_is_told_at_its_place(rt: HostRuntime) -> Result<(), Fail> {
    let alloc = rt.alloc();
    for limit in &STATEMENTS {
        let column = limit.2;
        assert!(rt;
            is_as_deep(alloc, ModuleKind::Untyped, limit)?,
            "column {column}"
        );
    }
    for limit in &TYPES {
        let column = limit.2;
        assert!(rt;
            is_as_deep(alloc, ModuleKind::Typed, limit)?,
            "column {column}"
        );
    }
    Ok(())
}

#[test]
fn an_elseif_nests_nothing(rt: HostRuntime) -> Result<(), Fail> {
    let alloc = rt.alloc();
    let chain = text(alloc, ["if a then ", "elseif a then ", "", "", "end"], 5000)?;
    assert_eq!(rt;
        answer(alloc, ModuleKind::Untyped, chain.as_str())?.as_str(),
        "tree"
    );
    Ok(())
}

// The token behind 200 pairs is inside 201 constructs, and no expression begins with it.
#[test]
fn at_one_token_the_fault_comes_first(rt: HostRuntime) -> Result<(), Fail> {
    let alloc = rt.alloc();
    for (middle, times, wanted) in [
        ("", 200, "1:207 P1"),
        ("1 / 1", 199, "1:208 P2"),
        ("1 / 1", 200, "1:207 P4"),
    ] {
        let cut = text(alloc, ["print(", "(", middle, ")", ")"], times)?;
        assert_eq!(rt;
            answer(alloc, ModuleKind::Untyped, cut.as_str())?.as_str(),
            wanted,
            "{middle} in {times}"
        );
    }
    Ok(())
}
