use crate::tests::calls::{one_file, owned};
use crate::{Status, tlua};
use std::alloc::Global;
use std::process::Abort;
use std::test::Fail;
use tl_base::{Bytes, List, NoMemory};
use tl_edge::{Failed, Files, MemFiles, MemSink, MemSource, Sink, Source};

/// The number of the call of each object that is to fail, from 1.
#[derive(Clone, Copy)]
struct Failing {
    files: u64,
    output: u64,
    report: u64,
}

fn only(alloc: Global, number: u64) -> Result<List<u64>, NoMemory> {
    let mut numbers = List::new(alloc);
    numbers.push(number)?;
    Ok(numbers)
}

/// A call that runs one file, over an input whose first read would fail.
fn check_failing<R: Abort>(
    rt: &R,
    alloc: Global,
    word: &str,
    text: &str,
    failing: Failing,
    status: Status,
    printed: &str,
    told: &str,
) -> Result<(), Fail> {
    let words = owned(alloc, &["run", word])?;
    let mut files = MemFiles::new(
        alloc,
        one_file(alloc, "main.tl", text.as_bytes())?,
        only(alloc, failing.files)?,
    )?;
    let mut input = MemSource::new(alloc, Bytes::from_slice(alloc, b"input")?, only(alloc, 1)?)?;
    let mut output = MemSink::new(alloc, only(alloc, failing.output)?)?;
    let mut report = MemSink::new(alloc, only(alloc, failing.report)?)?;
    let result = tlua(
        alloc,
        &words,
        &mut files,
        &mut input,
        &mut output,
        &mut report,
    );
    assert_eq!(rt; result, status);
    assert_eq!(rt; output.bytes(), printed.as_bytes());
    assert_eq!(rt; report.bytes(), told.as_bytes());
    assert_eq!(rt; files.faults(), u64::from(status == Status::ReadFault));
    assert_eq!(rt;
        output.faults().saturating_add(report.faults()),
        u64::from(status == Status::WriteFault)
    );
    assert_eq!(rt; input.read(&mut [0; 8]), Err(Failed));
    Ok(())
}

#[test]
fn a_failing_call_stops_a_run(rt: HostRuntime) -> Result<(), Fail> {
    let text = "local a: any = 4\nprint(a * a)\nprint(\"b\")";
    let ahead = "crossing main.tl:2:7 operand\ncrossing main.tl:2:11 operand\n";
    let all = "crossing main.tl:2:7 operand\ncrossing main.tl:2:11 operand\ndone 1\n";
    for (files, output, report, status, printed, told) in [
        (0, 0, 0, Status::Done, "16\nb\n", all),
        (1, 0, 0, Status::ReadFault, "", ""),
        (1, 1, 1, Status::ReadFault, "", ""),
        (0, 0, 1, Status::WriteFault, "", ""),
        (0, 1, 1, Status::WriteFault, "", ""),
        (0, 1, 0, Status::WriteFault, "", ahead),
        (0, 1, 2, Status::WriteFault, "", ahead),
        (0, 0, 2, Status::WriteFault, "16\nb\n", ahead),
        (0, 2, 0, Status::WriteFault, "16\n", ahead),
        (2, 3, 3, Status::Done, "16\nb\n", all),
    ] {
        let failing = Failing {
            files,
            output,
            report,
        };
        check_failing(
            &rt,
            rt.alloc(),
            "main.tl",
            text,
            failing,
            status,
            printed,
            told,
        )?;
    }
    Ok(())
}

#[test]
fn a_failing_call_stops_what_does_not_run(rt: HostRuntime) -> Result<(), Fail> {
    for (word, files, report, status, told) in [
        (
            "-",
            1,
            2,
            Status::Usage,
            "usage: tlua run|check|erase|code|gen\n",
        ),
        ("-", 1, 1, Status::WriteFault, ""),
        (
            "main.txt",
            1,
            2,
            Status::Refused,
            "refused main.txt:1:1 X1\n",
        ),
        ("main.txt", 1, 1, Status::WriteFault, ""),
        ("none.tl", 1, 1, Status::ReadFault, ""),
        ("none.tl", 2, 1, Status::WriteFault, ""),
        ("main.tl", 1, 1, Status::ReadFault, ""),
        ("main.tl", 2, 1, Status::WriteFault, ""),
        ("main.tl", 2, 2, Status::Refused, "refused main.tl:1:7 F2\n"),
    ] {
        let failing = Failing {
            files,
            output: 1,
            report,
        };
        check_failing(
            &rt,
            rt.alloc(),
            word,
            "print(nil + 1)",
            failing,
            status,
            "",
            told,
        )?;
    }
    Ok(())
}
