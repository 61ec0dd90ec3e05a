//! What lists of words choose, and which are refused.
use sq_value::Str;
use sq_words::{Choice, Mode, WordsFault, read_words};
use std::alloc::Global;
use std::test::Fail;

// What the words of a line choose, which stand apart by single spaces, if they are taken. A refusal has a text of whole lines.
fn chosen(alloc: Global, line: &str) -> Result<Option<Choice>, Fail> {
    let mut words = Vec::new(alloc);
    for word in line.split(' ') {
        if !word.is_empty() {
            words.push(Str::of(alloc, word)?)?;
        }
    }
    match read_words(alloc, &words) {
        Ok(choice) => Ok(Some(choice)),
        Err(WordsFault::Usage { text }) => {
            if text.as_str().ends_with("\n") {
                Ok(None)
            } else {
                Err(Fail::from("the text of a refusal does not end its line"))
            }
        }
        Err(WordsFault::Memory) => Err(Fail::from("memory ran out")),
    }
}

fn choice(mode: Mode, workers: u32, seed: u32, ticks: u32) -> Option<Choice> {
    Some(Choice {
        mode,
        workers,
        seed,
        ticks,
    })
}

#[test]
fn words_in_the_table_are_taken(rt: HostRuntime) -> Result<(), Fail> {
    let lines: [(&str, Option<Choice>); 14] = [
        ("", choice(Mode::Run, 1, 1, 1000)),
        ("run", choice(Mode::Run, 1, 1, 1000)),
        ("check", choice(Mode::Check, 1, 1, 1000)),
        ("explain", choice(Mode::Explain, 1, 1, 1000)),
        ("sample", choice(Mode::Sample, 1, 1, 1000)),
        ("--workers 64", choice(Mode::Run, 64, 1, 1000)),
        ("--workers=1", choice(Mode::Run, 1, 1, 1000)),
        ("sample --seed 1 --ticks 2", choice(Mode::Sample, 1, 1, 2)),
        ("--seed 0 sample", choice(Mode::Sample, 1, 0, 1000)),
        (
            "--ticks=1000000 --seed=4294967295 check --workers=33",
            choice(Mode::Check, 33, 4_294_967_295, 1_000_000),
        ),
        ("explain --ticks 1", choice(Mode::Explain, 1, 1, 1)),
        ("--workers 007", choice(Mode::Run, 7, 1, 1000)),
        ("--workers +7", choice(Mode::Run, 7, 1, 1000)),
        ("-- check", choice(Mode::Check, 1, 1, 1000)),
    ];
    for (line, wanted) in lines {
        assert_eq!(rt; chosen(rt.alloc(), line)?, wanted);
    }
    Ok(())
}

#[test]
fn other_words_are_refused(rt: HostRuntime) -> Result<(), Fail> {
    let lines = [
        "--workers 0",
        "--workers 65",
        "--workers -1",
        "--workers x",
        "--workers",
        "--workers 1 --workers 1",
        "--work 1",
        "fly",
        "Run",
        "run check",
        "--help",
        "-h",
        "--version",
        "--ticks 0",
        "--ticks 1000001",
        "--seed 4294967296",
        "--seed -1",
    ];
    for line in lines {
        assert_eq!(rt; chosen(rt.alloc(), line)?, None);
    }
    Ok(())
}
