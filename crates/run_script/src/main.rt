// Runs a script on the floor of a shop, and prints what it prints.
#![tactic(auto)]

use anyhow::anyhow;
use keys::refusal::Refusal;
use lex::fault::{Fault, FaultKind};
use lex::token::Place;
use script::run::run;
use script_model::ending::Ending;
use std::alloc::Global;
use std::io::Read;
use std::{env, fs, io};

const HELP: &str = "gaqtseni [FILE]

Runs a script on a floor and prints a line for each form, and then the report. The script is read from FILE,
or from standard input where no file is named. It has at most 32,768 bytes, and one form a line:

  (floor KIND S L N M)   first: KIND is cutting or pattern; S stations, L ledger lines, N nodes for keys, M nodes for elements
  (start P OP)           station P starts OP: (add K), (drop K), (find K), (put E) or (take)
  (touch P)              one touch of station P
  (collect P)            takes the answer of station P
  (close)                closes the floor

On a cutting floor K is (letter m) or (w 82 76), and E is (ticket K PLIES).
On a pattern floor K is (piece A 12), and E is (order K COPIES).

A call that is sent back prints (refused NUMBER). A fault in the script prints (fault NUMBER LINE BYTE) and ends the run.
The exit status is 0 where the run ends with its report, and 1 where it does not.";

// One byte more than a script may have, so that one that is too long is seen to be.
const MOST_READ: u64 = 32769;

// Reads a script to its end, or as far as it shows that the script is too long.
fn read_script(heap: Global, source: impl Read + Drop) -> io::Result<Vec<u8>> {
    let mut script = Vec::new(heap);
    source.take(MOST_READ).read_to_end(&mut script)?;
    Ok(script)
}

// Reads the script of a file.
fn read_file(rt: &HostRuntime, path: &str) -> io::Result<Vec<u8>> {
    read_script(rt.alloc(), fs::open(rt, path)?)
}

// What is wrong with a line of a script, and what may stand there. It is no Display of the kind, which would put the
// program's advice into the crate of faults.
fn advice(kind: FaultKind) -> &'static str {
    match kind {
        FaultKind::TooLong => "the script is longer than 32,768 bytes: cut it into several scripts",
        FaultKind::OtherByte =>
            "a script has letters, digits, spaces, round brackets and newlines, and no other byte",
        FaultKind::OtherRun =>
            "neither a word (1 to 8 letters and digits, a letter first) nor a number (1 to 5 digits, no zero in front)",
        FaultKind::NoForm =>
            "no form that may stand here: the floor form comes first and only there, one form a line, and nothing after the close; --help lists the forms",
    }
}

// Why a floor was not opened, and which sizes it may have, by the letters of the help. The refusal's own text has none.
fn reason(refusal: Refusal) -> &'static str {
    match refusal {
        Refusal::StationCount => "S, the number of stations, is 1 to 16",
        Refusal::LedgerLimit => "L, the number of ledger lines, is 1 to 1,024",
        Refusal::NestSize => "N, the number of nodes for keys, is 1 to 512",
        Refusal::LineSize => "M, the number of nodes for elements, is 1 to 512",
        _ => "it was sent back",
    }
}

// Says on standard error why a run has no report.
fn explain(rt: &HostRuntime, ending: Ending) -> anyhow::Result<()> {
    match ending {
        Ending::Reported => Ok(()),
        Ending::NotOpened(refusal) => {
            eprintln!(rt;
                "gaqtseni: line 1: the floor was not opened: {}",
                reason(refusal)
            )?;
            Err(anyhow!("the floor was not opened"))
        }
        Ending::Faulty(Fault { kind, place }) => {
            let Place { line, byte } = place;
            eprintln!(rt; "gaqtseni: line {line}, byte {byte}: {}", advice(kind))?;
            Err(anyhow!("the script is at fault"))
        }
    }
}

// Runs a script and prints what it prints.
fn run_and_print(rt: &HostRuntime, script: &[u8]) -> anyhow::Result<()> {
    let transcript = run(rt.alloc(), script)?;
    print!(rt; "{}", transcript.text)?;
    explain(rt, transcript.ending)
}

// Runs the script that was read from there, or says that it cannot be read.
fn run_read(rt: &HostRuntime, source: &str, script: io::Result<Vec<u8>>) -> anyhow::Result<()> {
    match script {
        Ok(script) => run_and_print(rt, &script),
        Err(error) => {
            eprintln!(rt; "gaqtseni: {source} cannot be read: {error}")?;
            Err(error.into())
        }
    }
}

fn main(rt: HostRuntime) -> anyhow::Result<()> {
    let mut words = env::args(&rt)?.skip(1);
    let Some(first) = words.next() else {
        let script = read_script(rt.alloc(), rt.stdin());
        return run_read(&rt, "standard input", script);
    };
    if words.next().is_some() {
        eprintln!(rt;
            "gaqtseni: one script at a time: name one file, or none to read standard input; --help says more"
        )?;
        return Err(anyhow!("too many arguments"));
    }
    if first.as_str() == "--help" {
        println!(rt; "{HELP}")?;
        return Ok(());
    }
    let path = first.as_str();
    run_read(&rt, path, read_file(&rt, path))
}
