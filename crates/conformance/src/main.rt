// Runs every script of the folder and compares what it prints with the report beside it. The index names them.
#![tactic(auto)]

use script::run::run;
use std::alloc::Global;
use std::fs;

// Does the script of that name print its report, byte for byte? One that does not is named.
fn agrees(rt: &HostRuntime, name: &str) -> anyhow::Result<bool> {
    let heap: Global = rt.alloc();
    let script = fs::read(rt, &format!(in heap; "{name}.script")?)?;
    let report = fs::read(rt, &format!(in heap; "{name}.report")?)?;
    let transcript = run(heap, &script)?;
    let agrees = transcript.text.as_bytes() == report.as_slice();
    if !agrees {
        println!(rt; "{name} differs")?;
    }
    Ok(agrees)
}

// They are counted as they are compared: a list of verdicts would want memory for each line of the index.
fn main(rt: HostRuntime) -> anyhow::Result<()> {
    let index = fs::read_to_string(&rt, "index.txt")?;
    let mut agreed: usize = 0;
    let mut differed: usize = 0;
    for name in index.lines() {
        if agrees(&rt, name)? {
            agreed = agreed.saturating_add(1);
        } else {
            differed = differed.saturating_add(1);
        }
    }
    println!(rt; "{agreed} scripts agree, {differed} differ")?;
    Ok(())
}
