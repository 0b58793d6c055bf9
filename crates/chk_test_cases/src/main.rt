//! Plays the cases of the files that the file `files` names, each on the scene of its folder, and prints how many each
//! file has. For each case that fails it prints the line, and what that answered; it ends with 1 then.
#![tactic(auto)]

use chk_test_agent::{AgentScene, DeliveryScene};
use chk_test_archive::{ArchiveScene, JoinScene};
use chk_test_collector::{CollectorScene, SinkScene, TeeScene, TurnScene};
use chk_test_commands::CommandScene;
use chk_test_engine::{Parts, play_file};
use chk_test_readers::ReaderScene;
use std::alloc::Global;
use std::fs;
use std::process::ExitCode;
use std::test::Fail;

fn main(rt: HostRuntime) -> Result<ExitCode, Fail> {
    let mut parts = Parts::new(rt.alloc());
    let text = fs::read_to_string(&rt, "parts")?;
    parts.add(rt.alloc(), text.as_str())?;
    let files = fs::read_to_string(&rt, "files")?;
    let mut status = ExitCode::SUCCESS;
    for file in files.as_str().lines() {
        if !passes(rt, &parts, file)? {
            status = ExitCode::FAILURE;
        }
    }
    Ok(status)
}

// Whether all cases of the file pass.
fn passes(rt: HostRuntime, parts: &Parts, file: &str) -> Result<bool, Fail> {
    let alloc = rt.alloc();
    let path = format!(in alloc; "{file}.cases")?;
    let text = fs::read_to_string(&rt, path.as_str())?;
    let mut failed = String::new(alloc);
    let played = play(alloc, parts, file, text.as_str(), &mut failed);
    for line in failed.as_str().lines() {
        let _printed = println!(rt; "{file}: {line}");
    }
    let count = played?;
    println!(rt; "{file}: {count} cases")?;
    Ok(failed.is_empty())
}

fn play(
    alloc: Global,
    parts: &Parts,
    file: &str,
    text: &str,
    failed: &mut String,
) -> Result<u64, Fail> {
    let (folder, _) = file.split_once('/').ok_or("no folder")?;
    match folder {
        "sinks" => play_file::<SinkScene>(alloc, parts, text, failed),
        "collector" => play_file::<CollectorScene>(alloc, parts, text, failed),
        "turns" => play_file::<TurnScene>(alloc, parts, text, failed),
        "tee" => play_file::<TeeScene>(alloc, parts, text, failed),
        "archive" => play_file::<ArchiveScene>(alloc, parts, text, failed),
        "join" => play_file::<JoinScene>(alloc, parts, text, failed),
        "readers" => play_file::<ReaderScene>(alloc, parts, text, failed),
        "delivery" => play_file::<DeliveryScene>(alloc, parts, text, failed),
        "agent" | "agent_runs" | "drain" | "checkpoints" => {
            play_file::<AgentScene>(alloc, parts, text, failed)
        }
        "commands" | "udp" => play_file::<CommandScene>(alloc, parts, text, failed),
        _ => Err(Fail::from("no such folder")),
    }
}
