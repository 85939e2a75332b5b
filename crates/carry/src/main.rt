// The program: reads a wiring sheet and says what it holds, or why it is refused.
#![tactic(auto)]

use anyhow::anyhow;
use plan::wire::Wire;
use sheet::counts::Counts;
use sheet::read::{SHEET_BYTES, read_sheet};
use std::fs::File;
use std::io::Read;
use std::process::ExitCode;
use std::{env, io};
use thiserror::Error;

const USAGE: &str = "usage: carry SHEET";

// A plan has at most 1,024 ports, and each wire takes two.
const WIRES: usize = 512;

// What the arguments ask for.
#[derive(Drop)]
struct Request {
    sheet: String,
}

// Why nothing can be done with the arguments.
#[derive(Debug, Drop, Error)]
enum Misuse {
    #[error("unknown option {0}")]
    UnknownOption(String),
    #[error("more than one sheet")]
    SecondSheet,
    #[error("no sheet")]
    NoSheet,
    #[error(transparent)]
    Unread(#[from] io::Error),
}

fn main(rt: HostRuntime) -> ExitCode {
    match run(&rt) {
        Ok(()) => ExitCode::SUCCESS,
        Err(_) => ExitCode::FAILURE,
    }
}

// Does what is asked. An error has been told where it was found.
fn run(rt: &HostRuntime) -> anyhow::Result<()> {
    match asked(rt) {
        Ok(request) => carry(rt, &request),
        Err(misuse) => {
            eprintln!(rt; "carry: {misuse}")?;
            eprintln!(rt; "{USAGE}")?;
            Err(anyhow!("misused"))
        }
    }
}

// The one argument, a sheet's path.
fn asked(rt: &HostRuntime) -> Result<Request, Misuse> {
    let mut sheet = None;
    for word in env::args(rt)?.skip(1) {
        if word.as_str().starts_with("-") {
            return Err(Misuse::UnknownOption(word));
        }
        if sheet.is_some() {
            return Err(Misuse::SecondSheet);
        }
        sheet = Some(word);
    }
    let sheet = sheet.ok_or(Misuse::NoSheet)?;
    Ok(Request { sheet })
}

// Reads the sheet and prints what it holds, or the refusal.
fn carry(rt: &HostRuntime, request: &Request) -> anyhow::Result<()> {
    let bytes = match sheet_bytes(rt, request.sheet.as_str()) {
        Ok(bytes) => bytes,
        Err(e) => {
            let path = request.sheet.as_str();
            eprintln!(rt; "carry: {path}: {e}")?;
            return Err(e.into());
        }
    };
    let mut table = [Wire::default(); WIRES];
    match read_sheet(bytes.as_slice(), &mut table) {
        Ok(counts) => Ok(print_plan(rt, counts, &table)?),
        Err(fault) => {
            let refusal = fault.refusal();
            println!(rt; "refused: {refusal} ({fault})")?;
            Err(anyhow!("refused"))
        }
    }
}

// The sheet's bytes, one more at most than a sheet may have, so that any file will do.
fn sheet_bytes(rt: &HostRuntime, path: &str) -> io::Result<Vec<u8>> {
    let mut bytes = Vec::new(rt.alloc());
    let file = File::open(rt, path)?;
    file.take(SHEET_BYTES as u64 + 1).read_to_end(&mut bytes)?;
    Ok(bytes)
}

fn print_plan(rt: &HostRuntime, counts: Counts, table: &[Wire]) -> io::Result<()> {
    println!(rt; "read {counts}")?;
    for (number, wire) in table.iter().take(counts.wires).enumerate() {
        println!(rt; "wire {number}: {wire}")?;
    }
    Ok(())
}
