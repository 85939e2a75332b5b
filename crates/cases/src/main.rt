// Reads many sheets from standard input and prints what became of each, to be compared with what
// an independent reader says of them. A line of input: how many wires the table has room for, and
// the sheet's bytes (`-` for none, else parts with commas between: hexadecimal bytes, perhaps
// `*TIMES`). A line of output: the counts or the refusal, and then every record of the table that was
// written.
#![tactic(auto)]

use anyhow::anyhow;
use plan::wire::{End, Wire, WireState};
use sheet::read::read_sheet;
use std::alloc::Global;
use std::io;
use std::io::{BufRead, BufReader};
use std::process::ExitCode;

// What a record of the table holds before the reading, and no sheet can put there. No `Option`: the
// table that `read_sheet` is lent has plain records.
const UNTOUCHED: End = End {
    board: 255,
    port: 255,
};

const BLANK: Wire = Wire {
    first: UNTOUCHED,
    second: UNTOUCHED,
    state: WireState::Dead,
};

fn main(rt: HostRuntime) -> ExitCode {
    match judge_all(&rt) {
        Ok(()) => ExitCode::SUCCESS,
        Err(_) => ExitCode::FAILURE,
    }
}

// Reads the sheets, one from each line.
fn judge_all(rt: &HostRuntime) -> anyhow::Result<()> {
    for line in BufReader::new(rt.alloc(), rt.stdin())?.lines(rt.alloc()) {
        judge(rt, line?.as_str())?;
    }
    Ok(())
}

// Reads one sheet and prints what became of it.
fn judge(rt: &HostRuntime, line: &str) -> anyhow::Result<()> {
    let Some((room, text)) = line.split_once(" ") else {
        return Err(anyhow!("a line has two words"));
    };
    let sheet = decoded(rt.alloc(), text)?;
    let mut table = vec![in rt.alloc(); BLANK; room.parse::<usize>()?]?;
    match read_sheet(sheet.as_slice(), table.as_mut_slice()) {
        Ok(counts) => print!(rt; "{counts}")?,
        Err(fault) => {
            // The line that `carry` prints too; no crate is shared for this one line.
            let refusal = fault.refusal();
            print!(rt; "refused: {refusal} ({fault})")?;
        }
    }
    print_records(rt, table.as_slice())?;
    println!(rt; "")?;
    Ok(())
}

// Every record of the table that was written, in the bare numbers of the independent reader, and so
// not by `Display`.
fn print_records(rt: &HostRuntime, table: &[Wire]) -> io::Result<()> {
    for (number, wire) in table.iter().enumerate() {
        let (first, second) = (wire.first, wire.second);
        if first != UNTOUCHED {
            print!(rt; "; {number}")?;
            for n in [first.board, first.port, second.board, second.port] {
                print!(rt; " {n}")?;
            }
            let state = wire.state;
            print!(rt; " {state}")?;
        }
    }
    Ok(())
}

// The bytes that a text stands for.
fn decoded(heap: Global, text: &str) -> anyhow::Result<Vec<u8>> {
    let mut bytes = Vec::new(heap);
    if text == "-" {
        return Ok(bytes);
    }
    for part in text.split(",") {
        let (digits, times) = match part.split_once("*") {
            Some((digits, times)) => (digits, times.parse::<usize>()?),
            None => (part, 1),
        };
        for _ in 0..times {
            push_hex(&mut bytes, digits.as_bytes())?;
        }
    }
    Ok(bytes)
}

// The kit's `hex` also takes capital letters and refuses a digit left over, and what this program
// takes stays as it was.
fn push_hex(bytes: &mut Vec<u8>, digits: &[u8]) -> anyhow::Result<()> {
    let (pairs, left) = digits.as_chunks::<2>();
    for [high, low] in pairs {
        bytes.push(hex_value(*high)? << 4 | hex_value(*low)?)?;
    }
    for digit in left {
        hex_value(*digit)?;
    }
    Ok(())
}

fn hex_value(digit: u8) -> anyhow::Result<u8> {
    match digit {
        b'0'..=b'9' => Ok(digit - b'0'),
        b'a'..=b'f' => Ok(digit - b'a' + 10),
        _ => Err(anyhow!("not a hexadecimal digit")),
    }
}
