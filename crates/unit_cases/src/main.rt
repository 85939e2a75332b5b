// Carries out the calls on standard input, one to a line, on both address books or on all policies,
// and prints the answers, to be compared with those of an independent calculation. A line is a word
// and numbers below 256; `new` begins with new books and policies.
#![tactic(auto)]

use bench::Bench;
use call::Call;
use std::alloc::{AllocError, Global};
use std::io::{Read, Write};
use text::lines::Lines;

mod bench;
mod books;
mod call;

fn main(rt: HostRuntime) -> anyhow::Result<()> {
    let mut input = Vec::new(rt.alloc());
    rt.stdin().read_to_end(&mut input)?;
    let output = answers(rt.alloc(), input.as_slice())?;
    rt.stdout().write_all(output.as_bytes())?;
    Ok(())
}

// The answers to all lines of the input.
fn answers(heap: Global, input: &[u8]) -> Result<String, AllocError> {
    let mut output = String::new(heap);
    let mut bench = Bench::new();
    for line in Lines::of(input) {
        bench.answer(Call::read(heap, line)?, &mut output)?;
        output.push('\n')?;
    }
    Ok(output)
}
