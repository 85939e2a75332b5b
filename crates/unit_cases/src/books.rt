// Questions to an address book, and its answers as text.
use crate::call::Question;
use book::Book;
use book::checks::read_back;
use std::alloc::AllocError;

// What memory holds before a row is written to it.
const UNTOUCHED: u8 = 170;

// Asks a book and adds its answer to the output.
pub(crate) fn answer<B: Book>(
    book: &mut B,
    question: &Question,
    output: &mut String,
) -> Result<(), AllocError> {
    match question {
        Question::Clear => {
            book.clear();
            output.push_str("ok")
        }
        Question::Start { row } => push_yes(output, book.start(*row).is_ok()),
        Question::Extend { row, source, port } => {
            push_yes(output, book.extend(*row, *source, *port).is_ok())
        }
        Question::Depth { row } => push_count(output, book.depth(*row)),
        Question::Shared { row, other } => push_count(output, book.shared(*row, *other)),
        Question::Spells { bytes } => push_yes(output, B::spells(bytes.as_slice())),
        Question::Names { row, bytes } => push_yes(output, book.names(*row, bytes.as_slice())),
        Question::Write { row, room } => {
            let mut memory = [UNTOUCHED; 256];
            write_row(book, *row, &mut memory[..usize::from(*room)], output)
        }
    }
}

// Writes a row to memory; the answer is the spelling's length, and then what memory holds.
fn write_row<B: Book>(
    book: &B,
    row: u8,
    memory: &mut [u8],
    output: &mut String,
) -> Result<(), AllocError> {
    match read_back(book, row, memory) {
        Some((size, true)) => write!(output, "{size}")?,
        Some((_, false)) => output.push_str("not read back")?,
        None => output.push_str("none")?,
    }
    push_memory(output, memory)
}

// The bytes up to the last one touched.
fn push_memory(output: &mut String, memory: &[u8]) -> Result<(), AllocError> {
    let touched = match memory.iter().rposition(|byte| *byte != UNTOUCHED) {
        Some(last) => last + 1,
        None => 0,
    };
    for byte in memory.iter().take(touched) {
        output.push('.')?;
        push_number(output, *byte)?;
    }
    Ok(())
}

// A number in decimal, digit by digit: `write!` for each byte of memory took about twice the time.
fn push_number(output: &mut String, n: u8) -> Result<(), AllocError> {
    if n >= 100 {
        output.push(digit(n / 100))?;
    }
    if n >= 10 {
        output.push(digit(n / 10))?;
    }
    output.push(digit(n))
}

// The last digit of a number.
fn digit(n: u8) -> char {
    char::from(b'0' + n % 10)
}

fn push_yes(output: &mut String, yes: bool) -> Result<(), AllocError> {
    output.push_str(if yes { "yes" } else { "no" })
}

fn push_count(output: &mut String, count: Option<u8>) -> Result<(), AllocError> {
    match count {
        Some(count) => write!(output, "{count}"),
        None => output.push_str("none"),
    }
}
