// Calls, as lines of text.
use policy::offer::Offer;
use std::alloc::{AllocError, Global};
use text::line::Line;
use text::word::Word;

// What a line asks for.
#[derive(Drop)]
pub(crate) enum Call {
    // Begin with new books and policies.
    New,
    // Ask both books.
    Ask(Question),
    // Show an offer to each policy.
    Show(Offer),
}

// What a book is asked.
#[derive(Drop)]
pub(crate) enum Question {
    Clear,
    Start { row: u8 },
    Extend { row: u8, source: u8, port: u8 },
    Depth { row: u8 },
    Shared { row: u8, other: u8 },
    Spells { bytes: Vec<u8> },
    Names { row: u8, bytes: Vec<u8> },
    Write { row: u8, room: u8 },
}

// The most numbers that a line has.
const NUMBERS: usize = 260;

// What stands for a number that is not there, or not below 256: a call with too few numbers is one
// all the same, here and in the independent calculation.
const ABSENT: u8 = 255;

impl Call {
    // The call of a line; none where its first word is not the name of one.
    pub(crate) fn read(heap: Global, mut line: Line<'_>) -> Result<Option<Call>, AllocError> {
        let Some(Word::Keyword(name, _)) = line.next_word() else {
            return Ok(None);
        };
        let mut numbers = Vec::new(heap);
        for word in line.take(NUMBERS) {
            numbers.push(byte_of(word))?;
        }
        Ok(Call::named(name, numbers))
    }

    // No `TryFrom`, here and below: what is no call is answered by question marks, whatever it is.
    fn named(name: &[u8], numbers: Vec<u8>) -> Option<Call> {
        match name {
            b"new" => Some(Call::New),
            b"offer" => Some(Call::Show(Offer {
                board: number_at(&numbers, 0),
                destination: number_at(&numbers, 1),
                permitted: number_at(&numbers, 2),
                free: number_at(&numbers, 3),
            })),
            _ => Some(Call::Ask(Question::named(name, numbers)?)),
        }
    }
}

impl Question {
    fn named(name: &[u8], mut numbers: Vec<u8>) -> Option<Question> {
        let row = number_at(&numbers, 0);
        let second = number_at(&numbers, 1);
        match name {
            b"clear" => Some(Question::Clear),
            b"start" => Some(Question::Start { row }),
            b"extend" => {
                let port = number_at(&numbers, 2);
                Some(Question::Extend {
                    row,
                    source: second,
                    port,
                })
            }
            b"depth" => Some(Question::Depth { row }),
            b"shared" => Some(Question::Shared { row, other: second }),
            b"spells" => Some(Question::Spells { bytes: numbers }),
            b"names" => {
                if !numbers.is_empty() {
                    numbers.remove(0);
                }
                Some(Question::Names {
                    row,
                    bytes: numbers,
                })
            }
            b"write" => Some(Question::Write { row, room: second }),
            _ => None,
        }
    }
}

// The number at this place of a line.
fn number_at(numbers: &[u8], place: usize) -> u8 {
    numbers.get(place).copied().unwrap_or(ABSENT)
}

// The number below 256 that a word stands for.
fn byte_of(word: Word<'_>) -> u8 {
    match word.number(0) {
        Ok(number) => u8::try_from(number).unwrap_or(ABSENT),
        Err(_) => ABSENT,
    }
}
