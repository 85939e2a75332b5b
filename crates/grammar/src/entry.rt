// What one line of a sheet says, whatever the lines before it say.
ghost use Rattle.std.specs.Prelude.{◌≡◌, true, false, length, MatchOption, ◌==◌, nat_lt};
ghost use Rattle.grammar.specs.Entries.{boards_entry, end_numbers, entry_of, head_of, state_of, wire_entry};
ghost use Rattle.grammar.specs.Keyword.{Five, One, Two, keyword_bytes};
ghost use Rattle.plan.specs.Answers.{lift};
ghost use Rattle.text.specs.Views.{IsClassified, bytes_of, line_bytes, number_of, words_left};
ghost use Rattle.grammar.specs.declared.fault.SheetFault.TheVariants.{InLine};
ghost use Rattle.text.specs.declared.fault.LineFault.TheVariants.{InWord};

use crate::fault::SheetFault;
use plan::wire::WireState;
use text::fault::LineFault;
use text::line::Line;
use text::word::Word;

// What a line's first word makes of it: a type of its own, as the definition `entry_of` tells the lines
// apart by it.
#[derive(Clone, Copy)]
pub enum Head {
    BoardsLine,
    WireLine,
    NoteLine,
}

// A board and a port of a sheet, up to 999 and maybe out of range: so no `End`, which has bytes.
#[derive(Clone, Copy)]
pub struct EndNumbers {
    pub board: u16,
    pub port: u16,
}

// A `wire` line. No `Wire`, since the state may be none: then the word is not one of a state.
#[derive(Clone, Copy)]
pub struct WireEntry {
    pub first: EndNumbers,
    pub second: EndNumbers,
    pub state: Option<WireState>,
}

// What a line says.
#[derive(Clone, Copy)]
pub enum Entry {
    // Nothing: it has no words, or is a note.
    Skip,
    // The board count.
    Boards(u16),
    // A wire.
    Wires(WireEntry),
}

// What a line with this first word is. No `TryFrom`: its error would say no more than `None`.
fn line_head(word: Word) -> Option<Head>
    ensures { result ≡ head_of (keyword_bytes word.entry) }
{
    match word {
        Word::Keyword(b"boards", _) => Some(Head::BoardsLine),
        Word::Keyword(b"wire", _) => Some(Head::WireLine),
        Word::Keyword(b"note", _) => Some(Head::NoteLine),
        _ => None,
    }
}

// The state that a word names. No `TryFrom`, for the same reason.
fn wire_state(word: Word) -> Option<WireState>
    ensures { result ≡ state_of (keyword_bytes word.entry) }
{
    match word {
        Word::Keyword(b"ok", _) => Some(WireState::Whole),
        Word::Keyword(b"out", _) => Some(WireState::OutOnly),
        Word::Keyword(b"back", _) => Some(WireState::BackOnly),
        Word::Keyword(b"dead", _) => Some(WireState::Dead),
        _ => None,
    }
}

// The number that a word stands for.
fn number(word: Word, line: usize) -> Result<u16, LineFault>
    ensures { result ≡ lift InWord (number_of line word.entry) }
{
    Ok(word.number(line)?)
}

// `boards N` behind the first word: one, a number.
fn boards_entry(line: Line) -> Result<Entry, SheetFault>
    ensures { result ≡ boards_entry line.entry.number (words_left line.entry) }
{
    let Some(count) = only_word(line) else {
        return Err(SheetFault::WordCount(line.number));
    };
    let count = number(count, line.number)?;
    Ok(Entry::Boards(count))
}

// A board and a port.
fn end_numbers(board: Word, port: Word, line: usize) -> Result<EndNumbers, LineFault>
    ensures { IsClassified board.entry → IsClassified port.entry → lift InLine result ≡ end_numbers line (bytes_of board.entry) (bytes_of port.entry) }
{
    let board = board.number(line)?;
    let port = port.number(line)?;
    Ok(EndNumbers { board, port })
}

// The words of `wire A P B Q S` behind the first.
#[derive(Clone, Copy)]
struct WireWords<'a> {
    a: Word<'a>,
    p: Word<'a>,
    b: Word<'a>,
    q: Word<'a>,
    s: Word<'a>,
}

// The one word that is left; none where there are more or fewer.
fn only_word<'a>(mut line: Line<'a>) -> Option<Word<'a>>
    ensures { MatchOption result ((length (words_left line.entry) == 1) ≡ false) (λ w. One w (words_left line.entry)) }
{
    let word = line.next_word()?;
    match line.next_word() {
        Some(_) => None,
        None => Some(word),
    }
}

// Two words more; none where there are fewer.
fn two_words<'a>(line: &mut Line<'a>) -> Option<(Word<'a>, Word<'a>)>
    ensures { MatchOption result (nat_lt (length (words_left line.old)) 2 ≡ true) (λ w. Two w.0 w.1 (words_left line.old) (words_left line.new)) }
{
    let one = line.next_word()?;
    let two = line.next_word()?;
    Some((one, two))
}

// Five words; none where there are more or fewer.
fn wire_words<'a>(mut line: Line<'a>) -> Option<WireWords<'a>>
    ensures { MatchOption result ((length (words_left line.entry) == 5) ≡ false) (λ w. Five w.a w.p w.b w.q w.s (words_left line.entry)) }
{
    let (a, p) = two_words(&mut line)?;
    let (b, q) = two_words(&mut line)?;
    let s = only_word(line)?;
    Some(WireWords { a, p, b, q, s })
}

// `wire A P B Q S` behind the first word: four numbers and a state.
fn wire_entry(line: Line) -> Result<Entry, SheetFault>
    ensures { result ≡ wire_entry line.entry.number (words_left line.entry) }
{
    let Some(words) = wire_words(line) else {
        return Err(SheetFault::WordCount(line.number));
    };
    let first = end_numbers(words.a, words.p, line.number)?;
    let second = end_numbers(words.b, words.q, line.number)?;
    let state = wire_state(words.s);
    Ok(Entry::Wires(WireEntry {
        first,
        second,
        state,
    }))
}

// What a line says.
pub fn read_entry(line: &Line) -> Result<Entry, SheetFault>
    ensures { result ≡ entry_of line.now.number (line_bytes line.now) }
{
    line.check()?;
    let mut rest = *line;
    let Some(first) = rest.next_word() else {
        return Ok(Entry::Skip);
    };
    // No closures: the definition `entry_of` tells the lines apart by these cases.
    match line_head(first) {
        Some(Head::BoardsLine) => boards_entry(rest),
        Some(Head::WireLine) => wire_entry(rest),
        Some(Head::NoteLine) => Ok(Entry::Skip),
        None => Err(SheetFault::UnknownLine(line.number)),
    }
}
