// One line of a text, and its words, one after the other.
ghost use Rattle.std.specs.Prelude.{◌≡◌, ◌+◌, [], ◌∷◌, length, IfSome, MatchOption};
ghost use Rattle.std.specs.Iterator.{item_count};
ghost use Rattle.std.specs.List.{list_all};
ghost use Rattle.text.specs.Iterators.{GivesWord};
ghost use Rattle.text.specs.Text.{line_check, printable};
ghost use Rattle.text.specs.Views.{IsClassified, bytes_of, line_bytes, part, place_of, words_left};

use crate::cut::{cut_word, part_of};
use crate::fault::LineFault;
use crate::word::Word;

// The most bytes a line may have, its end not counted.
pub const LINE_BYTES: usize = 60;

// A line, or what is left of it: its number from 1, and the part of the text it is, from `start` up
// to and without `end`. It is no slice of its own, since places are counted from the text's start.
#[derive(Clone, Copy)]
pub struct Line<'a> {
    pub text: &'a [u8],
    pub start: usize,
    pub end: usize,
    pub number: usize,
}

impl<'a> Line<'a> {
    // A line has at most 60 bytes, each of them 32 to 126.
    pub fn check(&self) -> Result<(), LineFault>
        ensures { result ≡ line_check self.now.number (line_bytes self.now) }
    {
        let bytes = part_of(self.text, self.start, self.end);
        if bytes.len() > LINE_BYTES {
            return Err(LineFault::TooLong(self.number));
        }
        if !all_printable(bytes) {
            return Err(LineFault::BadByte(self.number));
        }
        Ok(())
    }

    // Takes the first word off the line; none, and nothing changed, where no word is left. A word is
    // the very part of the text at its place.
    pub fn next_word(&mut self) -> Option<Word<'a>>
        ensures word { MatchOption result (words_left self.old ≡ []) (λ w. words_left self.old ≡ bytes_of w ∷ words_left self.new) }
        ensures kind { MatchOption result (self.new ≡ self.old) IsClassified }
        ensures part { IfSome result (λ w. bytes_of w ≡ part self.old.text.now (place_of w) (place_of w + length (bytes_of w))) }
        ensures text { self.new.text ≡ self.old.text }
        ensures end { self.new.end ≡ self.old.end }
        ensures number { self.new.number ≡ self.old.number }
    {
        let text = self.text;
        let (place, end) = cut_word(text, self.start, self.end)?;
        self.start = end;
        Some(Word::of(part_of(text, place, end), place))
    }
}

// `next_word` stays: its clauses say one thing each by name, and `next_gives` all in one relation.
impl<'a> Iterator for Line<'a> {
    type Item = Word<'a>;

    ghost next_gives = { GivesWord };

    ghost remaining = { item_count words_left };

    fn next(&mut self) -> Option<Word<'a>> {
        self.next_word()
    }
}

// Whether each byte may stand in a line.
fn all_printable(bytes: &[u8]) -> bool
    ensures { result ≡ list_all printable bytes.now }
{
    bytes.iter().all(|byte| matches!(byte, 32..=126))
}
