// One line after another.
ghost use Rattle.std.specs.Prelude.{◌≡◌, ◌+◌, [], ◌∷◌, IfSome, MatchOption};
ghost use Rattle.std.specs.Iterator.{item_count};
ghost use Rattle.text.specs.Iterators.{GivesLine};
ghost use Rattle.text.specs.Views.{left, line_bytes};

use super::Lines;
use crate::cut::cut_line;
use crate::line::Line;

impl<'a> Lines<'a> {
    // All lines of a text.
    pub fn of(text: &'a [u8]) -> Lines<'a>
        ensures text { result.text ≡ text.entry }
        ensures at { result.at ≡ 0 }
        ensures number { result.number ≡ 0 }
    {
        Lines {
            text,
            at: 0,
            number: 0,
        }
    }

    // The next line, with its number; none where no line is left.
    pub fn next_line(&mut self) -> Option<Line<'a>>
        ensures line { MatchOption result (left self.old ≡ []) (λ l. left self.old ≡ line_bytes l ∷ left self.new) }
        ensures number { MatchOption result (self.new ≡ self.old) (λ l. (l.number ≡ self.old.number + 1) × (self.new.number ≡ l.number)) }
        ensures source { IfSome result (λ l. l.text ≡ self.old.text) }
        ensures kept { self.new.text ≡ self.old.text }
    {
        let (text, start) = (self.text, self.at);
        let (end, next) = cut_line(text, start)?;
        let number = self.number + 1;
        self.at = next;
        self.number = number;
        Some(Line {
            text,
            start,
            end,
            number,
        })
    }
}

// `next_line` stays: its clauses say one thing each by name, and `next_gives` all in one relation.
impl<'a> Iterator for Lines<'a> {
    type Item = Line<'a>;

    ghost next_gives = { GivesLine };

    ghost remaining = { item_count left };

    fn next(&mut self) -> Option<Line<'a>> {
        self.next_line()
    }
}
