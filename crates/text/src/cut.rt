// Where a line or a word ends. All by places and not by slices, since a word is handed out with its
// place in the text.
ghost use Rattle.std.specs.Prelude.{◌≡◌, [], drop, MatchOption};
ghost use Rattle.std.specs.List.{prefix_len};
ghost use Rattle.text.specs.Cuts.{LineCut, WordCut};
ghost use Rattle.text.specs.Text.{lines, other, space, words};
ghost use Rattle.text.specs.Views.{part};

// The byte that ends a line.
const LINE_END: u8 = 10;

// How many bytes stand before the first `stop`.
fn until(bytes: &[u8], stop: u8) -> usize
    ensures { result ≡ prefix_len (other stop) bytes.now }
{
    bytes.iter().take_while(|byte| **byte != stop).count()
}

// How many spaces stand in front.
// Not one function with `until`, over a closure: its contract would be longer than both bodies.
fn spaces(bytes: &[u8]) -> usize
    ensures { result ≡ prefix_len space bytes.now }
{
    bytes.iter().take_while(|byte| **byte == b' ').count()
}

// The bytes from `start` up to and without `end`, as far as the text goes.
pub(crate) fn part_of(text: &[u8], start: usize, end: usize) -> &[u8]
    ensures { result.now ≡ part text.now start end }
{
    text.get(start..end.min(text.len())).unwrap_or(&[])
}

// Where the line that begins at `start` ends, and where the next begins; none where no line is left.
// Lines end with byte 10; the last may lack it, and after a final byte 10 no line follows.
pub(crate) fn cut_line(text: &[u8], start: usize) -> Option<(usize, usize)>
    ensures { MatchOption result (lines (drop start text.now) ≡ []) (λ p. LineCut text.now start p.0 p.1) }
{
    if start >= text.len() {
        return None;
    }
    let end = start + until(&text[start..], LINE_END);
    Some((end, text.len().min(end + 1)))
}

// Where the next word of the part from `at` to `end` begins and ends; none where no word is left.
// One or more spaces separate words, and may stand at either end.
pub(crate) fn cut_word(text: &[u8], at: usize, end: usize) -> Option<(usize, usize)>
    ensures { MatchOption result (words (part text.now at end) ≡ []) (λ p. WordCut text.now at end p.0 p.1) }
{
    let left = part_of(text, at, end);
    let skipped = spaces(left);
    if skipped >= left.len() {
        return None;
    }
    let size = until(&left[skipped..], b' ');
    let place = at + skipped;
    Some((place, place + size))
}
