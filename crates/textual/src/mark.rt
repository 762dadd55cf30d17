// Characters that part a text into lines and words, and where they stand.
ghost use Rattle.std.specs.Prelude.{◌+◌, count_by, position, reverse, ◌≡◌};
ghost use Rattle.textual.specs.Mark.{ends_line, closes, parts, behind_last};

use reader::letter::sign;
use reader::sign::Sign;

#[tactic(auto, unfolding(crate::specs::Mark::ends_line))]
fn ends_line(c: u8) -> bool
    ensures { result ≡ ends_line c }
{
    matches!(sign(c), Sign::LineEnd)
}

// A line's end, or the start of a comment.
#[tactic(auto, unfolding(crate::specs::Mark::closes))]
pub fn closes(c: u8) -> bool
    ensures { result ≡ closes c }
{
    matches!(sign(c), Sign::LineEnd | Sign::Comment)
}

// These, or a space.
#[tactic(auto, unfolding(crate::specs::Mark::parts))]
pub fn parts(c: u8) -> bool
    ensures { result ≡ parts c }
{
    matches!(sign(c), Sign::LineEnd | Sign::Comment | Sign::Space)
}

// The number of the line that begins or goes on behind the text.
pub fn line_number(text: &[u8]) -> u64
    ensures { result ≡ count_by ends_line text.now + 1 }
{
    text.iter().filter(|c| ends_line(**c)).count() as u64 + 1
}

// How many characters stand behind the last that parts words.
fn word_length(text: &[u8]) -> Option<usize>
    ensures { result ≡ position parts (reverse text.now) }
{
    text.iter().rev().position(|c| parts(*c))
}

// Where the last word of a text starts.
pub fn last_word(text: &[u8]) -> usize
    ensures { result ≡ behind_last parts text.now }
{
    text.len() - word_length(text).unwrap_or(text.len())
}
