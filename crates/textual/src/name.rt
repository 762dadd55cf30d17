// The file name behind `rom file`, up to a comment or the line's end, without the spaces around it.
ghost use Rattle.std.specs.Prelude.{position, reverse, ◌≡◌};
ghost use Rattle.textual.specs.{Mark.closes, Name.inside, Name.name_of};

use crate::mark::{closes, parts};
use fields::part::part;

// Where the line ends, or a comment starts.
fn line_end(s: &[u8]) -> Option<usize>
    ensures { result ≡ position closes s.now }
{
    s.iter().position(|c| closes(*c))
}

// How many spaces stand in front of the name, and how many behind it.
fn spaces_before(line: &[u8]) -> Option<usize>
    ensures { result ≡ position inside line.now }
{
    line.iter().position(|c| !parts(*c))
}

fn spaces_behind(line: &[u8]) -> Option<usize>
    ensures { result ≡ position inside (reverse line.now) }
{
    line.iter().rev().position(|c| !parts(*c))
}

// Empty where no name stands.
#[tactic(auto, unfolding(crate::specs::Name::name_of))]
pub fn name_in(text: &[u8], at: usize) -> &[u8]
    ensures { result.now ≡ name_of text.now at }
{
    let rest = part(text, at, text.len());
    let line = part(rest, 0, line_end(rest).unwrap_or(rest.len()));
    let n = line.len();
    let upto = part(line, 0, n - spaces_behind(line).unwrap_or(n));
    part(upto, spaces_before(line).unwrap_or(n), upto.len())
}
