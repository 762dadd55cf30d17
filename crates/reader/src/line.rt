// Words of a line, one after the other, and the line's end.
ghost use Rattle.std.specs.Prelude.{◌≡◌};
ghost use Rattle.reader.specs.Line.{named_of, taken_of, closed_of, ends_of, closing_of, line_of};

use crate::draft::{Draft, failed, file, has_failed, keyword, option, switch};
use crate::kinds::{Emit, Expected, Kind};
use crate::number::number;
use crate::word::Token;

#[tactic(auto, unfolding(crate::specs::Line::named_of))]
fn named(d: Draft, v: u64) -> Draft
    ensures { result ≡ named_of d v }
{
    match d.expected {
        Expected::Line => keyword(d, v),
        Expected::Options => option(d, v),
        Expected::OnOff => switch(d, v),
        Expected::RomByteOrFile => file(d, v),
        _ => failed(d),
    }
}

// A whole word.
#[tactic(auto, unfolding(crate::specs::Line::taken_of))]
pub fn taken(d: Draft, token: Option<Token>) -> Draft
    ensures { result ≡ taken_of d token }
{
    match token {
        Some(Token::Letters(v)) => named(d, v),
        Some(Token::Number(v)) => number(d, v),
        None => failed(d),
    }
}

// What a line's end completes.
fn closed(kind: Kind, emit: Emit) -> Emit
    ensures { result ≡ closed_of kind emit }
{
    match kind {
        Kind::Bitcycles => Emit::Settings,
        Kind::Fill | Kind::Rom => emit,
        Kind::RomFile => Emit::RomFile,
        _ => Emit::Row,
    }
}

// A line may end where nothing more is needed.
fn ends(expected: Expected) -> bool
    ensures { result ≡ ends_of expected }
{
    matches!(
        expected,
        Expected::Options | Expected::MoreFill | Expected::End | Expected::MoreRom
    )
}

#[tactic(auto, unfolding(crate::specs::Line::closing_of))]
fn closing(d: Draft) -> Draft
    ensures { result ≡ closing_of d }
{
    if ends(d.expected) {
        return Draft {
            expected: Expected::Line,
            emit: closed(d.kind, d.emit),
            ..d
        };
    }
    failed(d)
}

// An empty line is nothing.
#[tactic(auto, unfolding(crate::specs::Line::line_of))]
pub fn line_end(d: Draft) -> Draft
    ensures { result ≡ line_of d }
{
    if has_failed(d) || matches!(d.expected, Expected::Line) {
        return d;
    }
    closing(d)
}
