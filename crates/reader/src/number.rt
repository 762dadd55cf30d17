// A number in a line: its range, and the bytes of the draft that it is written to.
ghost use Rattle.std.specs.Prelude.{◌≡◌};
ghost use Rattle.reader.specs.declared.kinds.Emit.TheVariants as emit;
ghost use Rattle.reader.specs.Number.{place, place_of, written_of, number_of};

use crate::draft::{Draft, failed};
use crate::kinds::{Emit, Expected};

// Bytes of the draft, as document 01 lays out the rows.
#[derive(Clone, Copy, PartialEq, Eq, Debug)]
enum To {
    B1,
    B3,
    B4,
    // The low byte first.
    B1B2,
    B2B3,
    // The bank in b1, behind it the low byte of the address.
    B1B2B3,
}

// A number's place in a line: its least and its largest value, where it goes, what is expected behind it, and what it completes.
#[derive(Clone, Copy, PartialEq, Eq, Debug)]
struct Place {
    least: u64,
    most: u64,
    to: To,
    next: Expected,
    emit: Emit,
}

fn byte(to: To, next: Expected, emit: Emit) -> Option<Place>
    ensures { result ≡ place 0 255 to next emit }
{
    Some(Place {
        least: 0,
        most: 255,
        to,
        next,
        emit,
    })
}

// Two or three bytes.
fn long(least: u64, most: u64, to: To, next: Expected) -> Option<Place>
    ensures { result ≡ place least most to next emit.Nothing }
{
    Some(Place {
        least,
        most,
        to,
        next,
        emit: Emit::Nothing,
    })
}

// Bytes of a fill or a ROM are complete as they come.
fn expects(expected: Expected) -> Option<Place>
    ensures { result ≡ place_of expected }
{
    match expected {
        Expected::Count => long(1, 65535, To::B1B2, Expected::Options),
        Expected::Event => byte(To::B3, Expected::Options, Emit::Nothing),
        Expected::ReadAddress => long(0, 16777215, To::B1B2B3, Expected::End),
        Expected::Byte => byte(To::B4, Expected::End, Emit::Nothing),
        Expected::PadPort => byte(To::B1, Expected::PadWord, Emit::Nothing),
        Expected::PadWord => long(0, 65535, To::B2B3, Expected::End),
        Expected::AnswerAddress => long(0, 65535, To::B2B3, Expected::Byte),
        Expected::BitCycles => long(0, 65535, To::B1B2, Expected::End),
        Expected::FillByte => byte(To::B1, Expected::MoreFill, Emit::FillByte),
        Expected::RomByteOrFile => byte(To::B1, Expected::MoreRom, Emit::RomByte),
        Expected::MoreFill => byte(To::B1, Expected::MoreFill, Emit::FillByte),
        Expected::BackCount => long(1, 65535, To::B1B2, Expected::End),
        Expected::WriteAddress => long(0, 16777215, To::B1B2B3, Expected::Byte),
        Expected::PlugPort => byte(To::B1, Expected::OnOff, Emit::Nothing),
        Expected::MoreRom => byte(To::B1, Expected::MoreRom, Emit::RomByte),
        _ => None,
    }
}

fn written(d: Draft, to: To, v: u64) -> Draft
    ensures { result ≡ written_of d to v }
{
    let low = (v % 256) as u8;
    let middle = (v / 256 % 256) as u8;
    let high = (v / 65536 % 256) as u8;
    match to {
        To::B1 => Draft { b1: low, ..d },
        To::B3 => Draft { b3: low, ..d },
        To::B4 => Draft { b4: low, ..d },
        To::B1B2 => Draft {
            b1: low,
            b2: middle,
            ..d
        },
        To::B2B3 => Draft {
            b2: low,
            b3: middle,
            ..d
        },
        To::B1B2B3 => Draft {
            b1: high,
            b2: low,
            b3: middle,
            ..d
        },
    }
}

#[tactic(auto, unfolding(crate::specs::Number::number_of))]
pub fn number(d: Draft, v: u64) -> Draft
    ensures { result ≡ number_of d v }
{
    match expects(d.expected) {
        Some(p) if p.least <= v && v <= p.most => Draft {
            expected: p.next,
            emit: p.emit,
            ..written(d, p.to, v)
        },
        _ => failed(d),
    }
}
