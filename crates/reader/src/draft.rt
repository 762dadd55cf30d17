// A line while it is read: what it is, its bytes so far, and what is expected next.
ghost use Rattle.std.specs.Prelude.{◌≡◌};
ghost use Rattle.reader.specs.Draft.{failed_of, has_failed, row_opening, opens_of, keyword_of, option_of, switch_of, file_of};

use crate::kinds::{Emit, Expected, Kind, Phase};
use crate::names::{
    ANSWER, BACK, BITCYCLES, CYCLES, EVENT, FILE, FILL, LINE, OFF, ON, PAD, PLUG, READ, ROM, TIMER,
    WRITE,
};

#[derive(Clone, Copy, PartialEq, Eq, Debug)]
pub struct Draft {
    pub phase: Phase,
    pub expected: Expected,
    pub kind: Kind,
    pub b1: u8,
    pub b2: u8,
    pub b3: u8,
    pub b4: u8,
    pub emit: Emit,
}

// All but the mark stays as it was, to say what was expected.
pub fn failed(d: Draft) -> Draft
    ensures { result ≡ failed_of d }
{
    Draft {
        emit: Emit::Failed,
        ..d
    }
}

pub fn has_failed(d: Draft) -> bool
    ensures { result ≡ has_failed d }
{
    matches!(d.emit, Emit::Failed)
}

// What a word opens: the kind of its line, what is expected first, the phases from which and up to which it may come, and the phase
// that it opens. Settings stand first, then the fill, the ROM and the rows.
#[derive(Clone, Copy, PartialEq, Eq, Debug)]
struct Opening {
    kind: Kind,
    expected: Expected,
    from: Phase,
    upto: Phase,
    phase: Phase,
}

// Rows come behind the fill.
fn row(kind: Kind, expected: Expected) -> Option<Opening>
    ensures { result ≡ row_opening kind expected }
{
    Some(Opening {
        kind,
        expected,
        from: Phase::Fill,
        upto: Phase::Rows,
        phase: Phase::Rows,
    })
}

// The word that starts a line.
fn opens(v: u64) -> Option<Opening>
    ensures { result ≡ opens_of v }
{
    match v {
        CYCLES => row(Kind::Cycles, Expected::Count),
        READ => row(Kind::Read, Expected::ReadAddress),
        WRITE => row(Kind::Write, Expected::WriteAddress),
        PAD => row(Kind::Pad, Expected::PadPort),
        PLUG => row(Kind::Plug, Expected::PlugPort),
        ANSWER => row(Kind::Answer, Expected::AnswerAddress),
        BACK => row(Kind::Back, Expected::BackCount),
        BITCYCLES => Some(Opening {
            kind: Kind::Bitcycles,
            expected: Expected::BitCycles,
            from: Phase::Nothing,
            upto: Phase::Nothing,
            phase: Phase::Settings,
        }),
        FILL => Some(Opening {
            kind: Kind::Fill,
            expected: Expected::FillByte,
            from: Phase::Settings,
            upto: Phase::Fill,
            phase: Phase::Fill,
        }),
        ROM => Some(Opening {
            kind: Kind::Rom,
            expected: Expected::RomByteOrFile,
            from: Phase::Fill,
            upto: Phase::Rom,
            phase: Phase::Rom,
        }),
        _ => None,
    }
}

#[tactic(auto, unfolding(crate::specs::Draft::keyword_of))]
pub fn keyword(d: Draft, v: u64) -> Draft
    ensures { result ≡ keyword_of d v }
{
    match opens(v) {
        Some(o) if o.from <= d.phase && d.phase <= o.upto => Draft {
            phase: o.phase,
            expected: o.expected,
            kind: o.kind,
            b1: 0,
            b2: 0,
            b3: 0,
            b4: 0,
            emit: Emit::Nothing,
        },
        _ => failed(d),
    }
}

// event, line and timer, in any order.
#[tactic(auto, unfolding(crate::specs::Draft::option_of))]
pub fn option(d: Draft, v: u64) -> Draft
    ensures { result ≡ option_of d v }
{
    match v {
        EVENT => Draft {
            expected: Expected::Event,
            ..d
        },
        LINE => Draft { b4: d.b4 | 1, ..d },
        TIMER => Draft { b4: d.b4 | 2, ..d },
        _ => failed(d),
    }
}

// on, off
#[tactic(auto, unfolding(crate::specs::Draft::switch_of))]
pub fn switch(d: Draft, v: u64) -> Draft
    ensures { result ≡ switch_of d v }
{
    let ended = Draft {
        expected: Expected::End,
        ..d
    };
    match v {
        ON => Draft { b2: 1, ..ended },
        OFF => Draft { b2: 0, ..ended },
        _ => failed(d),
    }
}

// file; no ROM line may follow it
#[tactic(auto, unfolding(crate::specs::Draft::file_of))]
pub fn file(d: Draft, v: u64) -> Draft
    ensures { result ≡ file_of d v }
{
    if v == FILE {
        return Draft {
            phase: Phase::Rows,
            kind: Kind::RomFile,
            expected: Expected::FileName,
            ..d
        };
    }
    failed(d)
}
