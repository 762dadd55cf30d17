// What was expected, in words.
use crate::mark::{last_word, line_number};
use append::Sheet;
use dump::page::signs;
use fields::part::part;
use input::complaint::say;
use reader::draft::{Draft, has_failed};
use reader::kinds::{Expected, Phase};
use reader::reader::read;
use reader::text::{fault, read_all};

// At the start of a line.
fn line_expected(phase: Phase) -> &'static [u8] {
    match phase {
        Phase::Nothing => b"bitcycles",
        Phase::Settings => b"fill",
        Phase::Fill => b"fill, rom or a row: cycles, read, write, pad, plug, answer, back",
        Phase::Rom => b"rom or a row: cycles, read, write, pad, plug, answer, back",
        Phase::Rows => b"a row: cycles, read, write, pad, plug, answer, back",
    }
}

fn expected(d: Draft) -> &'static [u8] {
    match d.expected {
        Expected::Line => line_expected(d.phase),
        Expected::Count | Expected::BackCount => b"a count from 1 to 65535",
        Expected::Options => b"event, line, timer or the line's end",
        Expected::Event => b"an event from 0 to 255",
        Expected::ReadAddress | Expected::WriteAddress => b"an address from $00:0000 to $FF:FFFF",
        Expected::Byte | Expected::FillByte => b"a byte from $00 to $FF",
        Expected::PadPort | Expected::PlugPort => b"a port from 0 to 255",
        Expected::PadWord => b"a word from $0000 to $FFFF",
        Expected::AnswerAddress => b"an address from $0000 to $FFFF",
        Expected::OnOff => b"on or off",
        Expected::BitCycles => b"a number from 0 to 65535",
        Expected::RomByteOrFile => b"a byte from $00 to $FF, or file",
        Expected::MoreFill | Expected::MoreRom => b"a byte from $00 to $FF, or the line's end",
        Expected::FileName => b"a file name",
        Expected::End => b"the line's end",
    }
}

// The word itself, in quotes; of a long one its first 64 characters.
fn quoted(out: &mut Sheet<'_>, word: &[u8]) {
    out.push(b'`');
    signs(out, part(word, 0, 64));
    out.push(b'`');
}

// What stands there, and what was expected.
fn found(out: &mut Sheet<'_>, text: &[u8], from: usize) {
    let before = read_all(text);
    let word = read(before, b' ').draft;
    let end = read(before, b'\n').draft;
    if has_failed(word) {
        quoted(out, part(text, from, text.len()));
        out.put(b": expected ");
        out.put(expected(word));
    } else if has_failed(end) {
        out.put(b"the line ends: expected ");
        out.put(expected(end));
    } else if end.phase < Phase::Fill {
        out.put(b"the text ends: expected ");
        out.put(line_expected(end.phase));
    } else {
        out.put(b"too long: a fill has at most 4096 bytes, a bench file 65536");
    }
}

// One line on standard error: the line, the word, what was expected.
pub fn report(rt: HostRuntime, text: &[u8]) {
    let upto = part(text, 0, fault(text).unwrap_or(text.len()));
    let mut out = Sheet {
        text: &mut [0u8; 256],
        at: 0,
    };
    out.put(b"assemble: line ");
    out.decimal(line_number(upto));
    out.put(b": ");
    found(&mut out, upto, last_word(upto));
    out.push(b'\n');
    say(rt, out.written());
}
