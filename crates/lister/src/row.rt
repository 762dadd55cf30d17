// A row of a script as a line of text.
#![tactic(auto, unfolding(append::specs::Sheet::puts, crate::specs::Row::event_text, crate::specs::Row::flags_text, crate::specs::Row::cycles_text, crate::specs::Row::pad_text, crate::specs::Row::plug_text, crate::specs::Row::read_text, crate::specs::Row::write_text, crate::specs::Row::answer_text), using(append::proofs::Laws::texts, std::proofs::lemmas::Bool::Decides::nat_tests))]

ghost use Rattle.std.specs.Prelude.{◌≡◌};
ghost use Rattle.append.specs.Lent.{putting};
ghost use Rattle.lister.specs.Row.{read_text, write_text, answer_text, event_text, flags_text, cycles_text, pad_text, plug_text, number_text, row_text};

use append::Sheet;
use fields::word::{byte, two};

// `read $00:4302`
fn read(out: &mut Sheet<'_>, bank: u8, low: u8, high: u8)
    ensures { out.new ≡ putting out.old (read_text bank low high) }
{
    out.put(b"read $");
    out.hex_byte(bank);
    out.push(b':');
    out.hex_byte(high);
    out.hex_byte(low);
    out.push(b'\n');
}

// `write $00:4302 = $10`
fn write(out: &mut Sheet<'_>, bank: u8, low: u8, high: u8, byte: u8)
    ensures { out.new ≡ putting out.old (write_text bank low high byte) }
{
    out.put(b"write $");
    out.hex_byte(bank);
    out.push(b':');
    out.hex_byte(high);
    out.hex_byte(low);
    out.put(b" = $");
    out.hex_byte(byte);
    out.push(b'\n');
}

// `answer $2134 = $5A`
fn answer(out: &mut Sheet<'_>, low: u8, high: u8, byte: u8)
    ensures { out.new ≡ putting out.old (answer_text low high byte) }
{
    out.put(b"answer $");
    out.hex_byte(high);
    out.hex_byte(low);
    out.put(b" = $");
    out.hex_byte(byte);
    out.push(b'\n');
}

// An event that is not 0.
fn event(out: &mut Sheet<'_>, number: u8)
    ensures { out.new ≡ putting out.old (event_text number) }
{
    if number != 0 {
        out.put(b" event ");
        out.decimal(number as u64);
    }
}

// 1 line due, 2 timer.
fn flags(out: &mut Sheet<'_>, set: u8)
    ensures { out.new ≡ putting out.old (flags_text set) }
{
    match set {
        1 => out.put(b" line"),
        2 => out.put(b" timer"),
        3 => out.put(b" line timer"),
        _ => (),
    }
}

fn cycles(out: &mut Sheet<'_>, n: u16, number: u8, set: u8)
    ensures { out.new ≡ putting out.old (cycles_text n number set) }
{
    out.put(b"cycles ");
    out.decimal(n as u64);
    event(out, number);
    flags(out, set);
    out.push(b'\n');
}

fn pad(out: &mut Sheet<'_>, port: u8, low: u8, high: u8)
    ensures { out.new ≡ putting out.old (pad_text port low high) }
{
    out.put(b"pad ");
    out.decimal(port as u64);
    out.put(b" $");
    out.hex_byte(high);
    out.hex_byte(low);
    out.push(b'\n');
}

fn plug(out: &mut Sheet<'_>, port: u8, on: u8)
    ensures { out.new ≡ putting out.old (plug_text port on) }
{
    out.put(b"plug ");
    out.decimal(port as u64);
    if on == 1 {
        out.put(b" on\n");
    } else {
        out.put(b" off\n");
    }
}

// A line of a word and a number.
pub fn number_line(out: &mut Sheet<'_>, word: &[u8], n: u16)
    ensures { out.new ≡ putting out.old (number_text word.now n) }
{
    out.put(word);
    out.decimal(n as u64);
    out.push(b'\n');
}

// The line of a row of 8 bytes; nothing for a kind that there is not.
#[tactic(auto, unfolding(crate::specs::Row::row_text, crate::specs::Row::back_text), using(append::proofs::Laws::puts_none, std::proofs::lemmas::Bool::Decides::nat_tests))]
pub fn write_row(out: &mut Sheet<'_>, row: &[u8])
    ensures { out.new ≡ putting out.old (row_text row.now) }
{
    let first = byte(row, 1);
    let low = byte(row, 2);
    let high = byte(row, 3);
    let last = byte(row, 4);
    match byte(row, 0) {
        1 => cycles(out, two(row, 1), high, last),
        2 => read(out, first, low, high),
        3 => write(out, first, low, high, last),
        4 => pad(out, first, low, high),
        5 => plug(out, first, low),
        6 => answer(out, low, high, last),
        7 => number_line(out, b"back ", two(row, 1)),
        _ => (),
    }
}
