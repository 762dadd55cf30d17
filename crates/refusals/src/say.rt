// What a line is put together from.
use common::refusal::{Refusal, number_of};
use std::io;

pub fn say(rt: HostRuntime, text: &[u8]) -> io::Result<()> {
    rt.write_all(text)
}

pub fn say_named(rt: HostRuntime, name: &[u8], n: u64) -> io::Result<()> {
    say(rt, name)?;
    rt.print(n)
}

// The number got.
pub fn say_number(rt: HostRuntime, number: u8) -> io::Result<()> {
    say_named(rt, b": ", number as u64)
}

// The end of a line: the number.
pub fn say_last(rt: HostRuntime, number: u8) -> io::Result<()> {
    say_number(rt, number)?;
    say(rt, b"\n")
}

// And whether all stayed as it was.
pub fn say_end(rt: HostRuntime, refusal: Option<Refusal>, stayed: bool) -> io::Result<()> {
    say_number(rt, number_of(refusal))?;
    if stayed {
        say(rt, b", all as it was\n")
    } else {
        say(rt, b", changed\n")
    }
}
