// What is wrong, in one line on standard error. `name` is the program's.
use append::Sheet;
use dump::page::signs;
use fields::part::part;
use std::io;
use std::io::{Cursor, ErrorKind, Print, Write};
use wording::words;

// Where standard error takes no line, there is nowhere left to say so.
pub fn say(rt: HostRuntime, line: &[u8]) {
    let _ = Print::write_all(&rt.stderr(), line);
}

// An error in words, which std writes before the system's number of it.
fn before_number(text: &[u8]) -> &[u8] {
    for i in 0..text.len() {
        if text[i..].starts_with(b" (os error ") {
            return &text[..i];
        }
    }
    text
}

// What failed, a colon and the system's words.
pub fn fail(rt: HostRuntime, what: &[u8], error: io::Error) {
    let mut text = Cursor::new([0u8; 128]);
    let _ = write!(text, "{error}");
    let written = part(text.get_ref(), 0, text.position() as usize);
    let mut out = Sheet {
        text: &mut [0u8; 132],
        at: 0,
    };
    out.put(b": ");
    out.put(before_number(written));
    out.push(b'\n');
    say(rt, what);
    say(rt, out.written());
}

// `page: standard input: Is a directory`
pub fn unread(rt: HostRuntime, name: &[u8], error: io::Error) {
    let mut out = Sheet {
        text: &mut [0u8; 64],
        at: 0,
    };
    out.put(name);
    out.put(b": standard input");
    fail(rt, out.written(), error);
}

// A reader that has left wants no more, and nothing is wrong.
pub fn unwritten(rt: HostRuntime, what: &[u8], error: io::Error) {
    if error.kind() != ErrorKind::BrokenPipe {
        fail(rt, what, error);
    }
}

// `page: standard output: No space left on device`
pub fn output_failed(rt: HostRuntime, name: &[u8], error: io::Error) {
    let mut out = Sheet {
        text: &mut [0u8; 64],
        at: 0,
    };
    out.put(name);
    out.put(b": standard output");
    unwritten(rt, out.written(), error);
}

// `trace: expected no argument: the bench file comes on standard input`
pub fn no_argument(rt: HostRuntime, name: &[u8], input: &[u8]) {
    let mut out = Sheet {
        text: &mut [0u8; 128],
        at: 0,
    };
    out.put(name);
    out.put(b": expected no argument: the ");
    out.put(input);
    out.put(b" comes on standard input\n");
    say(rt, out.written());
}

// `figures: missing.bench: No such file or directory`
pub fn unread_file(rt: HostRuntime, name: &[u8], file: &[u8], error: io::Error) {
    let mut out = Sheet {
        text: &mut [0u8; 4224],
        at: 0,
    };
    out.put(name);
    out.put(b": ");
    out.put(file);
    fail(rt, out.written(), error);
}

fn whose(out: &mut Sheet<'_>, name: &[u8], row: usize) {
    out.put(name);
    if row == 0 {
        out.put(b": standard input");
    } else {
        out.put(b": row ");
        out.decimal(row as u64);
    }
}

// `: refusal 8: back with no operation kept`, behind what was refused.
fn with_refusal(rt: HostRuntime, out: &mut Sheet<'_>, refusal: u8) {
    out.put(b": refusal ");
    out.decimal(refusal as u64);
    out.put(b": ");
    words(out, refusal);
    out.push(b'\n');
    say(rt, out.written());
}

// `page: row 3: refusal 8: back with no operation kept`; row 0 is the file itself.
pub fn refused(rt: HostRuntime, name: &[u8], row: usize, refusal: u8) {
    let mut out = Sheet {
        text: &mut [0u8; 128],
        at: 0,
    };
    whose(&mut out, name, row);
    with_refusal(rt, &mut out, refusal);
}

// `figures: file 257: refusal 14: more than 256 files`
pub fn file_refused(rt: HostRuntime, name: &[u8], file: u64, refusal: u8) {
    let mut out = Sheet {
        text: &mut [0u8; 128],
        at: 0,
    };
    out.put(name);
    out.put(b": file ");
    out.decimal(file);
    with_refusal(rt, &mut out, refusal);
}

pub fn no_place(rt: HostRuntime, name: &[u8], word: &[u8]) {
    let mut out = Sheet {
        text: &mut [0u8; 192],
        at: 0,
    };
    out.put(name);
    out.put(b": `");
    signs(&mut out, word);
    out.put(b"`: expected a place from $7E:0000 to $7F:FFFF\n");
    say(rt, out.written());
}
