// How far a long folder is: a line on the terminal while a file is counted, taken away after it.
use append::Sheet;
use std::fs;
use std::fs::{File, OpenOptions};
use std::io::{IsTerminal, Write};
use std::os::unix::fs::FileTypeExt;

// The terminal behind a descriptor. Only a device is opened: to open a pipe that nobody reads would wait for a reader.
fn terminal_at(rt: HostRuntime, path: &str) -> Option<File> {
    let kind = fs::metadata(&rt, path).ok()?.file_type();
    if !kind.is_char_device() {
        return None;
    }
    let file = OpenOptions::new().write(true).open(&rt, path).ok()?;
    if file.is_terminal() { Some(file) } else { None }
}

// Standard error where it is a terminal; else descriptor 3, behind which ./run keeps its own. It is asked before any file is opened.
pub fn terminal(rt: HostRuntime) -> Option<File> {
    let error = terminal_at(rt, "/dev/fd/2");
    if error.is_some() {
        return error;
    }
    terminal_at(rt, "/dev/fd/3")
}

fn write(to: &mut Option<File>, text: &[u8]) {
    if let Some(file) = to {
        let _ = file.write_all(text);
    }
}

pub fn show(to: &mut Option<File>, file: u64, of: u64) {
    let mut out = Sheet {
        text: &mut [0u8; 80],
        at: 0,
    };
    out.put(b"\rfigures: file ");
    out.decimal(file);
    out.put(b" of ");
    out.decimal(of);
    out.put(b"\x1b[K");
    write(to, out.written());
}

pub fn clear(to: &mut Option<File>) {
    write(to, b"\r\x1b[K");
}
