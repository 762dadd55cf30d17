// What a line of the text may be, what may come next in it, and what a character completes. `Nothing` is a case beside the others, at the
// start of an order or of the rows' numbers, and no Option of them.

// What of a bench the text has said.
#[derive(Clone, Copy, PartialEq, Eq, PartialOrd, Ord, Debug)]
pub enum Phase {
    Nothing,
    Settings,
    Fill,
    Rom,
    Rows,
}

// A line. The rows' numbers are those of their kinds in a bench file.
#[derive(Clone, Copy, PartialEq, Eq, Debug)]
pub enum Kind {
    Nothing,
    Cycles,
    Read,
    Write,
    Pad,
    Plug,
    Answer,
    Back,
    Bitcycles,
    Fill,
    Rom,
    RomFile,
}

// What is expected next. `More` bytes may be none.
#[derive(Clone, Copy, PartialEq, Eq, Debug)]
pub enum Expected {
    Line,
    Count,
    Options,
    Event,
    ReadAddress,
    Byte,
    PadPort,
    PadWord,
    AnswerAddress,
    OnOff,
    BitCycles,
    FillByte,
    RomByteOrFile,
    MoreFill,
    FileName,
    BackCount,
    WriteAddress,
    PlugPort,
    End,
    MoreRom,
}

// What the last character completed, or that the text failed there. A byte is the draft's `b1`.
#[derive(Clone, Copy, PartialEq, Eq, Debug)]
pub enum Emit {
    Nothing,
    FillByte,
    Settings,
    Row,
    RomFile,
    RomByte,
    Failed,
}
