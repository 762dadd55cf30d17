// The words of the text form as numbers in base 36, of which each letter is a digit.

pub const CYCLES: u64 = 783288676;

pub const READ: u64 = 1278229;

pub const WRITE: u64 = 55031810;

pub const PAD: u64 = 32773;

pub const PLUG: u64 = 1194712;

pub const ANSWER: u64 = 644641299;

pub const BACK: u64 = 526628;

pub const BITCYCLES: u64 = 32506673912164;

pub const FILL: u64 = 723945;

pub const ROM: u64 = 35878;

pub const EVENT: u64 = 24979961;

pub const LINE: u64 = 1003946;

pub const TIMER: u64 = 49577715;

pub const ON: u64 = 887;

pub const OFF: u64 = 31659;

pub const FILE: u64 = 723938;
