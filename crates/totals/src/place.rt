// One figure of one column: the largest so far, and which file has it.
ghost use Rattle.std.specs.Prelude.{◌≡◌};
ghost use Rattle.totals.specs.Place.{takes, larger_at, file_at};

// The first file takes every place, so that with all files at 0 the first has the largest.
fn taken(file: u64, most: u64, x: u64) -> bool
    ensures { result ≡ takes file most x }
{
    (file == 1) | (most < x)
}

pub fn larger(file: u64, most: u64, x: u64) -> u64
    ensures { result ≡ larger_at file most x }
{
    if taken(file, most, x) { x } else { most }
}

// `holder` is the file that has the largest so far; a tie leaves it.
pub fn which(file: u64, holder: u64, most: u64, x: u64) -> u64
    ensures { result ≡ file_at file holder most x }
{
    if taken(file, most, x) { file } else { holder }
}
