// Which operations of a script survive: for each row how many of its first.
ghost use Rattle.std.specs.Prelude.{◌≡◌, slice_index, slice_set};
ghost use Rattle.tally.specs.Alive.{latest_of, rows, noted};

fn alive_at(alive: &[u16], row: usize) -> u16
    ensures { result ≡ slice_index alive.now row }
{
    alive.get(row).copied().unwrap_or(0)
}

// No get_mut: where there is no such row, its contract would not say that the slice is as it was.
fn set_at(alive: &mut [u16], row: usize, n: u16)
    ensures { alive.new ≡ slice_set alive.old row n }
{
    if row < alive.len() {
        alive[row] = n;
    }
}

// The latest row, from `top` down, that has a surviving operation. Where none has, the first.
fn latest(alive: &[u16], top: usize) -> usize
    ensures { result ≡ latest_of alive.now top }
{
    for i in (1..=top).rev() {
        if alive_at(alive, i) != 0 {
            return i;
        }
    }
    0
}

// An accepted call of a row: an operation survives for now; a back step strikes the last that does. Returns the row that changed, since
// behind it no row has a surviving operation.
#[tactic(auto, unfolding(crate::specs::Alive::noted))]
pub fn note(alive: &mut [u16], top: usize, row: usize, back: bool) -> usize
    ensures { rows result alive.new ≡ noted row back (rows top alive.old) }
{
    if back {
        let at = latest(alive, top);
        let fewer = alive_at(alive, at).saturating_sub(1);
        set_at(alive, at, fewer);
        return at;
    }
    let more = alive_at(alive, row).wrapping_add(1);
    set_at(alive, row, more);
    row
}
