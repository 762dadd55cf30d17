// Which row an operation of the record came from: a ring beside the record's slots.
ghost use Rattle.std.specs.Prelude.{false, ◌≡◌, get_or};
ghost use Rattle.moves.specs.Origin.{origin_of, noted};

// A row's number with how many of its cycles came before the operation.
pub fn origin_of(row: usize, done: u16) -> u32
    ensures { result ≡ origin_of row done }
{
    (row % 65536) as u32 * 65536 + done as u32
}

// An accepted operation is noted at the slot of its entry; `counts` tells one from a refused call and from a back step.
pub fn note(origins: &mut [u32], slot: usize, origin: u32, counts: bool)
    ensures { origins.new ≡ noted origins.old slot origin counts }
{
    if !counts {
        return;
    }
    if slot < origins.len() {
        origins[slot] = origin;
    }
}

// The operation of a slot.
pub fn origin_at(origins: &[u32], slot: usize) -> u32
    ensures { result ≡ get_or origins.now slot 0 }
{
    origins.get(slot).copied().unwrap_or(0)
}
