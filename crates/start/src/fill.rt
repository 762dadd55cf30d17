// The RAM fill of a bench file.
ghost use Rattle.std.specs.Prelude.{◌≡◌};
ghost use Rattle.start.specs.Fill.{filled};

// The fill is repeated over the bank, from its first byte. A bench file's fill is not empty; an empty one leaves the bank.
pub fn fill_bank(bank: &mut [u8], fill: &[u8])
    ensures { bank.new ≡ filled bank.old fill.now }
{
    if fill.len() == 0 {
        return;
    }
    for (i, byte) in bank.iter_mut().enumerate() {
        *byte = fill[i % fill.len()];
    }
}
