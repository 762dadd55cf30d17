// Bits of masks and registers.
ghost use Rattle.std.specs.Prelude.{◌≡◌};
ghost use Rattle.transfer.specs.Bits.{lowest, clear_bit, flag_of};

// The lowest set bit; of no bit at all, 8.
pub fn lowest_bit(mask: u8) -> u8
    ensures { result ≡ lowest mask }
{
    mask.trailing_zeros() as u8
}

// The mask without one bit. A channel number counts modulo 8.
pub fn clear_bit(mask: u8, ch: u8) -> u8
    ensures { result ≡ clear_bit mask ch }
{
    mask & !(1 << (ch % 8))
}

// Whether any bit of the mask is set.
pub fn flag(x: u8, mask: u8) -> bool
    ensures { result ≡ flag_of x mask }
{
    x & mask != 0
}
