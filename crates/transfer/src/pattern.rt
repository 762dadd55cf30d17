// The transfer patterns of DMAP bits 2-0: which B-bus offset each byte of a unit goes to, as a number.
ghost use Rattle.std.specs.Prelude.{◌≡◌};
ghost use Rattle.transfer.specs.Pattern.{offset_of, unit_len, b_address};

#[tactic(auto, unfolding(crate::specs::Pattern::offset_of))]
pub fn offset(dmap: u8, unit: u32) -> u8
    ensures { result ≡ offset_of dmap unit }
{
    match dmap % 8 {
        1 | 5 => (unit % 2) as u8,
        3 | 7 => (unit / 2 % 2) as u8,
        4 => (unit % 4) as u8,
        _ => 0,
    }
}

#[tactic(auto, unfolding(crate::specs::Pattern::unit_len))]
pub fn unit_len(dmap: u8) -> u8
    ensures { result ≡ unit_len dmap }
{
    match dmap % 8 {
        0 => 1,
        1 | 2 | 6 => 2,
        _ => 4,
    }
}

// The sum wraps inside the $21xx page.
pub fn b_address(bbad: u8, off: u8) -> u16
    ensures { result ≡ b_address bbad off }
{
    0x2100 + bbad.wrapping_add(off) as u16
}
