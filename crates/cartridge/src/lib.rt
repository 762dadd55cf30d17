// The cartridge: a lent ROM that answers from $8000 up (document 01, "Added by the port"), and repeats where its length is a power of two of
// at least 32,768 (document 02, 1/12).
#![tactic(auto)]

ghost use Rattle.std.specs.Prelude.{◌≡◌};
ghost use Rattle.cartridge.specs.Cartridge.{rom_offset, rom_place, rom_byte, rom_cost};

use common::snes_address::SnesAddress;

// The offset of an address from $8000 up, as in a ROM that fills all banks.
fn offset(at: SnesAddress) -> usize
    ensures { result ≡ rom_offset at.bank at.addr }
{
    (at.bank % 128) as usize * 32768 + at.addr.saturating_sub(0x8000) as usize
}

// Where an offset lies in a ROM of `len` bytes. Each remainder is by a constant, so that no division is made.
#[tactic(auto, unfolding(crate::specs::Cartridge::rom_place))]
fn place(len: usize, at: usize) -> usize
    ensures { result ≡ rom_place len at }
{
    match len {
        32768 => at % 32768,
        65536 => at % 65536,
        131072 => at % 131072,
        262144 => at % 262144,
        524288 => at % 524288,
        1048576 => at % 1048576,
        2097152 => at % 2097152,
        4194304 => at % 4194304,
        _ => at,
    }
}

// The byte that the ROM answers; `openbus` where no chip does.
pub fn read(rom: &[u8], at: SnesAddress, openbus: u8) -> u8
    ensures { result ≡ rom_byte rom.now at.bank at.addr openbus }
{
    if at.addr < 0x8000 {
        return openbus;
    }
    rom.get(place(rom.len(), offset(at)))
        .copied()
        .unwrap_or(openbus)
}

// Cycles of an access: fast where MEMSEL says so, from $8000 up in banks $80-$FF.
pub fn cost(memsel: u8, at: SnesAddress) -> u8
    ensures { result ≡ rom_cost memsel at.bank at.addr }
{
    let fast = 0x8000 <= at.addr && 0x80 <= at.bank && memsel & 1 != 0;
    if fast { 6 } else { 8 }
}
