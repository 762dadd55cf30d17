// What the host does to the machine: a pad word, a pad plugged or pulled, an answer byte of PPU or APU.
ghost use Rattle.std.specs.Prelude.{◌≡◌};
ghost use Rattle.bench.specs.Host.{with_io, pad_set, plug_set, answer_set};

use registers::Io;
use state::Machine;

pub fn with_io(m: Machine, io: Io) -> Machine
    ensures { result ≡ with_io m io }
{
    Machine { io, ..m }
}

// The word without its low four bits; the port's buttons follow in the next cycle. Here and in `set_plug` a port is a field, not an index.
#[tactic(auto, unfolding(crate::specs::Host::pad_set))]
pub fn set_pad(mut m: Machine, port: u8, word: u16) -> Machine
    ensures { result ≡ pad_set m port word }
{
    if port == 0 {
        m.board.pad1 = word & !0x000F;
    } else {
        m.board.pad2 = word & !0x000F;
    }
    m
}

// The connected flag alone.
#[tactic(auto, unfolding(crate::specs::Host::plug_set))]
pub fn set_plug(mut m: Machine, port: u8, on: bool) -> Machine
    ensures { result ≡ plug_set m port on }
{
    if port == 0 {
        m.io.pads.port1.connected = on;
    } else {
        m.io.pads.port2.connected = on;
    }
    m
}

// $2134-$213F are the PPU's twelve, $2140-$2143 the APU's four; elsewhere nothing changes.
pub fn set_answer(mut m: Machine, addr: u16, byte: u8) -> Machine
    ensures { result ≡ answer_set m addr byte }
{
    match addr {
        0x2134..0x2140 => m.io.ports.ppu[(addr - 0x2134) as usize] = byte,
        0x2140..0x2144 => m.io.ports.apu[(addr - 0x2140) as usize] = byte,
        _ => (),
    }
    m
}
