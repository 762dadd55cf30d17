// Reads and writes on the bus. Each is logged, and each byte of work RAM that a write replaces is kept.
ghost use Rattle.std.specs.Prelude.{◌≡◌};
ghost use Rattle.bus.specs.Access.{no_log, opened, data_stepped, io_written, register_read};

use crate::route::Route;
use common::counted::Counted;
use common::snes_address::SnesAddress;
use registers::Io;
use registers::read::IoRead;
use registers::wm_address::inc;
use wram::Olds;

// `write` or a read, of `bank`:`addr`.
#[derive(Clone, Copy)]
pub struct Access {
    pub write: bool,
    pub bank: u8,
    pub addr: u16,
    pub byte: u8,
}

// The accesses of an operation, in order.
pub type Log = Counted<Access, 11>;

// The registers with what this operation did on the bus.
#[derive(Clone, Copy)]
pub struct Core {
    pub io: Io,
    pub log: Log,
    pub olds: Olds,
}

pub fn no_log() -> Log
    ensures { result ≡ no_log }
{
    Log::none(Access {
        write: false,
        bank: 0,
        addr: 0,
        byte: 0,
    })
}

// The registers with nothing done on the bus yet.
#[tactic(auto, unfolding(crate::specs::Access::opened))]
pub fn opened_core(io: Io) -> Core
    ensures { result ≡ opened io }
{
    Core {
        io,
        log: no_log(),
        olds: wram::no_olds(),
    }
}

// $2180: the byte is the open bus, and WMADD steps.
fn step_data(io: Io, byte: u8) -> Io
    ensures { result ≡ data_stepped io byte }
{
    Io {
        wmadd: inc(io.wmadd),
        openbus: byte,
        ..io
    }
}

// What a write does to the registers.
#[tactic(auto, unfolding(crate::specs::Access::io_written))]
pub fn write_io(io: Io, way: Route, addr: u16, byte: u8) -> Io
    ensures { result ≡ io_written io way addr byte }
{
    match way {
        Route::Bank7E | Route::Bank7F | Route::Cartridge => io,
        Route::Data => step_data(io, byte),
        Route::Registers => registers::write::write(io, addr, byte),
    }
}

// What a read gives and does to the registers; `byte` is what work RAM holds at the place, if it has one.
#[tactic(auto, unfolding(crate::specs::Access::register_read))]
pub fn read_io(io: Io, rom: &[u8], way: Route, at: SnesAddress, byte: u8) -> IoRead
    ensures { result ≡ register_read rom.now io way at.bank at.addr byte }
{
    match way {
        Route::Bank7E | Route::Bank7F => IoRead { io, byte },
        Route::Data => IoRead {
            io: step_data(io, byte),
            byte,
        },
        Route::Registers => registers::read::read(io, at.addr),
        Route::Cartridge => IoRead {
            io,
            byte: cartridge::read(rom, at, io.openbus),
        },
    }
}
