// Master cycles of an access: 6, 8 or 12.
ghost use Rattle.std.specs.Prelude.{◌≡◌};
ghost use Rattle.bus.specs.Route.{zone_cost, cost_of};

use crate::route::{Route, route_of};
use common::snes_address::SnesAddress;

// The joypad registers are the slowest.
fn zone_cost(addr: u16) -> u8
    ensures { result ≡ zone_cost addr }
{
    match addr {
        0x4000..0x4200 => 12,
        _ => 6,
    }
}

#[tactic(auto, unfolding(crate::specs::Route::cost_of))]
pub fn cost(memsel: u8, at: SnesAddress) -> u8
    ensures { result ≡ cost_of memsel at.bank at.addr }
{
    match route_of(at) {
        Route::Bank7E | Route::Bank7F => 8,
        Route::Data | Route::Registers => zone_cost(at.addr),
        Route::Cartridge => cartridge::cost(memsel, at),
    }
}
