// Where an address leads.
ghost use Rattle.std.specs.Prelude.{◌≡◌};
ghost use Rattle.bus.specs.Route.{system_route, route_of, place_of, memory};

use common::snes_address::SnesAddress;
use registers::wm_address::{WmAddBank, WmAddress};
use wram::Place;

#[derive(Clone, Copy)]
pub enum Route {
    Bank7E,
    Bank7F,
    Data,
    Registers,
    Cartridge,
}

// In banks $00-$3F and $80-$BF. $2180 reaches work RAM through the registers.
#[tactic(auto, unfolding(crate::specs::Route::system_route))]
fn system_route(addr: u16) -> Route
    ensures { result ≡ system_route addr }
{
    match addr {
        0x0000..0x2000 => Route::Bank7E,
        0x2180 => Route::Data,
        0x2000..0x6000 => Route::Registers,
        _ => Route::Cartridge,
    }
}

#[tactic(auto, unfolding(crate::specs::Route::route_of))]
pub fn route_of(at: SnesAddress) -> Route
    ensures { result ≡ route_of at.bank at.addr }
{
    match at.bank {
        0x00..=0x3F | 0x80..=0xBF => system_route(at.addr),
        0x7E => Route::Bank7E,
        0x7F => Route::Bank7F,
        _ => Route::Cartridge,
    }
}

// The byte of work RAM behind a route: by the address, or by WMADD.
#[tactic(auto, unfolding(crate::specs::Route::place_of))]
pub fn place_of(wmadd: WmAddress, route: Route, addr: u16) -> Option<Place>
    ensures { result ≡ place_of wmadd route addr }
{
    match route {
        Route::Bank7E => Some(Place::Bank7E(addr)),
        Route::Bank7F => Some(Place::Bank7F(addr)),
        Route::Data => Some(match wmadd.bank {
            WmAddBank::Bank7E => Place::Bank7E(wmadd.addr),
            WmAddBank::Bank7F => Place::Bank7F(wmadd.addr),
        }),
        Route::Registers | Route::Cartridge => None,
    }
}

// Work RAM by its own address, or the cartridge.
pub fn leads_to_memory(way: Route) -> bool
    ensures { result ≡ memory way }
{
    match way {
        Route::Bank7E | Route::Bank7F | Route::Cartridge => true,
        Route::Data | Route::Registers => false,
    }
}
