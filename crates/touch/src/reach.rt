// What an access reaches: a byte of work RAM, WMADD, its own channel's registers.
ghost use Rattle.std.specs.Prelude.{◌≡◌};
ghost use Rattle.touch.specs.Reach.{spot_number, spot_of, own_by, own_of, wm_written, wm_by, reach_seen, reach_of};

use crate::who::Who;
use bus::access::Access;
use bus::route::{Route, place_of, route_of};
use common::snes_address::SnesAddress;
use common::u16_split::{with_high, with_low};
use registers::wm_address::{WmAddBank, WmAddress, inc};
use wram::Place;

// `spot` is the byte's offset in work RAM, where there is one; `after` is WMADD after the access.
#[derive(Clone, Copy)]
pub struct Reach {
    pub spot: Option<u32>,
    pub own: bool,
    pub after: WmAddress,
}

fn spot(place: Option<Place>) -> Option<u32>
    ensures { spot_number result ≡ spot_of place }
{
    match place {
        None => None,
        Some(Place::Bank7E(addr)) => Some(addr as u32),
        Some(Place::Bank7F(addr)) => Some(addr as u32 + 65536),
    }
}

// A register of channel n: $43n0-$43nF.
fn own_by(channel: u8, way: Route, a: Access) -> bool
    ensures { result ≡ own_by channel way a }
{
    match way {
        Route::Bank7E | Route::Bank7F | Route::Data | Route::Cartridge => false,
        Route::Registers => a.write & (a.addr / 16 == channel as u16 + 0x430),
    }
}

fn own_of(who: Who, way: Route, a: Access) -> bool
    ensures { result ≡ own_of who way a }
{
    match who {
        Who::Cpu => false,
        Who::Dma { channel } | Who::Hdma { channel } => own_by(channel, way, a),
    }
}

// $2181-$2183.
fn wm_written(w: WmAddress, addr: u16, byte: u8) -> WmAddress
    ensures { result ≡ wm_written w addr byte }
{
    match addr {
        0x2181 => WmAddress {
            addr: with_low(w.addr, byte),
            ..w
        },
        0x2182 => WmAddress {
            addr: with_high(w.addr, byte),
            ..w
        },
        0x2183 => WmAddress {
            bank: WmAddBank::from(byte),
            ..w
        },
        _ => w,
    }
}

fn wm_after(w: WmAddress, way: Route, a: Access) -> WmAddress
    ensures { result ≡ wm_by way w a }
{
    match way {
        Route::Bank7E | Route::Bank7F | Route::Cartridge => w,
        Route::Data => inc(w),
        Route::Registers => {
            if a.write {
                return wm_written(w, a.addr, a.byte);
            }
            w
        }
    }
}

// WMADD as it stood says which byte $2180 reached.
pub fn reached(who: Who, w: WmAddress, a: Access) -> Reach
    ensures { reach_seen result ≡ reach_of who w a }
{
    let way = route_of(SnesAddress {
        bank: a.bank,
        addr: a.addr,
    });
    let place = place_of(w, way, a.addr);
    let at = spot(place);
    let own = own_of(who, way, a);
    let after = wm_after(w, way, a);
    Reach {
        spot: at,
        own,
        after,
    }
}
