// What a cycle answers, as bytes: held, edge, how many accesses, and eleven of (write, bank, address, byte).
ghost use Rattle.std.specs.Prelude.{◌≡◌};
ghost use Rattle.asbytes.specs.Answer.{enc_access, enc_accesses, accesses_place, answered};
ghost use Rattle.fields.specs.Patch.{patched};

use crate::{ACCESS_SIZE, ACCESSES, ANSWER_SIZE};
use bus::access::{Access, Log};
use fields::put;

pub fn access_bytes(a: Access) -> [u8; ACCESS_SIZE]
    ensures { result ≡ enc_access a }
{
    let [low, high] = a.addr.to_le_bytes();
    [a.write as u8, a.bank, low, high, a.byte]
}

// All eleven, each straight to its place; nothing, where the last has no room.
fn put_accesses(out: &mut [u8], items: [Access; 11])
    ensures { out.new ≡ patched out.old accesses_place (enc_accesses items) }
{
    if ANSWER_SIZE <= out.len() {
        for (i, a) in items.iter().enumerate() {
            put(out, ACCESSES + ACCESS_SIZE * i, &access_bytes(*a));
        }
    }
}

pub fn put_answer(out: &mut [u8], held: bool, edge: bool, log: Log)
    ensures { out.new ≡ answered held edge log out.old }
{
    put(out, 0, &[held as u8, edge as u8, log.count]);
    let items = log.items;
    put_accesses(out, items);
}
