// What a run goes on: the bench, with what its calls are lent.
use ring::Bench;

// Both banks of work RAM, the record's bytes and the ROM.
#[derive(Drop)]
pub struct Rig<'a> {
    pub bench: Bench,
    pub low: &'a mut [u8],
    pub high: &'a mut [u8],
    pub entries: &'a mut [u8],
    pub rom: &'a [u8],
}
