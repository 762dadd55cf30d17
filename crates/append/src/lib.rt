// Bytes put one after the other into a lent buffer. Where it has no more room, bytes are dropped and the place stays at its end.
#![tactic(auto)]

pub mod number;

ghost use Rattle.std.specs.Prelude.{◌+◌, ◌≡◌, leb, length};

// A lent buffer, and the place of the next byte in it.
#[derive(Drop)]
pub struct Sheet<'a> {
    pub text: &'a mut [u8],
    pub at: usize,
}

impl<'a> Sheet<'a> {
    ghost use Rattle.append.specs.Lent.{shown, pushed, putting};
    ghost use Rattle.append.specs.Sheet.{shown_of};

    // One byte.
    #[tactic(auto, unfolding(crate::specs::Sheet::push))]
    pub fn push(&mut self, byte: u8)
        ensures { self.new ≡ pushed self.old byte }
    {
        if self.at < self.text.len() {
            self.text[self.at] = byte;
            self.at += 1;
        }
    }

    // All bytes of `src`.
    #[tactic(auto, unfolding(crate::specs::Sheet::puts), using(crate::proofs::Laws::put_more))]
    pub fn put(&mut self, src: &[u8])
        ensures { self.new ≡ putting self.old src.now }
    {
        for byte in src {
            self.push(*byte);
        }
    }

    // What stands in it so far.
    pub fn written(&self) -> &[u8]
        ensures { result.now ≡ shown_of (shown self.now) }
    {
        if self.at < self.text.len() {
            &self.text[..self.at]
        } else {
            self.text
        }
    }

    // Whether `need` more bytes have room.
    pub fn has_room(&self, need: usize) -> bool
        ensures { result ≡ leb (self.now.at + need) (length self.now.text.now) }
    {
        need <= self.text.len() && self.at <= self.text.len() - need
    }
}
