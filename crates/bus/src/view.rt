// What the DMA unit sees of the registers: its channels and its two enables. A channel number counts modulo 8.
ghost use Rattle.std.specs.Prelude.{◌≡◌};

use crate::access::Core;
use crate::bus::Bus;
use registers::channel::DmaChannel;

impl Core {
    ghost use Rattle.bus.specs.View.{channel_of, with_channel};

    #[tactic(auto, unfolding(crate::specs::View::channel_of))]
    pub fn channel(&self, ch: u8) -> DmaChannel
        ensures { result ≡ channel_of self.now ch }
    {
        self.io.channels[(ch % 8) as usize]
    }

    #[tactic(auto, unfolding(crate::specs::View::with_channel))]
    pub fn set_channel(&mut self, ch: u8, c: DmaChannel)
        ensures { self.new ≡ with_channel self.old ch c }
    {
        self.io.channels[(ch % 8) as usize] = c;
    }
}

impl<'a, 'b> Bus<'a, 'b> {
    ghost use Rattle.bus.specs.Lent.{on_core};
    ghost use Rattle.bus.specs.View.{channel_of, with_channel, mdmaen_of, with_mdmaen, hdmaen_of};

    pub fn channel(&self, ch: u8) -> DmaChannel
        ensures { result ≡ channel_of self.now.core ch }
    {
        self.core.channel(ch)
    }

    pub fn set_channel(&mut self, ch: u8, c: DmaChannel)
        ensures { self.new ≡ on_core self.old (with_channel self.old.core ch c) }
    {
        self.core.set_channel(ch, c);
    }

    #[tactic(auto, unfolding(crate::specs::View::mdmaen_of))]
    pub fn mdmaen(&self) -> u8
        ensures { result ≡ mdmaen_of self.now.core }
    {
        self.core.io.enables.mdmaen
    }

    #[tactic(auto, unfolding(crate::specs::View::hdmaen_of))]
    pub fn hdmaen(&self) -> u8
        ensures { result ≡ hdmaen_of self.now.core }
    {
        self.core.io.enables.hdmaen
    }

    #[tactic(auto, unfolding(crate::specs::View::with_mdmaen))]
    pub fn set_mdmaen(&mut self, mask: u8)
        ensures { self.new ≡ on_core self.old (with_mdmaen self.old.core mask) }
    {
        self.core.io.enables.mdmaen = mask;
    }
}
