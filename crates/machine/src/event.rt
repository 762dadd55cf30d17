// What the picture does to the registers in a cycle, before the DMA unit acts.
ghost use Rattle.std.specs.Prelude.{◌≡◌};
ghost use Rattle.machine.specs.Event.{pressed, vblank_started, frame_started, evented, is_frame, timed, settled};

use registers::Io;
use registers::pads::Pads;
use registers::write::irq_disabled;
use signals::auto_joypad::{start_auto_joypad, step_auto_joypad};
use signals::flags::{set_hblank, set_nmi_flag, set_timeup_flag, set_vblank};

// The published events, one enum: `Nothing` is its `None`.
#[derive(Clone, Copy, PartialEq, Eq, Debug)]
pub enum Event {
    Nothing,
    HBlankStart,
    NormalLine,
    VBlankStart,
    FrameStart,
}

// The pad words become the ports' buttons; a pad acts on them only as its latch falls.
#[tactic(auto, unfolding(crate::specs::Event::pressed))]
fn sync_controllers(io: Io, pad1: u16, pad2: u16) -> Io
    ensures { result ≡ pressed io pad1 pad2 }
{
    let pads = Pads {
        port1: io.pads.port1.set_buttons(pad1),
        port2: io.pads.port2.set_buttons(pad2),
        ..io.pads
    };
    Io { pads, ..io }
}

#[tactic(auto, unfolding(crate::specs::Event::vblank_started))]
fn on_vblank_start(io: Io) -> Io
    ensures { result ≡ vblank_started io }
{
    let io = set_vblank(io, true);
    start_auto_joypad(set_nmi_flag(io, true))
}

#[tactic(auto, unfolding(crate::specs::Event::frame_started))]
fn on_frame_start(io: Io) -> Io
    ensures { result ≡ frame_started io }
{
    set_nmi_flag(set_vblank(io, false), false)
}

// Any line start ends H-blank first.
#[tactic(auto, unfolding(crate::specs::Event::evented))]
fn happen(io: Io, event: Event) -> Io
    ensures { result ≡ evented io event }
{
    match event {
        Event::Nothing => io,
        Event::HBlankStart => set_hblank(io, true),
        Event::NormalLine => set_hblank(io, false),
        Event::VBlankStart => on_vblank_start(set_hblank(io, false)),
        Event::FrameStart => on_frame_start(set_hblank(io, false)),
    }
}

pub fn is_frame(event: Event) -> bool
    ensures { result ≡ is_frame event }
{
    event == Event::FrameStart
}

// Buttons, event, automatic joypad.
#[tactic(auto, unfolding(crate::specs::Event::settled))]
pub fn settle(io: Io, pad1: u16, pad2: u16, event: Event, bitcycles: u16) -> Io
    ensures { result ≡ settled io pad1 pad2 event bitcycles }
{
    let io = happen(sync_controllers(io, pad1, pad2), event);
    step_auto_joypad(io, bitcycles as u32)
}

// The timer's hit sets TIMEUP unless the IRQ mode is Disabled.
#[tactic(auto, unfolding(crate::specs::Event::timed))]
pub fn time_up(io: Io, hit: bool) -> Io
    ensures { result ≡ timed io hit }
{
    if hit && !irq_disabled(io.enables.nmitimen) {
        return set_timeup_flag(io, true);
    }
    io
}
