// Why a call refuses: the lines of document 01's table, and 13 and 14 of document 02, in their order.
ghost use Rattle.std.specs.Prelude.{◌≡◌};
ghost use Rattle.common.specs.Refusal.{refusal_number, number_of};

#[derive(Clone, Copy, Debug, PartialEq, Eq)]
pub enum Refusal {
    Banks = 1,
    Record,
    Rom,
    Machine,
    Event,
    Port,
    ClockEnd,
    NothingKept,
    Entry,
    BitCycles,
    BenchFile,
    Page,
    Total,
    Files,
}

impl Refusal {
    pub fn number(self) -> u8
        ensures { result ≡ refusal_number self }
    {
        self as u8
    }
}

// The number of what may refuse: 0 where nothing does.
pub fn number_of(refusal: Option<Refusal>) -> u8
    ensures { result ≡ number_of refusal }
{
    match refusal {
        Some(r) => r.number(),
        None => 0,
    }
}
