// Where a script stands.
ghost use Rattle.std.specs.Prelude.{◌≡◌};
ghost use Rattle.walk.specs.Stand.{onward, counted};

// The row to run next, from 0; how many of its calls were accepted, and how many of those were held.
#[derive(Clone, Copy)]
pub struct Stand {
    pub next: usize,
    pub done: u16,
    pub held: u16,
}

// One call more, by its refusal or 0 and whether it was held. A refused call is never held.
#[tactic(auto, unfolding(crate::specs::Stand::counted), using(crate::proofs::Join::up_by))]
pub fn count_call(s: Stand, number: u8, held: bool) -> Stand
    ensures { result ≡ counted s number held }
{
    Stand {
        next: s.next,
        done: s.done.wrapping_add((number == 0) as u16),
        held: s.held.wrapping_add(held as u16),
    }
}

// After the last of `count` calls the next row comes.
#[tactic(auto, unfolding(crate::specs::Stand::onward))]
pub fn go_on(s: Stand, count: u16) -> Stand
    ensures { result ≡ onward s count }
{
    if s.done < count {
        return s;
    }
    Stand {
        next: s.next.wrapping_add(1),
        done: 0,
        held: 0,
    }
}
