// The names of the 29 figures, by their places in a column.
ghost use Rattle.std.specs.Prelude.{◌≡◌};
ghost use Rattle.append.specs.Lent.{putting};
ghost use Rattle.ledger.specs.Name.{kind_text, state_text, name_text};

use append::Sheet;

// Eight places, one a channel, for each of three kinds.
#[tactic(auto, unfolding(crate::specs::Name::kind_text))]
fn put_kind(out: &mut Sheet<'_>, kind: usize)
    ensures { out.new ≡ putting out.old (kind_text kind) }
{
    match kind {
        0 => out.put(b"general "),
        1 => out.put(b"units "),
        _ => out.put(b"table "),
    }
}

// Behind them the cycles held, by the DMA state after the cycle, and all of them.
#[tactic(auto, unfolding(crate::specs::Name::state_text))]
fn put_state(out: &mut Sheet<'_>, place: usize)
    ensures { out.new ≡ putting out.old (state_text place) }
{
    match place {
        24 => out.put(b"held idle"),
        25 => out.put(b"held startup"),
        26 => out.put(b"held dma"),
        27 => out.put(b"held hdma"),
        _ => out.put(b"held all"),
    }
}

#[tactic(auto, unfolding(append::specs::Sheet::puts, crate::specs::Name::name_text), using(append::proofs::Laws::texts, std::proofs::lemmas::Bool::Decides::nat_tests))]
pub fn put_name(out: &mut Sheet<'_>, i: usize)
    ensures { out.new ≡ putting out.old (name_text i) }
{
    if i < 24 {
        put_kind(out, i / 8);
        out.decimal((i % 8) as u64);
    } else {
        put_state(out, i);
    }
}
