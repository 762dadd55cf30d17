// A part of a slice, as much of it as is there.
ghost use Rattle.std.specs.Prelude.{◌≡◌};
ghost use Rattle.fields.specs.Bytes.{part_of};

// The n bytes from a place on; where the slice ends before, those up to its end.
pub fn part(s: &[u8], at: usize, n: usize) -> &[u8]
    ensures { result.now ≡ part_of s.now at n }
{
    if s.len() <= at {
        return &s[0..0];
    }
    if s.len() - at <= n {
        return &s[at..];
    }
    let end = at + n;
    &s[at..end]
}
