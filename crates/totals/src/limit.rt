// 2^64 - 1, which no total passes.
ghost use Rattle.std.specs.Prelude.{◌≡◌};
ghost use Rattle.totals.specs.Limit.{passes_at};

// Asked by a difference, since the total itself may not fit.
pub fn passes_at(sum: u64, x: u64) -> bool
    ensures { result ≡ passes_at sum x }
{
    18446744073709551615 - sum < x
}
