// The mean of a figure over a folder's files, as a fraction in lowest terms.
ghost use Rattle.std.specs.Prelude.{◌≡◌};
ghost use Rattle.totals.specs.Mean.{common_up_to, mean_of};

#[derive(Clone, Copy)]
pub struct Fraction {
    pub over: u64,
    pub under: u64,
}

// From `files` down the first that divides both is the largest; a folder has few files, so the steps are few.
fn common(sum: u64, files: u64) -> u64
    ensures { result ≡ common_up_to sum files files }
{
    for d in (1..=files).rev() {
        if (sum % d == 0) & (files % d == 0) {
            return d;
        }
    }
    1
}

// A sum of 0 comes out as 0/1, since the number of files then divides both.
pub fn mean(sum: u64, files: u64) -> Fraction
    ensures { result ≡ mean_of sum files }
{
    if files == 0 {
        return Fraction { over: 0, under: 1 };
    }
    let d = common(sum, files);
    Fraction {
        over: sum / d,
        under: files / d,
    }
}
