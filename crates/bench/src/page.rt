// A look at a page of work RAM: 256 bytes of whichever bank holds it. The banks come apart, as the C interface lends them.
ghost use Rattle.std.specs.Prelude.{◌≡◌, length};
ghost use Rattle.bench.specs.Page.{page_call};
ghost use Rattle.common.specs.Refusal.{result_number, result_bytes};
ghost use Rattle.ring.specs.Refusal.{look_number};

use common::refusal::Refusal;
use ring::refusal::look_allowed;

pub fn page_part<'a>(low: &'a [u8], high: &'a [u8], page: u16) -> Result<&'a [u8], Refusal>
    ensures number { result_number result ≡ look_number (length low.now) (length high.now) page }
    ensures bytes { result_bytes result ≡ page_call low.now high.now page }
{
    look_allowed(low.len(), high.len(), page)?;
    if page < 256 {
        let at = page as usize * 256;
        return Ok(&low[at..at + 256]);
    }
    let at = (page as usize - 256) * 256;
    Ok(&high[at..at + 256])
}

// The number of a look: 0, 1 or 12.
pub fn page_number(low: &[u8], high: &[u8], page: u16) -> u8
    ensures { result ≡ look_number (length low.now) (length high.now) page }
{
    match look_allowed(low.len(), high.len(), page) {
        Ok(()) => 0,
        Err(refusal) => refusal.number(),
    }
}

// The page's bytes, and none where the look is refused.
pub fn page_look<'a>(low: &'a [u8], high: &'a [u8], page: u16) -> &'a [u8]
    ensures { result.now ≡ page_call low.now high.now page }
{
    page_part(low, high, page).unwrap_or(&[])
}
