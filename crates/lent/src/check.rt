// check, on lent bytes.
ghost use Rattle.std.specs.Prelude.{◌≡◌};
ghost use Rattle.lent.specs.Told.{told_number};
ghost use Rattle.rules.specs.Host.{host_check, lent};

use super::counts::Counts;
use super::examine::examine;
use super::told::told;
use rules::Refusal;
use surface::sizes::check_sizes;

fn checked(w: usize, h: usize, weights: &[u8], table: &[u8]) -> Result<Counts, Refusal>
    ensures { told_number result ≡ host_check w h (lent weights.now table.now) }
{
    check_sizes(w, h, weights.len(), 2, table.len())?;
    let mut ones = [1i16; 4096];
    let used = examine(w, h, weights, table, &mut ones[..w * h])?;
    Ok(Counts {
        first: used,
        second: 0,
    })
}

// check: whether the surface stands; counts the used slots. Codes 1, 2, 3, 6.
pub fn check(w: usize, h: usize, weights: &[u8], table: &[u8]) -> u64
    ensures { result ≡ host_check w h (lent weights.now table.now) }
{
    told(checked(w, h, weights, table))
}
