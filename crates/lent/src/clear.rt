// clear, on lent bytes.
ghost use Rattle.lent.specs.Told.{told_number};
ghost use Rattle.rules.specs.Host.{HostClearedBy, lent};

use super::counts::Counts;
use super::told::told;
use rules::Refusal;
use surface::clear::{clear_weights, free_slots};
use surface::sizes::check_sizes;

fn cleared(w: usize, h: usize, weights: &mut [u8], table: &mut [u8]) -> Result<Counts, Refusal>
    ensures { HostClearedBy w h (lent weights.old table.old) (told_number result) (lent weights.new table.new) }
{
    check_sizes(w, h, weights.len(), 2, table.len())?;
    let mut ones = [1i16; 4096];
    let s = &mut ones[..w * h];
    clear_weights(w, h, s);
    codec::encode(s, weights);
    free_slots(table);
    Ok(Counts {
        first: 0,
        second: 0,
    })
}

// clear: frees all slots and gives cell (x, y) weight y + 1. Codes 1, 2, 3.
pub fn clear(w: usize, h: usize, weights: &mut [u8], table: &mut [u8]) -> u64
    ensures { HostClearedBy w h (lent weights.old table.old) result (lent weights.new table.new) }
{
    told(cleared(w, h, weights, table))
}
