ghost use Rattle.rules.specs.Host.{HostClearedBy, lent};

// clear: frees all slots and gives cell (x, y) weight y + 1. Codes 1, 2, 3.
#[unsafe(no_mangle)]
pub extern "C" fn freelist_clear(w: usize, h: usize, weights: &mut [u8], table: &mut [u8]) -> u64
    ensures { HostClearedBy w h (lent weights.old table.old) result (lent weights.new table.new) }
{
    lent::clear::clear(w, h, weights, table)
}
