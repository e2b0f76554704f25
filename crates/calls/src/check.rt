ghost use Rattle.rules.specs.Host.{host_check, lent};
ghost use Rattle.std.specs.Prelude.{◌≡◌};

// check: whether the surface stands; counts the used slots. Codes 1, 2, 3, 6.
#[unsafe(no_mangle)]
pub extern "C" fn freelist_check(w: usize, h: usize, weights: &[u8], table: &[u8]) -> u64
    ensures { result ≡ host_check w h (lent weights.now table.now) }
{
    lent::check::check(w, h, weights, table)
}
