ghost use Rattle.rules.specs.Host.{HostRanBy, lent};

// run a block: each request in turn on what the one before left; counts the requests accepted. Codes 1 to 6.
#[unsafe(no_mangle)]
pub extern "C" fn freelist_run(
    w: usize,
    h: usize,
    weights: &mut [u8],
    table: &mut [u8],
    requests: &[u8],
    answers: &mut [u8],
) -> u64
    ensures { HostRanBy w h (lent weights.old table.old) requests.now answers.old result (lent weights.new table.new) answers.new }
{
    lent::run::run(w, h, weights, table, requests, answers)
}
