ghost use Rattle.rules.specs.Host.{HostListedBy, lent};

// list: the maximal empty rectangles, in order; counts entries and corners. Codes 1, 2, 3, 6, 7.
#[unsafe(no_mangle)]
pub extern "C" fn freelist_list(
    w: usize,
    h: usize,
    weights: &[u8],
    table: &[u8],
    room: &mut [u8],
) -> u64
    ensures { HostListedBy w h (lent weights.now table.now) room.old result room.new }
{
    lent::list::list(w, h, weights, table, room)
}
