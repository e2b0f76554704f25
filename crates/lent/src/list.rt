// The list, on lent bytes.
ghost use Rattle.lent.specs.Told.{told_number};
ghost use Rattle.rules.specs.Host.{HostListedBy, lent};

use super::counts::Counts;
use super::examine::examine;
use super::told::told;
use cells::standing::Surface;
use listing::list::list_standing;
use rules::Refusal;
use surface::sizes::check_sizes;

fn listed(
    w: usize,
    h: usize,
    weights: &[u8],
    table: &[u8],
    room: &mut [u8],
) -> Result<Counts, Refusal>
    ensures { HostListedBy w h (lent weights.now table.now) room.old (told_number result) room.new }
{
    check_sizes(w, h, weights.len(), 2, table.len())?;
    let mut ones = [1i16; 4096];
    let s = &mut ones[..w * h];
    examine(w, h, weights, table, s)?;
    let surface = Surface {
        w,
        h,
        weights: s,
        table,
    };
    let counts = list_standing(&surface, room)?;
    Ok(Counts {
        first: counts.entries,
        second: counts.corners,
    })
}

// list: the maximal empty rectangles, in order; counts entries and corners. Codes 1, 2, 3, 6, 7.
pub fn list(w: usize, h: usize, weights: &[u8], table: &[u8], room: &mut [u8]) -> u64
    ensures { HostListedBy w h (lent weights.now table.now) room.old result room.new }
{
    told(listed(w, h, weights, table, room))
}
