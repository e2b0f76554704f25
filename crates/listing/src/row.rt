// One row, walked once by the staircase: its entries and its corners.
ghost use Rattle.std.specs.Prelude.{◌≡◌, ◌+◌, ◌≤◌, ◌<◌, length, take};
ghost use Rattle.rules.specs.Surface.{occupied};
ghost use Rattle.listing.specs.Row.{turns};
ghost use Rattle.listing.specs.Listed.{height_of, entries_in};

use super::entry::Entry;
use super::heights::{height_at, rises, run_at, settle, stays};
use super::stairs::{Stair, cut, emit, push};
use cells::standing::Surface;

// How many entries and how many corners.
#[derive(Clone, Copy, Debug, PartialEq, Eq)]
pub struct Counts {
    pub entries: usize,
    pub corners: usize,
}

// The walk. `before` is the height before x. Where the height stays, nothing happens; where it rises, a stair enters; where it falls, the stairs
// that are higher leave, and the stair of its height enters; an occupied cell is none of the empty ones that end behind it. An occupied run after an
// occupied cell is skipped by its weight, so x is counted by hand. Past the last column stands 0: all leave. Each fall is a corner. n stairs are held
// and m entries written; `end` is as far as there is support among the first lo columns, and from lo on all are empty. The surface is copied, so that
// the loop does not read its fields anew for each cell.
fn walk(surface: &Surface, y: usize, stairs: &mut [Stair], entries: &mut [Entry]) -> Counts
    requires y_lt_h { y < surface.now.h }
    requires stairs_room { surface.now.w ≤ length stairs.old }
    requires entries_room { surface.now.w ≤ length entries.old }
    ensures in_bounds { result.entries ≤ length entries.old }
    ensures entries_after { take result.entries entries.new ≡ entries_in (occupied surface.now.table.now) surface.now.w surface.now.h y }
    ensures corners_value { result.corners ≡ turns (height_of (occupied surface.now.table.now) surface.now.w y) (surface.now.w + 1) }
{
    let surface = *surface;
    let w = surface.w;
    let mut n = 0;
    let mut m = 0;
    let mut falls = 0;
    let mut end = 0;
    let mut before = 0;
    let mut lo = 0;
    let mut x = 0;
    while x < w {
        if stays(&surface, x, y, before) {
            x += 1;
        } else if rises(&surface, x, y, before) {
            let height = height_at(&surface, x, y);
            n = push(stairs, n, n, height, x as u8);
            before = usize::from(height);
            x += 1;
        } else if before == 0 {
            x += run_at(&surface, x, y);
            lo = x;
        } else {
            let height = height_at(&surface, x, y);
            end = settle(&surface, y, lo, x, end);
            let k = cut(&stairs[..n], height);
            m = emit(&stairs[k..n], height, end, (x - 1) as u8, entries, m);
            n = push(stairs, k, n, height, x as u8);
            before = usize::from(height);
            lo = x + usize::from(height == 0);
            falls += 1;
            x += 1;
        }
    }
    end = settle(&surface, y, lo, w, end);
    m = emit(&stairs[..n], 0, end, (w - 1) as u8, entries, m);
    Counts {
        entries: m,
        corners: falls + usize::from(before > 0),
    }
}

// The entries with their bottom row at y, in the order of the list; and how many corners the row has if it is scanned. "A corner is an empty cell
// of a scanned row that stands in the last column or whose right neighbour has a smaller weight": exactly where the height falls, 0 standing past
// the last column.
pub fn row(surface: &Surface, y: usize, entries: &mut [Entry]) -> Counts
    requires y_lt_h { y < surface.now.h }
    requires w_in_bounds { surface.now.w ≤ length entries.old }
    ensures entries_after { take result.entries entries.new ≡ entries_in (occupied surface.now.table.now) surface.now.w surface.now.h y }
    ensures entries_value { (result.entries ≡ length (entries_in (occupied surface.now.table.now) surface.now.w surface.now.h y)) × (result.entries ≤ surface.now.w) }
    ensures corners_value { result.corners ≡ turns (height_of (occupied surface.now.table.now) surface.now.w y) (surface.now.w + 1) }
{
    walk(surface, y, &mut [Stair::NONE; 64], entries)
}
