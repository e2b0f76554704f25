// A row of a standing surface as its weights show it: heights, occupied runs, support.
ghost use Rattle.std.specs.Prelude.{◌≡◌, cond, true, not, ◌&&◌, suc, ◌≤◌, ◌<◌, ltb, eqb};
ghost use Rattle.rules.specs.Surface.{occupied};
ghost use Rattle.listing.specs.Row.{reach, Open};
ghost use Rattle.listing.specs.Listed.{height_of, support, Strides};

use cells::standing::Surface;

// The height over column x of row y: the count of an empty cell, 0 for an occupied one.
pub fn height_at(surface: &Surface, x: usize, y: usize) -> u8
    requires x_lt_w { x < surface.now.w }
    requires y_lt_h { y < surface.now.h }
    ensures { result ≡ height_of (occupied surface.now.table.now) surface.now.w y x }
{
    surface.weight(x, y).max(0) as u8
}

// Whether cell (x, y) is empty and has this height.
pub fn stays(surface: &Surface, x: usize, y: usize, height: usize) -> bool
    requires x_lt_w { x < surface.now.w }
    requires y_lt_h { y < surface.now.h }
    requires low { height ≤ 64 }
    ensures { result ≡ (not (occupied surface.now.table.now x y) && eqb (height_of (occupied surface.now.table.now) surface.now.w y x) height) }
{
    surface.weight(x, y) == height as i16
}

// Whether it has more than this height.
pub fn rises(surface: &Surface, x: usize, y: usize, height: usize) -> bool
    requires x_lt_w { x < surface.now.w }
    requires y_lt_h { y < surface.now.h }
    requires low { height ≤ 64 }
    ensures { result ≡ ltb height (height_of (occupied surface.now.table.now) surface.now.w y x) }
{
    surface.weight(x, y) > height as i16
}

// How many columns an occupied run goes on from x: by its weight, so that every cell jumped over is occupied.
pub fn run_at(surface: &Surface, x: usize, y: usize) -> usize
    requires x_lt_w { x < surface.now.w }
    requires y_lt_h { y < surface.now.h }
    requires taken { occupied surface.now.table.now x y ≡ true }
    ensures { Strides (occupied surface.now.table.now) surface.now.w y x result }
{
    cells::width_of(surface.weight(x, y))
}

// Whether row y is the last or the cell under (x, y) is occupied.
fn held_at(surface: &Surface, x: usize, y: usize) -> bool
    requires x_lt_w { x < surface.now.w }
    requires y_lt_h { y < surface.now.h }
    ensures { result ≡ cond (ltb (suc y) surface.now.h) (occupied surface.now.table.now x (suc y)) true }
{
    y + 1 == surface.h || surface.weight(x, y + 1) < 0
}

// One more than the last column with support among the first x, given what it is among the first lo: a look back over the cells between, which are
// empty. "looking for support only under the corner cell and not along the row" goes astray.
pub fn settle(surface: &Surface, y: usize, lo: usize, x: usize, before: u8) -> u8
    requires y_lt_h { y < surface.now.h }
    requires in_order { (lo ≤ x) × (x ≤ surface.now.w) }
    requires before_value { before ≡ reach (support (occupied surface.now.table.now) surface.now.w surface.now.h y) lo }
    requires empty { Open (height_of (occupied surface.now.table.now) surface.now.w y) lo x }
    ensures { result ≡ reach (support (occupied surface.now.table.now) surface.now.w surface.now.h y) x }
{
    for c in (lo..x).rev() {
        if held_at(surface, c, y) {
            return (c + 1) as u8;
        }
    }
    before
}
