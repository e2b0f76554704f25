// The stairs of document 000 over the columns walked so far: held, put in, and leaving as entries.
ghost use Rattle.std.specs.Prelude.{◌≡◌, ◌++◌, ◌+◌, ◌≤◌, ◌<◌, length, take, ltb};
ghost use Rattle.listing.specs.Row.{pushed, leaving, Rises, CutAt};

use super::entry::Entry;

// A stair: where it starts, and its height.
#[derive(Clone, Copy, Debug, PartialEq, Eq)]
pub struct Stair {
    pub left: u8,
    pub height: u8,
}

impl Stair {
    // What stands in a place of an array that holds no stair yet.
    pub const NONE: Stair = Stair { left: 0, height: 0 };
}

// How many of the stairs are lower than the height: they rise, so the count goes down from the top.
pub fn cut(stairs: &[Stair], height: u8) -> usize
    requires rises { Rises stairs.now }
    ensures { CutAt stairs.now height result }
{
    stairs
        .iter()
        .rposition(|stair| stair.height < height)
        .map_or(0, |k| k + 1)
}

// A stair goes in at k, of the first n stairs those before k being lower: it starts where the first that is not lower does, or at x. Where the
// height is 0 none does.
pub fn push(stairs: &mut [Stair], k: usize, n: usize, height: u8, x: u8) -> usize
    requires n_in_bounds { n ≤ length stairs.old }
    requires k_in_bounds { 0 < height → k < length stairs.old }
    requires cut_at { CutAt (take n stairs.old) height k }
    ensures in_bounds { result ≤ length stairs.old }
    ensures stairs_after { take result stairs.new ≡ pushed (ltb 0 height) height x (take n stairs.old) }
{
    if height == 0 {
        return k;
    }
    let left = if k < n { stairs[k].left } else { x };
    stairs[k] = Stair { left, height };
    k + 1
}

// Those of the stairs that are higher than `height` and start before `end` are entries with the right column `right`: they go in from place n on.
pub fn emit(
    stairs: &[Stair],
    height: u8,
    end: u8,
    right: u8,
    entries: &mut [Entry],
    n: usize,
) -> usize
    requires { n + length stairs.now ≤ length entries.old }
    ensures in_bounds { result ≤ length entries.old }
    ensures entries_after { take result entries.new ≡ take n entries.old ++ leaving height end right stairs.now }
{
    let mut m = n;
    for stair in stairs {
        if stair.left < end && height < stair.height {
            entries[m] = Entry {
                left: stair.left,
                right,
                height: stair.height,
            };
            m += 1;
        }
    }
    m
}
