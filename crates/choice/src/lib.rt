// The choice by rule (document 002): the list's rows are walked once, and the best entry so far is carried along. No list of entries is built.
#![tactic(auto)]

ghost use Rattle.std.specs.Prelude.{◌≡◌, true, false, ℕ, ◌+◌, ◌≤◌, ◌<◌, length};
ghost use Rattle.rules.specs.Surface.{occupied};
ghost use Rattle.rules.specs.Requests.{fits, cost as cost_of, rule_place};
ghost use Rattle.listing.specs.Listed.{entry_rect, rects_in, Drawn};
ghost use Rattle.choice.specs.Best.{better, best_of, choice_of, Chosen};
ghost use Rattle.choice.specs.Room.{none_fits};
ghost use Rattle.choice.specs.Rule.{rule_number};

use cells::standing::Surface;
use listing::entry::Entry;
use listing::row::row;
use listing::scanned::scanned_rows;
use rules::Rect;

// "rule 0 takes the first; rule 1 the least area of the entry less that of the module; rule 2 the least (H − y − h)·W + x of the entry": the lowest
// entry, of those the one furthest to the left.
#[derive(Clone, Copy, Debug, PartialEq, Eq)]
pub enum Rule {
    FirstFit = 0,
    BestFit = 1,
    BottomLeft = 2,
}

impl Rule {
    // The rule by its number in a request.
    pub fn from_number(number: usize) -> Rule
        requires { number ≤ 2 }
        ensures { rule_number result ≡ number }
    {
        match number {
            0 => Rule::FirstFit,
            1 => Rule::BestFit,
            _ => Rule::BottomLeft,
        }
    }
}

// A module that asks for a place by rule: w by h cells.
#[derive(Clone, Copy, Debug, PartialEq, Eq)]
pub struct Wanted {
    pub rule: Rule,
    pub w: usize,
    pub h: usize,
}

// An entry with room for the module: its cost, and where the module stands in it.
#[derive(Clone, Copy, Debug, PartialEq, Eq)]
struct Best {
    cost: usize,
    place: Rect,
}

// The entry has room for the module.
fn has_room(wanted: Wanted, entry: Rect) -> bool
    ensures { result ≡ fits wanted.w wanted.h entry }
{
    wanted.w <= entry.w && wanted.h <= entry.h
}

// What the entry costs by the rule.
#[tactic(auto, unfolding(rules::specs::Requests::cost))]
fn cost(surface: &Surface, wanted: Wanted, entry: Rect) -> usize
    requires on_surface { (entry.x + entry.w ≤ 64) × (entry.y + entry.h ≤ surface.now.h) }
    requires room { fits wanted.w wanted.h entry ≡ true }
    ensures { result ≡ cost_of surface.now.w surface.now.h wanted.w wanted.h (rule_number wanted.rule) entry }
{
    match wanted.rule {
        Rule::FirstFit => 0,
        Rule::BestFit => entry.w * entry.h - wanted.w * wanted.h,
        Rule::BottomLeft => (surface.h - entry.y - entry.h) * surface.w + entry.x,
    }
}

// One entry more. "The module stands in the entry's lower left corner." "Ties go to the earlier entry."
#[tactic(auto, unfolding(crate::specs::Best::better))]
fn better_of(surface: &Surface, wanted: Wanted, best: Option<Best>, entry: Rect) -> Option<Best>
    requires { (entry.x + entry.w ≤ 64) × (entry.y + entry.h ≤ surface.now.h) }
    ensures { result ≡ better surface.now.w surface.now.h wanted best entry }
{
    if !has_room(wanted, entry) {
        return best;
    }
    let here = Best {
        cost: cost(surface, wanted, entry),
        place: Rect {
            x: entry.x,
            y: entry.y + entry.h - wanted.h,
            w: wanted.w,
            h: wanted.h,
        },
    };
    match best {
        Some(earlier) if earlier.cost <= here.cost => best,
        _ => Some(here),
    }
}

// An entry of row y as a rectangle.
fn rect_of(y: usize, entry: Entry) -> Rect
    requires { Drawn y entry }
    ensures { result ≡ entry_rect y entry }
{
    let x = usize::from(entry.left);
    let h = usize::from(entry.height);
    Rect {
        x,
        y: y + 1 - h,
        w: usize::from(entry.right) + 1 - x,
        h,
    }
}

// Whether row y has as many cells side by side as the module is wide that hold its height or more. An entry with room for the module has: where
// there are none the row's staircase is not walked. It looks at cell after cell: a jump by a weight would have to wait for that weight.
fn row_has_room(surface: &Surface, wanted: Wanted, y: usize) -> bool
    requires { y < surface.now.h }
    ensures { result ≡ false → none_fits wanted.w wanted.h (rects_in (occupied surface.now.table.now) surface.now.w surface.now.h y) ≡ true }
{
    if y + 1 < wanted.h {
        return false;
    }
    let least = cells::counted(wanted.h);
    let at = y * surface.w;
    let mut run = 0;
    for &weight in &surface.weights[at..at + surface.w] {
        if weight < least {
            run = 0;
        } else {
            run += 1;
            if wanted.w <= run {
                return true;
            }
        }
    }
    false
}

// The entries of row y in turn, `best` being the best of the rows above. A row without room has none with room.
fn best_row(
    surface: &Surface,
    wanted: Wanted,
    y: usize,
    entries: &mut [Entry],
    mut best: Option<Best>,
) -> Option<Best>
    requires y_lt_h { y < surface.now.h }
    requires w_in_bounds { surface.now.w ≤ length entries.old }
    ensures { result ≡ best_of surface.now.w surface.now.h wanted best (rects_in (occupied surface.now.table.now) surface.now.w surface.now.h y) }
{
    if !row_has_room(surface, wanted, y) {
        return best;
    }
    let n = row(surface, y, entries).entries;
    for &entry in &entries[..n] {
        best = better_of(surface, wanted, best, rect_of(y, entry));
    }
    best
}

// The place for a module that its rule chooses: the scanned rows in turn. A row that is not scanned has no entry. An entry that costs nothing is the
// choice: "Ties go to the earlier entry."
pub fn choose(surface: &Surface, wanted: Wanted) -> Option<Rect>
    ensures place { result ≡ choice_of (rule_place (occupied surface.now.table.now) surface.now.w surface.now.h (rule_number wanted.rule) wanted.w wanted.h) }
    ensures chosen { Chosen (rule_place (occupied surface.now.table.now) surface.now.w surface.now.h (rule_number wanted.rule) wanted.w wanted.h) result }
{
    let mut scans = [false; 64];
    scanned_rows(surface.h, surface.table, &mut scans);
    let mut entries = [Entry::NONE; 64];
    let mut best = None;
    for y in 0..surface.h {
        if scans[y] {
            best = best_row(surface, wanted, y, &mut entries, best);
            if best.is_some_and(|b| b.cost == 0) {
                break;
            }
        }
    }
    best.map(|b| b.place)
}
