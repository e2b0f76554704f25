// One weight: signed 16-bit, negative for an occupied cell, a positive count for an empty one.
#![tactic(auto)]

ghost use Rattle.std.specs.Prelude.{◌≡◌, ◌+◌, ◌*◌, ◌≤◌, length, pos, neg_ℤ};
ghost use Rattle.rules.specs.Empties.{bottom_reaches};
ghost use Rattle.cells.specs.Weight.{taken_z, count_of, width_of, untaken};

use rules::Rect;

pub mod standing;

pub fn is_taken(v: i16) -> bool
    ensures { result ≡ taken_z v }
{
    v < 0
}

// The count as a weight: 0 of an occupied cell.
pub fn height_of(v: i16) -> i16
    ensures { result ≡ pos (count_of v) }
{
    v.max(0)
}

pub fn count_of(v: i16) -> usize
    ensures { result ≡ count_of v }
{
    v.max(0) as usize
}

pub fn width_of(v: i16) -> usize
    ensures { result ≡ width_of v }
{
    if v < 0 {
        usize::from(v.unsigned_abs())
    } else {
        0
    }
}

// The weight of an empty cell with n cells counted.
pub fn counted(n: usize) -> i16
    requires { n ≤ 32767 }
    ensures { result ≡ pos n }
{
    n as i16
}

// The weight of an occupied cell with the number n.
pub fn occupied_by(n: usize) -> i16
    requires { n ≤ 32767 }
    ensures { result ≡ neg_ℤ (pos n) }
{
    -(n as i16)
}

// Whether no cell of the rectangle is occupied. Both walks end at the first occupied cell.
pub fn none_taken(s: &[i16], w: usize, r: Rect) -> bool
    requires { (r.x + r.w ≤ w) × ((r.y + r.h) * w ≤ length s.now) }
    ensures { result ≡ untaken w s.now r.x r.y r.w r.h }
{
    let mut free = true;
    'rows: for j in 0..r.h {
        for i in 0..r.w {
            if is_taken(s[(r.y + j) * w + (r.x + i)]) {
                free = false;
                break 'rows;
            }
        }
    }
    free
}

// Order 4: "a rectangle is empty when every cell of its bottom row has a weight of at least its height". The walk of that row ends at the first weight below the height.
pub fn bottom_reaches(s: &[i16], w: usize, r: Rect) -> bool
    requires inside { (r.x + r.w ≤ w) × ((r.y + r.h) * w ≤ length s.now) }
    requires sized { (1 ≤ r.w) × (1 ≤ r.h) × (r.h ≤ 32767) }
    ensures { result ≡ bottom_reaches w s.now r }
{
    let least = counted(r.h);
    let at = (r.y + r.h - 1) * w + r.x;
    s[at..at + r.w].iter().all(|&v| v >= least)
}
