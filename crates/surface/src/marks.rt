// "no two modules share a cell": each module's own cells are marked on a scratch, as far as none of them is marked already. That costs at most one
// look and one store for each cell of the surface.
ghost use Rattle.std.specs.Prelude.{◌≡◌, true, ℕ, ◌+◌, ◌*◌, ◌≤◌, length};
ghost use Rattle.rules.specs.Surface.{rect, slots, number};
ghost use Rattle.cells.specs.Weight.{untaken};
ghost use Rattle.surface.specs.Slots.{Gathered};
ghost use Rattle.surface.specs.Marks.{Marked, TakenTo, Takeable, SlotTaken, AllTaken};

use super::slots::{known, sound};
use rules::{Rect, Refusal};

// The cells of the rectangle, each looked at before it is marked with the number of a module there, in whichever slot. Both walks end at the first
// that is taken already.
fn mark(m: &mut [i16], w: usize, r: Rect) -> bool
    requires { (r.x + r.w ≤ w) × ((r.y + r.h) * w ≤ length m.old) × (1 ≤ w) × (w ≤ 64) }
    ensures value { result ≡ untaken w m.old r.x r.y r.w r.h }
    ensures marked { result ≡ true → (i : ℕ) → Marked w m.old m.new r.x r.y r.w r.h (number i r) }
{
    // A label and a flag, not `return` or `all`: the rules name the form, "leave both loops by a label at the first occupied cell".
    let mut free = true;
    'rows: for j in 0..r.h {
        for i in 0..r.w {
            let at = (r.y + j) * w + (r.x + i);
            if cells::is_taken(m[at]) {
                free = false;
                break 'rows;
            }
            m[at] = cells::occupied_by(r.w - i);
        }
    }
    free
}

// The used slot i, with n ids noted before it, none of them over top: it has to be sound, its id new and its cells not taken. The result is what no id
// is over now.
fn take_slot(
    t: &[u8],
    i: usize,
    w: usize,
    h: usize,
    ids: &mut [u16],
    n: usize,
    top: usize,
    m: &mut [i16],
) -> Result<usize, Refusal>
    requires { Takeable w h t.now i ids.old n top m.old }
    ensures { SlotTaken w h t.now i ids.new n m.new result }
{
    let id = table::id_at(t, i);
    let r = table::rect_at(t, i);
    if !sound(t, i, id, r, w, h) || known(&ids[..n], id as u16, top) || !mark(m, w, r) {
        return Err(Refusal::DoesNotStand);
    }
    ids[n] = id as u16;
    Ok(top.max(id))
}

// The used slots in turn: refused where the table's part of "a surface stands" fails. Otherwise all modules are marked.
pub fn take_all(
    t: &[u8],
    w: usize,
    h: usize,
    used: &[u8],
    ids: &mut [u16],
    m: &mut [i16],
) -> Result<(), Refusal>
    requires { (1 ≤ w) × (w ≤ 64) × Gathered t.now used.now (slots t.now) (length used.now) × (length used.now ≤ length ids.old) × TakenTo w h t.now 0 ids.old 0 m.old }
    ensures { AllTaken w h t.now m.new result }
{
    let mut top = 0;
    for (k, slot) in used.iter().enumerate() {
        top = take_slot(t, usize::from(*slot), w, h, ids, k, top, m)?;
    }
    Ok(())
}
