// "every slot is free or has an id, w and h of at least 1, x + w ≤ W, y + h ≤ H and zero spare bytes" (order 2: "with kinds 0 and 1 and every other spare byte zero"); "no two used slots have the same id"
ghost use Rattle.std.specs.Prelude.{◌≡◌, ◌+◌, ◌*◌, ◌/◌, ◌≤◌, ◌<◌, eqb, length, get_or};
ghost use Rattle.rules.specs.Tests.{any};
ghost use Rattle.rules.specs.Surface.{slots, id_of, rect_of, sound_slot};
ghost use Rattle.surface.specs.Slots.{Gathered, Under};

use rules::Rect;

// The numbers of the used slots go side by side into a lent buffer; the result is how many. It is a loop of its own so that a free slot, the
// common one, costs one comparison. (A count beside the buffer: memory is fixed, an array of 256, of which the caller lends on the part that is
// filled.)
pub fn gather(t: &[u8], used: &mut [u8]) -> usize
    requires { (slots t.now ≤ length used.old) × (slots t.now ≤ 256) }
    ensures { Gathered t.now used.new (slots t.now) result }
{
    let mut n = 0;
    for i in 0..t.len() / 8 {
        if !table::slot_free(t, i) {
            used[n] = i as u8;
            n += 1;
        }
    }
    n
}

// Whether slot i, whose id and rectangle were read, is sound.
#[tactic(auto, using(crate::proofs::SlotLaws::kind_and_spare), unfolding(rules::specs::Surface::sound_slot))]
pub fn sound(t: &[u8], i: usize, id: usize, r: Rect, w: usize, h: usize) -> bool
    requires { (8 * i + 8 ≤ length t.now) × (id ≡ id_of t.now i) × (r ≡ rect_of t.now i) }
    ensures { result ≡ sound_slot w h t.now i }
{
    id >= 1
        && r.w >= 1
        && r.h >= 1
        && r.x + r.w <= w
        && r.y + r.h <= h
        && table::kind_and_spare_at(t, i) <= 1
}

// Whether the id is one of these. It looks at all of them, so that the compiler takes many at a time.
#[tactic(auto, unfolding(rules::specs::Tests::any))]
fn seen(ids: &[u16], id: u16) -> bool
    ensures { result ≡ any (length ids.now) (λ k. eqb (get_or ids.now k 0) id) }
{
    let mut found = false;
    for other in ids {
        if *other == id {
            found = true;
        }
    }
    found
}

// The same, given a number that none of them is over: an id over it is new. Ids that were given out in turn are mostly so.
pub fn known(ids: &[u16], id: u16, top: usize) -> bool
    requires { Under ids.now (length ids.now) top }
    ensures { result ≡ any (length ids.now) (λ k. eqb (get_or ids.now k 0) id) }
{
    usize::from(id) <= top && seen(ids, id)
}
