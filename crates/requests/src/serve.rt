// One request: judged, the change made, and answered in the eight bytes lent for it.
ghost use Rattle.std.specs.Prelude.{◌≡◌, [], ◌∷◌, cond, length, IfOk};
ghost use Rattle.rules.specs.Surface.{Standing, with_record};
ghost use Rattle.rules.specs.Requests.{operation, id_low, id_high, code_of, step_of, answer_of, record_after};
ghost use Rattle.rules.specs.Refusals.{Refused};
ghost use Rattle.table.specs.Record.{Bytes};
ghost use Rattle.meaning.specs.Change.{Change};
ghost use Rattle.requests.specs.Operation.{Asks};
ghost use Rattle.requests.specs.Accepted.{as_step};

use super::accepted::Accepted;
use super::judge::judge;
use cells::standing::Surface;
use rules::{Rect, Refusal};
use table::Record;

fn code_of(step: Result<Accepted, Refusal>) -> u8
    ensures { result ≡ code_of (as_step step) }
{
    match step {
        Ok(_) => 0,
        Err(refusal) => refusal.code(),
    }
}

// "code, operation and id as they came, then x, y, w, h"
pub fn answer(q: &[u8], a: &mut [u8], code: u8, r: Rect)
    requires q_len { (length q.now ≡ 8) × (length a.old ≡ 8) }
    requires bytes { Bytes r }
    ensures { a.new ≡ code ∷ operation q.now ∷ id_low q.now ∷ id_high q.now ∷ r.x ∷ r.y ∷ r.w ∷ r.h ∷ [] }
{
    let Rect { x, y, w, h } = r;
    let bytes = [code, q[0], q[2], q[3], x as u8, y as u8, w as u8, h as u8];
    table::put_eight(a, bytes);
}

// The answer of what is refused: "A refusal has four zeros there."
pub fn refuse(q: &[u8], a: &mut [u8], code: u8)
    requires { (length q.now ≡ 8) × (length a.old ≡ 8) }
    ensures { a.new ≡ answer_of q.now (Refused code) }
{
    let none = Rect {
        x: 0,
        y: 0,
        w: 0,
        h: 0,
    };
    answer(q, a, code, none);
}

// A surface that stands, lent for changing; `cells::standing::Surface` is the one lent for reading. It stands whenever no module is just being put in or taken out: each of
// those calls writes weights and table.
#[derive(Drop)]
pub struct SurfaceMut<'a> {
    pub w: usize,
    pub h: usize,
    pub weights: &'a mut [i16],
    pub table: &'a mut [u8],
    ghost standing: { Standing w h weights.now table.now },
}

impl SurfaceMut<'_> {
    ghost use Rattle.requests.specs.SurfaceMut.{Kept, Serves};

    // What the request comes to, on the surface lent for reading.
    fn judge(&self, q: &[u8]) -> Result<Accepted, Refusal>
        requires { length q.now ≡ 8 }
        ensures step { as_step result ≡ step_of self.now.w self.now.h self.now.table.now q.now }
        ensures asks { IfOk result (λ a. Asks q.now a.operation) }
    {
        let surface = Surface {
            w: self.w,
            h: self.h,
            weights: self.weights,
            table: self.table,
        };
        judge(&surface, q)
    }

    // Operations 2 and 4 take the module of the slot out. All but 2 put the module, or the block, in, under the request's id: an exchange into the slot that is free now, so the record
    // stays in its slot. Both halves of an exchange are of one request: "the old one goes when the new one stands", and no host sees what is between.
    fn change(&mut self, q: &[u8], accepted: Accepted)
        requires q_len { length q.now ≡ 8 }
        requires asks { Asks q.now accepted.operation }
        requires change { Change self.old.w self.old.h self.old.weights.now self.old.table.now q.now accepted.slot accepted.rect }
        ensures kept { Kept self.old self.new }
        ensures changed { self.new.table.now ≡ with_record self.old.table.now accepted.slot (record_after q.now accepted.rect) }
    {
        let operation = accepted.operation;
        let slot = accepted.slot;
        if operation.needs_old() {
            modules::take_out(self.w, self.h, self.weights, self.table, slot);
        }
        if !operation.is_remove() {
            let record = Record {
                id_low: q[2],
                id_high: q[3],
                rect: accepted.rect,
                kind: operation.kind(),
            };
            modules::put_in(self.w, self.h, self.weights, self.table, slot, record);
        }
    }

    // "A refused request changes neither weights nor table": refusal leads straight to its answer. The result is whether it is accepted.
    pub fn serve(&mut self, q: &[u8], a: &mut [u8]) -> bool
        requires { (length q.now ≡ 8) × (length a.old ≡ 8) }
        ensures kept { Kept self.old self.new }
        ensures served { Serves self.old self.new q.now a.new (cond result 1 0) }
    {
        let step = self.judge(q);
        let Ok(accepted) = step else {
            refuse(q, a, code_of(step));
            return false;
        };
        self.change(q, accepted);
        answer(q, a, 0, accepted.rect);
        true
    }
}
