// What a request comes to. Everything is lent for reading: codes 18 to 22 are judged on the surface as it stands, for an exchange "with the old module in its place" (order 3).
ghost use Rattle.std.specs.Prelude.{◌≡◌, true, ◌+◌, ◌≤◌, ◌<◌, length, IfOk};
ghost use Rattle.rules.specs.Surface.{occupied};
ghost use Rattle.rules.specs.Requests.{operation, rule_of, id_asked, wide, high, at_place, slot_of, rule_place, step_of};
ghost use Rattle.table.specs.Record.{Bytes};
ghost use Rattle.requests.specs.Operation.{Asks};
ghost use Rattle.requests.specs.Steps.{past, rule_step, Passes};
ghost use Rattle.requests.specs.Accepted.{as_step, By};
ghost use Rattle.requests.specs.declared.operation.Operation.TheVariants.{Place};

use super::accepted::Accepted;
use super::fields::{byte, id_asked, pinned};
use super::operation::Operation;
use super::sound::{check_form, check_slot};
use cells::standing::Surface;
use choice::{Rule, Wanted, choose};
use rules::{Rect, Refusal};

// A module by rule that would go into this slot. 20: the rule finds no place, so no position has all its cells empty. 22: the place that it chose has
// an occupied cell.
fn by_rule(
    surface: &Surface,
    q: &[u8],
    operation: Operation,
    slot: usize,
) -> Result<Accepted, Refusal>
    requires { (length q.now ≡ 8) × (rule_of q.now ≤ 2) × (1 ≤ wide q.now) × (1 ≤ high q.now) }
    ensures step { as_step result ≡ rule_step (occupied surface.now.table.now) slot (rule_place (occupied surface.now.table.now) surface.now.w surface.now.h (rule_of q.now) (wide q.now) (high q.now)) }
    ensures by { By operation result }
{
    let wanted = Wanted {
        rule: Rule::from_number(byte(q, 1)),
        w: byte(q, 4),
        h: byte(q, 5),
    };
    let rect = choose(surface, wanted).ok_or(Refusal::NoPosition)?;
    if !cells::none_taken(surface.weights, surface.w, rect) {
        return Err(Refusal::ChosenOccupied);
    }
    Ok(Accepted {
        operation,
        slot,
        rect,
    })
}

// Operation 1. 19: no free slot.
fn judge_place(surface: &Surface, q: &[u8]) -> Result<Accepted, Refusal>
    requires { (length q.now ≡ 8) × Passes surface.now.table.now q.now × (operation q.now ≡ 1) }
    ensures step { as_step result ≡ step_of surface.now.w surface.now.h surface.now.table.now q.now }
    ensures by { By Place result }
{
    let slot = table::lowest_free(surface.table).ok_or(Refusal::NoFreeSlot)?;
    by_rule(surface, q, Operation::Place, slot)
}

// "x + w > W or y + h > H"
fn is_past(surface: &Surface, rect: Rect) -> bool
    requires { Bytes rect }
    ensures { result ≡ past surface.now.w surface.now.h rect }
{
    surface.w < rect.x + rect.w || surface.h < rect.y + rect.h
}

// Operations 3 and 6: "takes the fields of a pin .., with a pin's refusals in the same order". 18: past the edge. 19: no free slot. 21: a cell of the place is occupied, shown by
// the weights of its bottom row (order 4).
fn judge_pin(surface: &Surface, q: &[u8], operation: Operation) -> Result<Accepted, Refusal>
    requires { (length q.now ≡ 8) × Passes surface.now.table.now q.now × (at_place q.now ≡ true) }
    ensures step { as_step result ≡ step_of surface.now.w surface.now.h surface.now.table.now q.now }
    ensures by { By operation result }
{
    let rect = pinned(q);
    if is_past(surface, rect) {
        return Err(Refusal::PastTheEdge);
    }
    let slot = table::lowest_free(surface.table).ok_or(Refusal::NoFreeSlot)?;
    if !cells::bottom_reaches(surface.weights, surface.w, rect) {
        return Err(Refusal::PlaceOccupied);
    }
    Ok(Accepted {
        operation,
        slot,
        rect,
    })
}

// What the request comes to; the slot of its id is looked for once.
pub fn judge(surface: &Surface, q: &[u8]) -> Result<Accepted, Refusal>
    requires { length q.now ≡ 8 }
    ensures step { as_step result ≡ step_of surface.now.w surface.now.h surface.now.table.now q.now }
    ensures asks { IfOk result (λ a. Asks q.now a.operation) }
{
    let operation = check_form(q)?;
    let slot = table::slot_of(surface.table, id_asked(q));
    check_slot(surface.table, q, slot)?;
    match operation {
        Operation::Place => judge_place(surface, q),
        // nothing else can refuse it
        Operation::Remove => {
            let old = slot.unwrap();
            Ok(Accepted {
                operation,
                slot: old,
                rect: table::rect_at(surface.table, old),
            })
        }
        // with the old module there; the slot is its own, so no free one is asked for
        Operation::Exchange => by_rule(surface, q, operation, slot.unwrap()),
        Operation::Pin | Operation::Set => judge_pin(surface, q, operation),
    }
}
