// Codes 11 to 17 and 23. First those of the request's bytes alone, 11 to 14; then, by the slot of its id, 15, 16, 23 and 17. That slot is looked for
// once, between the two.
ghost use Rattle.std.specs.Prelude.{◌≡◌, ◌*◌, ◌<◌, length, IfOk, IfSome};
ghost use Rattle.rules.specs.Surface.{slots};
ghost use Rattle.rules.specs.Judging.{first};
ghost use Rattle.rules.specs.Refusals.{result_code};
ghost use Rattle.table.specs.Slot.{slot_or};
ghost use Rattle.requests.specs.Operation.{Asks};
ghost use Rattle.requests.specs.Steps.{stray, form_lines, id_lines};

use super::fields::{any_not_zero, byte, id_asked};
use super::operation::Operation;
use rules::Refusal;

// 12: a byte that must be zero is not: "remove: rule, w and h are zero"; "pin: .. rule is zero", and a set takes its fields; "Elsewhere bytes 6 and 7 are zero."
fn is_stray(q: &[u8], operation: Operation) -> bool
    requires q_len { length q.now ≡ 8 }
    requires asks { Asks q.now operation }
    ensures { result ≡ stray q.now }
{
    match operation {
        Operation::Remove => any_not_zero(q, 1, 4, 5, 6, 7),
        Operation::Pin | Operation::Set => byte(q, 1) != 0,
        Operation::Place | Operation::Exchange => byte(q, 6) + byte(q, 7) != 0,
    }
}

// The first of the codes 11 to 14 that applies, or what the request asks for.
pub fn check_form(q: &[u8]) -> Result<Operation, Refusal>
    requires { length q.now ≡ 8 }
    ensures code { result_code result ≡ first (form_lines q.now) }
    ensures asks { IfOk result (Asks q.now) }
{
    let operation = Operation::try_from(q[0])?;
    if is_stray(q, operation) {
        return Err(Refusal::StrayByte);
    }
    if operation.is_by_rule() && 2 < q[1] {
        return Err(Refusal::UnknownRule);
    }
    if id_asked(q) == 0 {
        return Err(Refusal::NoId);
    }
    Ok(operation)
}

// The first of the codes 15, 16, 23 and 17 that applies; `slot` is that of the request's id. An operation that there is not has none of them.
pub(crate) fn check_slot(t: &[u8], q: &[u8], slot: Option<usize>) -> Result<(), Refusal>
    requires lengths { (length t.now ≡ 8 * slots t.now) × (length q.now ≡ 8) }
    requires inside { IfSome slot (λ i. i < slots t.now) }
    ensures { result_code result ≡ first (id_lines t.now q.now (slot_or (slots t.now) slot)) }
{
    let Ok(operation) = Operation::try_from(q[0]) else {
        return Ok(());
    };
    if operation.makes_new() && slot.is_some() {
        return Err(Refusal::IdPlaced);
    }
    if operation.needs_old() {
        let Some(old) = slot else {
            return Err(Refusal::IdNotPlaced);
        };
        if table::is_block(t, old) {
            return Err(Refusal::OfABlock);
        }
    }
    if operation.has_size() && (q[4] == 0 || q[5] == 0) {
        return Err(Refusal::NoSize);
    }
    Ok(())
}

// The same for any number: one that is no slot of the table counts as none. (Judging has the slot from the table: asked again here, it would cost an instruction a slot.)
pub fn check_id(t: &[u8], q: &[u8], slot: Option<usize>) -> Result<(), Refusal>
    requires { (length t.now ≡ 8 * slots t.now) × (length q.now ≡ 8) }
    ensures { result_code result ≡ first (id_lines t.now q.now (slot_or (slots t.now) slot)) }
{
    match slot {
        Some(i) if t.len() / 8 <= i => check_slot(t, q, None),
        _ => check_slot(t, q, slot),
    }
}
