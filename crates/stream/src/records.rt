// A record that is served by itself: a clear, or any before there is a surface.
ghost use Rattle.std.specs.Prelude.{◌≡◌, true, ◌*◌, ◌≤◌, length, IfOk};
ghost use Rattle.rules.specs.Requests.{operation, wide, high};
ghost use Rattle.rules.specs.Refusals.{result_code};
ghost use Rattle.rules.specs.Calls.{cleared_weights, cleared_table};
ghost use Rattle.stream.specs.Size.{columns_of};
ghost use Rattle.stream.specs.Records.{onto, is_clear, clear_record_code};
ghost use Rattle.stream.specs.Promise.{apart};
ghost use Rattle.stream.specs.Memory.{kept_in, ServedIn};

use super::memory::Memory;
use super::size::Size;
use requests::fields::{any_not_zero, byte};
use requests::serve::{answer, refuse};
use rules::{Rect, Refusal};
use surface::clear::{clear_weights, free_slots};
use surface::sizes::check_sizes;

// "operation 5, clear"
pub const CLEAR: u8 = 5;

pub(crate) fn is_clear(q: &[u8]) -> bool
    requires { 1 ≤ length q.now }
    ensures { result ≡ is_clear q.now }
{
    q[0] == CLEAR
}

// What a clear asks for: W and H are bytes 4 and 5. 12: "the rest zero". 1: W or H not in 1..64. Both lengths are right, so that no other code of the
// library applies.
fn size_asked(q: &[u8]) -> Result<Size, Refusal>
    requires { length q.now ≡ 8 }
    ensures code { result_code result ≡ clear_record_code q.now }
    ensures size { IfOk result (λ size. (size.columns ≡ wide q.now) × (size.rows ≡ high q.now)) }
{
    if any_not_zero(q, 1, 2, 3, 6, 7) {
        return Err(Refusal::StrayByte);
    }
    let columns = byte(q, 4);
    let rows = byte(q, 5);
    check_sizes(columns, rows, columns * rows, 1, 2048)?;
    Ok(Size { columns, rows })
}

// A surface of this size, at the start of the room; the rest of the room stays.
fn clear_to(size: Size, room: &mut [i16], table: &mut [u8])
    requires { length room.old ≡ 4096 }
    ensures room_after { room.new ≡ onto (size.columns * size.rows) (cleared_weights size.columns size.rows) room.old }
    ensures table_after { table.new ≡ cleared_table table.old }
{
    clear_weights(size.columns, size.rows, &mut room[..size.cells()]);
    free_slots(table);
}

// A clear is served by itself, and so is any record before there is a surface, when W is 0.
pub fn apart(w: usize, q: &[u8]) -> bool
    requires { 1 ≤ length q.now }
    ensures { result ≡ apart w q.now }
{
    w == 0 || is_clear(q)
}

impl Memory {
    // Operation 5. Refused, it leads straight to its answer; "accepted, the answer has x = y = 0 and w, h as W, H".
    fn serve_clear(&mut self, q: &[u8], a: &mut [u8])
        requires { (length q.now ≡ 8) × (length a.old ≡ 8) × (operation q.now ≡ 5) }
        ensures { ServedIn q.now (kept_in self.old) self.new a.new }
    {
        match size_asked(q) {
            Ok(size) => {
                clear_to(size, &mut self.weights, &mut self.table);
                self.size = Some(size);
                let rect = Rect {
                    x: 0,
                    y: 0,
                    w: size.columns,
                    h: size.rows,
                };
                answer(q, a, 0, rect);
            }
            Err(refusal) => refuse(q, a, refusal.code()),
        }
    }

    // What `apart` says, of what is kept.
    pub fn is_apart(&self, q: &[u8]) -> bool
        requires { 1 ≤ length q.now }
        ensures { result ≡ apart (columns_of self.now.size) q.now }
    {
        self.size.is_none() || is_clear(q)
    }

    // Such a record, answered in the eight bytes lent for it.
    pub fn serve_apart(&mut self, q: &[u8], a: &mut [u8])
        requires { (length q.now ≡ 8) × (length a.old ≡ 8) × (apart (columns_of self.old.size) q.now ≡ true) }
        ensures { ServedIn q.now (kept_in self.old) self.new a.new }
    {
        if is_clear(q) {
            self.serve_clear(q, a);
        } else {
            refuse(q, a, Refusal::NoSurface.code());
        }
    }
}
