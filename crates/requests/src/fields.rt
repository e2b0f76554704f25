// "A request is 8 bytes: operation, rule, id low, id high, w, h, then bytes 6 and 7."
ghost use Rattle.std.specs.Prelude.{◌≡◌, not, [], ◌∷◌, ◌+◌, ◌*◌, ◌<◌, eqb, length, get_or};
ghost use Rattle.rules.specs.Tests.{all};
ghost use Rattle.rules.specs.Requests.{id_asked, pinned as pinned_at};
ghost use Rattle.table.specs.Record.{Bytes};

use rules::Rect;

// Byte k of a request.
pub fn byte(q: &[u8], k: usize) -> usize
    requires { k < length q.now }
    ensures { (result ≡ get_or q.now k 0) × (result < 256) }
{
    usize::from(q[k])
}

// 12: a byte that must be zero is not, one of these five. Bytes are all zero exactly when their sum is.
pub fn any_not_zero(q: &[u8], a: usize, b: usize, c: usize, d: usize, e: usize) -> bool
    requires { (length q.now ≡ 8) × (a < 8) × (b < 8) × (c < 8) × (d < 8) × (e < 8) }
    ensures { result ≡ not (all (eqb 0) (get_or q.now a 0 ∷ get_or q.now b 0 ∷ get_or q.now c 0 ∷ get_or q.now d 0 ∷ get_or q.now e 0 ∷ [])) }
{
    byte(q, a) + byte(q, b) + byte(q, c) + byte(q, d) + byte(q, e) != 0
}

pub fn id_asked(q: &[u8]) -> usize
    requires { length q.now ≡ 8 }
    ensures { (result ≡ id_asked q.now) × (result < 65536) }
{
    usize::from(u16::from_le_bytes([q[2], q[3]]))
}

// "3 pin: byte 6 is x, byte 7 is y"; 6 "takes the fields of a pin".
pub fn pinned(q: &[u8]) -> Rect
    requires { length q.now ≡ 8 }
    ensures { (result ≡ pinned_at q.now) × Bytes result }
{
    Rect {
        x: byte(q, 6),
        y: byte(q, 7),
        w: byte(q, 4),
        h: byte(q, 5),
    }
}
