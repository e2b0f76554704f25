// The table's records, read, looked for and written: a slot is eight bytes, the id low byte first, then x, y, w, h, the kind and a spare byte.
#![tactic(auto)]

ghost use Rattle.std.specs.Prelude.{◌≡◌, ◌+◌, ◌*◌, ◌≤◌, ◌<◌, length};
ghost use Rattle.rules.specs.Surface.{byte, slots, id_of, rect_of, kind_of, is_hard, free_slot, record_of, free_record, with_record};
ghost use Rattle.rules.specs.Requests.{slot_of, lowest_free};
ghost use Rattle.table.specs.Record.{Bytes, kind_byte};
ghost use Rattle.table.specs.Slot.{found_below};

use rules::Rect;

// "Byte 6 of a table record becomes its kind: 0 a module, 1 a block."
#[derive(Clone, Copy, Debug, PartialEq, Eq)]
pub enum Kind {
    Module = 0,
    Block = 1,
}

impl Kind {
    pub fn byte(self) -> u8
        ensures { result ≡ kind_byte self }
    {
        self as u8
    }
}

// What a used slot's record says: its id, as two bytes, its rectangle and its kind.
#[derive(Clone, Copy, Debug, PartialEq, Eq)]
pub struct Record {
    pub id_low: u8,
    pub id_high: u8,
    pub rect: Rect,
    pub kind: Kind,
}

// Byte k of slot i.
fn byte_at(t: &[u8], i: usize, k: usize) -> usize
    requires { 8 * i + k < length t.now }
    ensures { (result ≡ byte t.now i k) × (result < 256) }
{
    usize::from(t[8 * i + k])
}

// Bytes k and k + 1 of slot i as one number, low byte first.
fn two_at(t: &[u8], i: usize, k: usize) -> usize
    requires { 8 * i + k + 1 < length t.now }
    ensures { (result ≡ byte t.now i k + 256 * byte t.now i (k + 1)) × (result < 65536) }
{
    let at = 8 * i + k;
    usize::from(u16::from_le_bytes([t[at], t[at + 1]]))
}

pub fn id_at(t: &[u8], i: usize) -> usize
    requires { 8 * i + 8 ≤ length t.now }
    ensures { (result ≡ id_of t.now i) × (result < 65536) }
{
    two_at(t, i, 0)
}

pub fn rect_at(t: &[u8], i: usize) -> Rect
    requires { 8 * i + 8 ≤ length t.now }
    ensures { result ≡ rect_of t.now i }
{
    Rect {
        x: byte_at(t, i, 2),
        y: byte_at(t, i, 3),
        w: byte_at(t, i, 4),
        h: byte_at(t, i, 5),
    }
}

// Slot i has a block, not a module.
pub fn is_block(t: &[u8], i: usize) -> bool
    requires { 8 * i + 8 ≤ length t.now }
    ensures { result ≡ is_hard t.now i }
{
    t[8 * i + 6] == Kind::Block.byte()
}

// The kind and the spare byte behind it as one number: at most 1 exactly when the kind is and the other is 0, one test for two bytes.
pub fn kind_and_spare_at(t: &[u8], i: usize) -> usize
    requires { 8 * i + 8 ≤ length t.now }
    ensures { (result ≡ kind_of t.now i + 256 * byte t.now i 7) × (result < 65536) }
{
    two_at(t, i, 6)
}

// "A free slot is eight zero bytes": as one number they are 0, so that the machine reads them at once, and not one after the other, as `all` would.
pub fn slot_free(t: &[u8], i: usize) -> bool
    requires { 8 * i + 8 ≤ length t.now }
    ensures { result ≡ free_slot t.now i }
{
    let low = two_at(t, i, 0) + 65536 * two_at(t, i, 2);
    let high = two_at(t, i, 4) + 65536 * two_at(t, i, 6);
    low + 4294967296 * high == 0
}

// The slot of the module with this id. Each slot is read as a table of one. The id is looked at first: hardly any slot has it.
pub fn slot_of(t: &[u8], id: usize) -> Option<usize>
    requires { length t.now ≡ 8 * slots t.now }
    ensures { result ≡ found_below (slots t.now) (slot_of t.now id) }
{
    let (slots, _) = t.as_chunks::<8>();
    slots
        .iter()
        .position(|slot| id_at(slot, 0) == id && !slot_free(slot, 0))
}

// "Place and pin use the lowest free slot".
pub fn lowest_free(t: &[u8]) -> Option<usize>
    requires { length t.now ≡ 8 * slots t.now }
    ensures { result ≡ found_below (slots t.now) (lowest_free t.now) }
{
    let (slots, _) = t.as_chunks::<8>();
    slots.iter().position(|slot| slot_free(slot, 0))
}

// Eight bytes, one behind the other: a record of the table, of the list or an answer. Store by store: `copy_from_slice` puts the bytes together as one
// number first, at three instructions a byte.
pub fn put_eight(a: &mut [u8], bytes: [u8; 8])
    requires { length a.old ≡ 8 }
    ensures { a.new ≡ bytes }
{
    let [b0, b1, b2, b3, b4, b5, b6, b7] = bytes;
    a[0] = b0;
    a[1] = b1;
    a[2] = b2;
    a[3] = b3;
    a[4] = b4;
    a[5] = b5;
    a[6] = b6;
    a[7] = b7;
}

fn put_slot(t: &mut [u8], i: usize, bytes: [u8; 8])
    requires { 8 * i + 8 ≤ length t.old }
    ensures { t.new ≡ with_record t.old i bytes }
{
    let at = 8 * i;
    put_eight(&mut t[at..at + 8], bytes);
}

// "Bytes 0 and 1 are the id, low byte first, then x, y, w, h", then the kind and a zero byte. Its numbers stay side by side: any byte may
// be the kind here, and a `Record` has one of two.
pub fn put_record(t: &mut [u8], i: usize, low: u8, high: u8, r: Rect, kind: u8)
    requires i_in_bounds { 8 * i + 8 ≤ length t.old }
    requires bytes { Bytes r }
    ensures { t.new ≡ with_record t.old i (record_of low high r kind) }
{
    let Rect { x, y, w, h } = r;
    let bytes = [low, high, x as u8, y as u8, w as u8, h as u8, kind, 0];
    put_slot(t, i, bytes);
}

// "A free slot is eight zero bytes".
pub fn put_free(t: &mut [u8], i: usize)
    requires { 8 * i + 8 ≤ length t.old }
    ensures { t.new ≡ with_record t.old i free_record }
{
    put_slot(t, i, [0; 8]);
}
