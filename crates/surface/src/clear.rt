// The cleared surface: "Clear frees all slots and gives cell (x, y) weight y + 1."
ghost use Rattle.std.specs.Prelude.{◌≡◌, ◌*◌, ◌≤◌, length, replicate};
ghost use Rattle.rules.specs.Calls.{cleared_weights};

// Every cell of a row. (By the slice's `fill` a clear at 64×64 costs 18 % more instructions.)
fn fill_row(row: &mut [i16], weight: i16)
    ensures { row.new ≡ replicate (length row.old) weight }
{
    for cell in row.iter_mut() {
        *cell = weight;
    }
}

// "gives cell (x, y) weight y + 1"
pub fn clear_weights(w: usize, h: usize, s: &mut [i16])
    requires { (w ≤ 64) × (h ≤ 64) × (length s.old ≡ w * h) }
    ensures { s.new ≡ cleared_weights w h }
{
    for y in 0..h {
        fill_row(&mut s[y * w..(y + 1) * w], cells::counted(y + 1));
    }
}

// "Clear frees all slots"
pub fn free_slots(t: &mut [u8])
    ensures { t.new ≡ replicate (length t.old) 0 }
{
    t.fill(0);
}
