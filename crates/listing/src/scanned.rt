// The scanned rows, from the table.
ghost use Rattle.std.specs.Prelude.{◌≡◌, ◌+◌, ◌*◌, ◌≤◌, length};
ghost use Rattle.rules.specs.Surface.{slots};
ghost use Rattle.listing.specs.Listed.{Scans, Marks};

// The row above the module of slot i is marked, where the slot is used and there is such a row.
fn mark(h: usize, table: &[u8], i: usize, scans: &mut [bool])
    requires { (8 * i + 8 ≤ length table.now) × (h ≤ length scans.old) }
    ensures { Marks h table.now i scans.old scans.new }
{
    if table::slot_free(table, i) {
        return;
    }
    let top = table::rect_at(table, i).y;
    if 0 < top && top <= h {
        scans[top - 1] = true;
    }
}

// "A row y is scanned when y = H - 1 or some module has its top row at y + 1." One pass over the slots.
pub fn scanned_rows(h: usize, table: &[u8], scans: &mut [bool])
    requires table_len { length table.now ≡ 8 * slots table.now }
    requires le_h { (1 ≤ h) × (h ≤ length scans.old) }
    ensures { Scans h table.now scans.new }
{
    scans.fill(false);
    for i in 0..table.len() / 8 {
        mark(h, table, i, scans);
    }
    scans[h - 1] = true;
}
