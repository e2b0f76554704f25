// "every weight is as above": the weights are worked out afresh, row after row, from the marks and the row above. Each loop looks at all its cells, so
// that the compiler takes many at a time.
ghost use Rattle.std.specs.Prelude.{◌≡◌, cond, ℕ, ◌+◌, ◌-◌, ◌*◌, ◌≤◌, ◌<◌, length, get_or, pos};
ghost use Rattle.cells.specs.Weight.{taken_z, count_of};
ghost use Rattle.surface.specs.Rows.{RowWritten, counted_on, CountedTo};

// The mark of an occupied cell, the count of an empty one. A leaf, as `cells::height_of` is, so that both become selections and no branch is left in a
// row.
fn pick(m: i16, c: i16) -> i16
    ensures { result ≡ cond (taken_z m) m c }
{
    if m < 0 { m } else { c }
}

fn counted_on(m: i16, a: i16) -> i16
    requires { count_of a ≤ 64 }
    ensures { result ≡ counted_on m a }
{
    let c = cells::height_of(a) + 1;
    pick(m, c)
}

// The top row has none above it: one function for it and for the rows below would be lent a row of zeros there, an array more.
fn first_row(row: &mut [i16])
    ensures { RowWritten row.old row.new 0 (length row.old) (λ x. counted_on (get_or row.old x (pos 0)) (pos 0)) }
{
    for m in row.iter_mut() {
        *m = counted_on(*m, 0);
    }
}

// The row below the one that is lent as `above`.
fn next_row(above: &[i16], row: &mut [i16])
    requires { (length above.now ≡ length row.old) × ((x : ℕ) → x < length row.old → count_of (get_or above.now x (pos 0)) ≤ 64) }
    ensures { RowWritten row.old row.new 0 (length row.old) (λ x. counted_on (get_or row.old x (pos 0)) (get_or above.now x (pos 0))) }
{
    for (x, m) in row.iter_mut().enumerate() {
        *m = counted_on(*m, above[x]);
    }
}

// All rows, from the top.
pub fn count_rows(m: &mut [i16], w: usize, h: usize)
    requires { (1 ≤ h) × (h ≤ 64) × (w ≤ 64) × (length m.old ≡ w * h) }
    ensures { CountedTo w m.old m.new h }
{
    first_row(&mut m[..w]);
    for y in 1..h {
        let (above, rest) = m.split_at_mut(y * w);
        next_row(&above[(y - 1) * w..], &mut rest[..w]);
    }
}
