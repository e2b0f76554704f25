// The table's part of "a surface stands", and the weights that it stands with.
ghost use Rattle.std.specs.Prelude.{◌≡◌, false, ◌*◌, length, replicate, pos};
ghost use Rattle.rules.specs.Judging.{first};
ghost use Rattle.rules.specs.Calls.{size_lines};
ghost use Rattle.surface.specs.Examine.{WorkedOut};

use super::marks::take_all;
use super::rows::count_rows;
use super::slots::gather;
use rules::Refusal;

// The used slots are gathered and taken in turn, which marks their modules; then the rows are counted. Where the surface stands, the result is how
// many slots are used.
fn work_out_on(
    w: usize,
    h: usize,
    t: &[u8],
    used: &mut [u8],
    ids: &mut [u16],
    m: &mut [i16],
) -> Result<usize, Refusal>
    requires { (first (size_lines false w h (length t.now)) ≡ 0) × (m.old ≡ replicate (w * h) (pos 1)) × (length used.old ≡ 256) × (length ids.old ≡ 256) }
    ensures { WorkedOut w h t.now result m.new }
{
    let n = gather(t, used);
    take_all(t, w, h, &used[..n], ids, m)?;
    count_rows(m, w, h);
    Ok(n)
}

// The table is examined, and its weights are worked out afresh on a scratch of ones.
pub fn work_out(w: usize, h: usize, t: &[u8], m: &mut [i16]) -> Result<usize, Refusal>
    requires { (first (size_lines false w h (length t.now)) ≡ 0) × (m.old ≡ replicate (w * h) (pos 1)) }
    ensures { WorkedOut w h t.now result m.new }
{
    // Two arrays: the ids stand side by side, without the slots' numbers, so that the compiler compares many at a time in `seen`.
    let mut used = [0u8; 256];
    let mut ids = [0u16; 256];
    work_out_on(w, h, t, &mut used, &mut ids, m)
}
