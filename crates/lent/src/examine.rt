// The surface that the host lends: the weights worked out from its table, and its bytes held against them.
ghost use Rattle.std.specs.Prelude.{◌≡◌, ◌*◌, replicate, pos};
ghost use Rattle.lent.specs.Lent.{Right, LentExamined};
ghost use Rattle.rules.specs.Host.{lent};

use rules::Refusal;
use surface::examine::work_out;

// The scratch s holds ones. Where the surface stands, it has the lent weights afterwards, and the result is how many slots are used.
pub fn examine(w: usize, h: usize, b: &[u8], t: &[u8], s: &mut [i16]) -> Result<usize, Refusal>
    requires { Right w h (lent b.now t.now) × (s.old ≡ replicate (w * h) (pos 1)) }
    ensures { LentExamined w h (lent b.now t.now) result s.new }
{
    let used = work_out(w, h, t, s)?;
    if !codec::same(b, s) {
        return Err(Refusal::DoesNotStand);
    }
    Ok(used)
}
