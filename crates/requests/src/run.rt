// "the requests then run in turn, each on the surface that the one before left."
ghost use Rattle.std.specs.Prelude.{◌≡◌, ◌+◌, ◌*◌, ◌≤◌, length};
ghost use Rattle.rules.specs.Surface.{Standing};
ghost use Rattle.rules.specs.Blocks.{started, requests, after};
ghost use Rattle.requests.specs.Steps.{Ran};

use super::reader::{begin, more, next, serve_next};
use super::serve::SurfaceMut;

// The requests of a block in turn, each answered in its own part of the answers. The result is how many are accepted. The reader and the surface
// are held from turn to turn; they stay in here, so whoever calls this sees plain slices.
pub fn run_on(w: usize, h: usize, s: &mut [i16], t: &mut [u8], q: &[u8], a: &mut [u8]) -> usize
    requires standing { Standing w h s.old t.old }
    requires q_len { (length q.now ≡ 8 * requests q.now) × (requests q.now ≤ 512) × (length a.old ≡ length q.now) }
    ensures { Ran (after w h q.now (started s.old t.old) (requests q.now)) s.new t.new a.new result }
{
    let mut r = begin(q);
    let mut surface = SurfaceMut {
        w,
        h,
        weights: s,
        table: t,
    };
    let mut done = 0;
    while more(r) {
        done += usize::from(serve_next(r, &mut surface, a));
        r = next(r);
    }
    done
}
