// "The block of requests is walked by a reader that holds the lent block and its place in it." A reader is the block and the offset of the next
// request. The work is `serve_at`'s, which takes a plain slice and a number.
ghost use Rattle.std.specs.Prelude.{◌≡◌, cond, ◌+◌, ◌≤◌, ltb, length};
ghost use Rattle.requests.specs.SurfaceMut.{Kept, ServesAt};

use super::serve::SurfaceMut;

#[derive(Clone, Copy)]
pub struct Reader<'a> {
    block: &'a [u8],
    at: usize,
}

// The reader at the first request of a block.
pub fn begin<'a>(block: &'a [u8]) -> Reader<'a>
    ensures { (result.block ≡ block.entry) × (result.at ≡ 0) }
{
    Reader { block, at: 0 }
}

// Whether a request is left.
pub fn more<'a>(r: Reader<'a>) -> bool
    ensures { result ≡ ltb r.entry.at (length r.entry.block.now) }
{
    r.at < r.block.len()
}

// The reader at the request after.
pub fn next<'a>(r: Reader<'a>) -> Reader<'a>
    requires { r.at + 8 ≤ length r.block.now }
    ensures { (result.block ≡ r.entry.block) × (result.at ≡ r.entry.at + 8) }
{
    Reader {
        block: r.block,
        at: r.at + 8,
    }
}

// The request at an offset of a block, answered in "its own part of the answers": the eight bytes at the same offset.
fn serve_at(block: &[u8], at: usize, surface: &mut SurfaceMut, a: &mut [u8]) -> bool
    requires { (at + 8 ≤ length block.now) × (length a.old ≡ length block.now) }
    ensures kept { Kept surface.old surface.new }
    ensures served { ServesAt surface.old surface.new block.now at a.old a.new (cond result 1 0) }
{
    let end = at + 8;
    surface.serve(&block[at..end], &mut a[at..end])
}

// The request that the reader stands at is served. The reader stays where it is.
pub fn serve_next(r: Reader, surface: &mut SurfaceMut, a: &mut [u8]) -> bool
    requires { (r.at + 8 ≤ length r.block.now) × (length a.old ≡ length r.block.now) }
    ensures kept { Kept surface.old surface.new }
    ensures served { ServesAt surface.old surface.new r.entry.block.now r.entry.at a.old a.new (cond result 1 0) }
{
    serve_at(r.block, r.at, surface, a)
}
