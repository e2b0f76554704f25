// Running a block, on lent bytes.
ghost use Rattle.lent.specs.Told.{told_number};
ghost use Rattle.rules.specs.Host.{HostRanBy, lent};

use super::counts::Counts;
use super::examine::examine;
use super::told::told;
use requests::run::run_on;
use rules::Refusal;
use surface::sizes::check_block;

fn ran(
    w: usize,
    h: usize,
    weights: &mut [u8],
    table: &mut [u8],
    requests: &[u8],
    answers: &mut [u8],
) -> Result<Counts, Refusal>
    ensures { HostRanBy w h (lent weights.old table.old) requests.now answers.old (told_number result) (lent weights.new table.new) answers.new }
{
    check_block(
        w,
        h,
        weights.len(),
        2,
        table.len(),
        requests.len(),
        answers.len(),
    )?;
    let mut ones = [1i16; 4096];
    let s = &mut ones[..w * h];
    examine(w, h, weights, table, s)?;
    let accepted = run_on(w, h, s, table, requests, answers);
    if 0 < accepted {
        codec::encode(s, weights);
    }
    Ok(Counts {
        first: accepted,
        second: 0,
    })
}

// run a block: each request in turn on what the one before left; counts the requests accepted. Codes 1 to 6.
pub fn run(
    w: usize,
    h: usize,
    weights: &mut [u8],
    table: &mut [u8],
    requests: &[u8],
    answers: &mut [u8],
) -> u64
    ensures { HostRanBy w h (lent weights.old table.old) requests.now answers.old result (lent weights.new table.new) answers.new }
{
    told(ran(w, h, weights, table, requests, answers))
}
