// Codes 1 to 5, before anything is read.
ghost use Rattle.std.specs.Prelude.{◌≡◌, not, ◌||◌, ◌++◌, ◌*◌, ◌/◌, ◌%◌, ◌≤◌, eqb, OnOk};
ghost use Rattle.rules.specs.Tests.{between};
ghost use Rattle.rules.specs.Calls.{bad_size, size_lines};
ghost use Rattle.rules.specs.Judging.{first};
ghost use Rattle.rules.specs.Refusals.{result_code};
ghost use Rattle.surface.specs.Sizes.{block_lines};

use rules::Refusal;

#[tactic(auto, unfolding(rules::specs::Calls::bad_size))]
fn bad_size(w: usize, h: usize) -> bool
    ensures { result ≡ bad_size w h }
{
    !(1..=64).contains(&w) || !(1..=64).contains(&h)
}

// "not a multiple of 8 bytes, or not 1..256 slots" of the table, "or over 512 requests" of the block: eight bytes each, at least and at most so many.
fn no_count(bytes: usize, least: usize, most: usize) -> bool
    ensures { result ≡ (not (eqb (bytes % 8) 0) || not (between least most (bytes / 8))) }
{
    bytes % 8 != 0 || !(least..=most).contains(&(bytes / 8))
}

// The lowest of 1, 2 and 3 that applies: n is the length of the weights, of which a cell has `each`; nt that of the table.
#[tactic(auto, unfolding(rules::specs::Judging::first, rules::specs::Calls::bad_table))]
pub fn check_sizes(w: usize, h: usize, n: usize, each: usize, nt: usize) -> Result<(), Refusal>
    requires { each ≤ 2 }
    ensures code { result_code result ≡ first (size_lines (not (eqb n (each * (w * h)))) w h nt) }
    ensures cells { OnOk result (w * h ≤ 4096) }
{
    if bad_size(w, h) {
        return Err(Refusal::SurfaceSize);
    }
    if n != each * (w * h) {
        return Err(Refusal::WeightsLength);
    }
    if no_count(nt, 1, 256) {
        return Err(Refusal::TableLength);
    }
    Ok(())
}

// The lowest of 1 to 5 that applies: n is the length of the weights, of which a cell has `each`; nt, nq and na those of table, block and answers.
#[tactic(auto, unfolding(rules::specs::Judging::first, rules::specs::Calls::bad_block))]
pub fn check_block(
    w: usize,
    h: usize,
    n: usize,
    each: usize,
    nt: usize,
    nq: usize,
    na: usize,
) -> Result<(), Refusal>
    requires { each ≤ 2 }
    ensures code { result_code result ≡ first (size_lines (not (eqb n (each * (w * h)))) w h nt ++ block_lines nq na) }
    ensures cells { OnOk result (w * h ≤ 4096) }
{
    check_sizes(w, h, n, each, nt)?;
    if no_count(nq, 0, 512) {
        return Err(Refusal::BlockLength);
    }
    if na != nq {
        return Err(Refusal::AnswersLength);
    }
    Ok(())
}
