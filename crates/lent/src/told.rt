// What the host is told.
ghost use Rattle.std.specs.Prelude.{◌≡◌};
ghost use Rattle.lent.specs.Told.{told_number};

use super::counts::Counts;
use rules::Refusal;

// "A result is code + 2^16·first count + 2^32·second." "The counts are 0 when it refuses."
pub(crate) fn told(outcome: Result<Counts, Refusal>) -> u64
    ensures { result ≡ told_number outcome }
{
    match outcome {
        Ok(Counts { first, second }) => 65536 * (first as u64) + 4294967296 * (second as u64),
        Err(refusal) => u64::from(refusal.code()),
    }
}
