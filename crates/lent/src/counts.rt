// The counts of a result.
ghost use Rattle.std.specs.Prelude.{◌<◌};

// "code + 2^16·first count + 2^32·second": each has sixteen bits, and is 0 where a call counts nothing.
#[derive(Clone, Copy, Debug)]
pub(crate) struct Counts {
    pub(crate) first: usize,
    pub(crate) second: usize,
    ghost small: { (first < 65536) × (second < 65536) },
}
