// Weights as the host lends them: two bytes each, low byte first, two's complement.
#![tactic(auto)]

ghost use Rattle.std.specs.Prelude.{◌≡◌, ◌+◌, ◌*◌, ◌<◌, length};
ghost use Rattle.cells.specs.Weight.{same_weights};
ghost use Rattle.rules.specs.Host.{weight_at, weights_of, bytes_of};

fn weight_at(b: &[u8], k: usize) -> i16
    requires { 2 * k + 1 < length b.now }
    ensures { result ≡ weight_at b.now k }
{
    i16::from_le_bytes([b[2 * k], b[2 * k + 1]])
}

// Whether the bytes hold these weights. It looks at all of them, so that the compiler takes many at a time.
pub fn same(b: &[u8], s: &[i16]) -> bool
    requires { length b.now ≡ 2 * length s.now }
    ensures { result ≡ same_weights s.now (weights_of b.now) }
{
    let mut ok = true;
    for (k, &weight) in s.iter().enumerate() {
        ok &= weight == weight_at(b, k);
    }
    ok
}

// The bytes that hold the weights.
pub fn encode(s: &[i16], b: &mut [u8])
    requires { length b.old ≡ 2 * length s.now }
    ensures { b.new ≡ bytes_of s.now }
{
    for (k, weight) in s.iter().enumerate() {
        let [low, high] = weight.to_le_bytes();
        b[2 * k] = low;
        b[2 * k + 1] = high;
    }
}
