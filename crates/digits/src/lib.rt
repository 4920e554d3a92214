// The check digit of an order number (document 02, (vii)): whether the digits, weighted 1, 3, 1, 3 and so on from the right, sum to a multiple of ten.
#![tactic(auto)]

ghost use Rattle.std.specs.Prelude.{◌≡◌};
ghost use Rattle.digits.specs.Digits.{passes};

// order / 10^k differs from the digit at place k by tens, and tens do not matter to the sum: so the quotients stand for the digits, and none waits for
// the one before.
pub fn passes(order: u32) -> bool
    ensures { result ≡ passes order }
{
    let n = order as u64;
    let once = n + n / 100 + n / 10_000 + n / 1_000_000 + n / 100_000_000;
    let thrice = n / 10 + n / 1_000 + n / 100_000 + n / 10_000_000 + n / 1_000_000_000;
    (once + 3 * thrice) % 10 == 0
}
