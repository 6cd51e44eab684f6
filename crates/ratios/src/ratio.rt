ghost use Rattle.std.specs.Prelude.{ℕ, ◌≡◌, ◌*◌, ◌≤◌};

use crate::gcd::gcd;

/// The most ticks that the hops of a ring of 16 tasks weigh together.
pub const MOST_WEIGHT: u64 = 16_000_000_000_000;

/// The most tokens that the hops of a ring of 16 tasks hold together.
pub const MOST_RING_TOKENS: u64 = 4_080;

/// Ticks per token in lowest terms: `cycle` ticks for `parts` tokens.
#[derive(Clone, Copy, PartialEq, Eq, Debug)]
pub struct Ratio {
    pub cycle: u64,
    pub parts: u64,
    ghost cycle_some: { 1 ≤ cycle },
    ghost cycle_most: { cycle ≤ 16000000000000 },
    ghost parts_some: { 1 ≤ parts },
    ghost parts_most: { parts ≤ 4080 },
    ghost lowest: { (d m k : ℕ) → cycle ≡ d * m → parts ≡ d * k → d ≡ 1 },
}

impl Ratio {
    ghost use Rattle.std.specs.Prelude.{MatchOption};
    ghost use Rattle.ratios.specs.Ratios.{OfRing, Is};

    /// Weight over tokens in lowest terms; none where one of them is 0, or more than a ring's.
    pub fn new(weight: u64, tokens: u64) -> Option<Ratio>
        ensures { MatchOption result (OfRing weight tokens → ⊥) (λ r. OfRing weight tokens × Is r weight tokens) }
    {
        if !(1..=MOST_WEIGHT).contains(&weight) || !(1..=MOST_RING_TOKENS).contains(&tokens) {
            return None;
        }
        let divisor = gcd(weight, tokens);
        Some(Ratio {
            cycle: weight / divisor,
            parts: tokens / divisor,
        })
    }
}
