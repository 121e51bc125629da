// Hours of repair.
ghost use Rattle.scales.specs.Durations.{durations, duration_value, duration_print};
ghost use Rattle.scales.specs.DurationsLemmas.{durations_laws};
ghost use Rattle.std.proofs.Common.{ap, lit<};

use algebra::{Scale, Weight};
use refusals::Refusal;
use text::{put, put_decimal};

// The hours that a repair lasts, or none where it never comes up. Never is the shortest.
#[derive(Clone, Copy, PartialEq, Eq, PartialOrd, Ord, Debug)]
pub struct Hours(pub Option<u32>);

impl Weight for Hours {
    ghost kind = { durations };

    ghost value = { duration_value };

    fn nothing() -> Hours {
        Hours(None)
    }

    fn unit() -> Hours {
        Hours(Some(0))
    }

    // The longer one.
    fn plus(&self, other: &Hours) -> Hours {
        let Some(a) = self.0 else {
            return *other;
        };
        Hours(Some(other.0.map_or(a, |b| a.max(b))))
    }

    // The sum, held at the most hours; never where one of the two is.
    fn times(&self, other: &Hours) -> Hours {
        let (Some(a), Some(b)) = (self.0, other.0) else {
            return Hours::nothing();
        };
        Hours(Some(a.saturating_add(b)))
    }
}

impl Scale for Hours {
    const LETTER: char = 'H';

    ghost sign = { 72 };

    ghost print = { λ h. duration_print (duration_value h) };

    ghost laws = { durations_laws };

    ghost sign_is_ascii = { lit< tt };

    ghost print_of_value = { λ x y same. ap duration_print same };

    fn symbol() -> char {
        Self::LETTER
    }

    fn write(&self, buffer: &mut [u8]) -> Result<usize, Refusal> {
        let end = match self.0 {
            None => put(buffer, 0, b"-"),
            Some(n) => put_decimal(buffer, 0, u64::from(n)),
        };
        end.ok_or(Refusal::BufferTooShort)
    }
}
