//! The numbers that the datagrams are made from.

ghost use Rattle.std.specs.Prelude.{◌≡◌};
ghost use Rattle.load_gen.specs.Generator.{state};

use rand_pcg::Lcg64Xsh32;

/// What each step adds.
const INCREMENT: u64 = 1442695040888963407;

/// The number after so many steps from a seed, in about as many operations as the count of steps has bits: the step is
/// squared again and again.
pub(crate) fn state_after(seed: u64, steps: u64) -> u64
    ensures { result ≡ state seed steps }
{
    let mut generator = Lcg64Xsh32::from_state(seed, INCREMENT / 2);
    generator.advance(steps);
    generator.state()
}
