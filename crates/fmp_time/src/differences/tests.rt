ghost use Rattle.std.specs.Prelude.{◌<◌};

use super::Differences;

/// What an item adds to the ticks left of the one before it.
pub(crate) fn added(differences: &Differences, item: usize) -> u64
    requires { item < 128 }
{
    differences.more[item]
}
