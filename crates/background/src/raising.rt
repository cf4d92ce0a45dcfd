ghost use Rattle.std.specs.Prelude.{◌≡◌};
ghost use Rattle.analysis.specs.Trees.{ranks_of};
ghost use Rattle.background_designs.specs.Programs.{at_least, raised};

use analysis::Ranking;

/// Raises numbers to at least this one.
fn raise_all(numbers: &mut [u32], least: u32)
    ensures { numbers.new ≡ at_least least numbers.old }
{
    'numbers: for place in 0..numbers.len() {
        numbers[place] = least.max(numbers[place]);
    }
}

/// Raises priorities and ceilings to at least this number.
pub(crate) fn raise(order: &mut Ranking, least: u32)
    ensures { ranks_of order.new ≡ raised least (ranks_of order.old) }
{
    raise_all(order.threads.as_mut_slice(), least);
    raise_all(order.shared.as_mut_slice(), least);
    raise_all(order.obcs.as_mut_slice(), least);
}
