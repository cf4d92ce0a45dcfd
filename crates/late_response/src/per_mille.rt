ghost use Rattle.std.specs.Prelude.{◌≡◌, ◌+◌, ◌*◌, ◌≤◌, ◌<◌, length};
ghost use Rattle.rt_response.specs.Tables.{IsTable};
ghost use Rattle.late_response.specs.Limbs.{value, room};
ghost use Rattle.late_response.specs.Utilisation.{IsPerMille, utilisation as utilisation_of};

use crate::limbs::{is_at_most, scale_and_add};
use rt_response::ThreadRow;

/// The digits, to the base 2^32, that numbers up to 1000 times (10^9)^30 need, and some more.
const DIGITS: usize = 32;

/// Returns how often a number goes into another, which is at most 30 times.
fn quotient(over: &[u32], under: &[u32]) -> u64
    requires long { length under.now ≡ length over.now }
    requires length { length over.now ≡ 32 }
    requires positive { 1 ≤ value under.now }
    requires few { value over.now < 31 * value under.now }
    requires fits { value over.now + value under.now < room 32 }
    ensures at_most { result * value under.now ≤ value over.now }
    ensures next { value over.now < (result + 1) * value under.now }
    ensures small { result ≤ 30 }
{
    let mut next = [0; DIGITS];
    next.copy_from_slice(under);
    let mut count = 0;
    'times: while is_at_most(&next, over) {
        count += 1;
        scale_and_add(&mut next, 1, under, 1);
    }
    count
}

/// Returns the utilisation of a table in per mille, rounded down: the sum of cost / period of all rows. The sum is an exact fraction, so
/// nothing is lost on the way, and it is at most 30,000,000,000,000.
pub fn utilisation(table: &[ThreadRow]) -> u64
    requires { IsTable table.now }
    ensures { IsPerMille (utilisation_of table.now) result }
{
    let nothing = [0; DIGITS];
    let mut over = [0; DIGITS];
    let mut under = [0; DIGITS];
    under[0] = 1;
    let mut whole = 0;
    let mut left = table;
    'rows: while let Some((row, more)) = left.split_first() {
        let cost = 1000 * u64::from(row.cost);
        let period = u64::from(row.period);
        whole += cost / period;
        scale_and_add(&mut over, row.period, &under, (cost % period) as u32);
        scale_and_add(&mut under, row.period, &nothing, 0);
        left = more;
    }
    whole + quotient(&over, &under)
}
