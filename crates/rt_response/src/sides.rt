ghost use Rattle.std.specs.Prelude.{◌≡◌, ◌↔◌, ◌+◌, ◌*◌, ◌≤◌, ◌<◌, length, zip, sum_by, slice_get, true, false, Some, None, IfOk, IfErr};
ghost use Rattle.std.specs.List.{AllZip};
ghost use Rattle.rt_response.specs.declared.rows.Bound.{Bound as Value};
ghost use Rattle.rt_response.specs.Tables.{Each, IsRow, IsTable};
ghost use Rattle.rt_response.specs.Response.{interference, jitter_by, right_sides, IsWithinLimits};
ghost use Rattle.rt_response.specs.Entries.{IsEntry, IsKept, excess_from};
ghost use Rattle.rt_response.specs.Rounds.{first_excess};

use crate::excess::{Excess, within_limits};
use crate::rows::{Bound, ThreadRow};

/// What a row of greater priority takes of a window.
fn interference_of(row: &ThreadRow, bound: &Bound, window: u32) -> u128
    requires entry { IsEntry row.now bound.now }
    requires window { window ≤ 1000000000 }
    ensures value { result ≡ interference window (row.now, bound.now) }
    ensures small { result ≤ 2000000000 * 1000000000 }
{
    let reach = window + bound.jitter;
    u128::from(u64::from(reach.div_ceil(row.period)) * u64::from(row.cost))
}

/// What all rows of greater priority take of a window.
fn all_interference(rows: &[ThreadRow], bounds: &[Bound], window: u32) -> u128
    requires entries { AllZip IsEntry rows.now bounds.now }
    requires count { length rows.now ≤ 30 }
    requires window { window ≤ 1000000000 }
    ensures value { result ≡ sum_by (interference window) (zip rows.now bounds.now) }
    ensures small { result ≤ 30 * (2000000000 * 1000000000) }
{
    let (mut rows, mut bounds) = (rows, bounds);
    let mut sum = 0;
    'rows: while let Some((row, more_rows)) = rows.split_first() {
        let Some((bound, more_bounds)) = bounds.split_first() else {
            break
        };
        sum += interference_of(row, bound, window);
        bounds = more_bounds;
        rows = more_rows;
    }
    sum
}

/// The jitter that the equation gives a row.
fn jitter_of(row: &ThreadRow, bounds: &[Bound]) -> u32
    requires row { IsRow (length bounds.now) row.now }
    requires bounds { Each (λ b. b.jitter + b.response ≤ 1000000000) bounds.now }
    ensures { result ≡ jitter_by bounds.now row.now row.now.starter }
{
    match row.starter {
        Some(starter) => {
            let bound = bounds[starter as usize];
            bound.jitter + bound.response
        }
        None => row.jitter,
    }
}

/// The response time that the equation gives a row: its own in the vector, where it is known to be kept.
fn response_of(table: &[ThreadRow], from: &[Bound], index: usize, keeps: bool) -> u128
    requires table { IsTable table.now }
    requires within { IsWithinLimits table.now from.now }
    requires index { index < length table.now }
    requires kept { keeps ≡ true → IsKept table.now from.now index }
    ensures { (side : Value) → slice_get (right_sides table.now from.now) index ≡ Some side → result ≡ side.response }
{
    let response = from[index].response;
    if keeps {
        return u128::from(response);
    }
    let (rows_before, _) = table.split_at(index);
    let (bounds_before, _) = from.split_at(index);
    let row = &table[index];
    let taken = all_interference(rows_before, bounds_before, response);
    u128::from(row.block) + u128::from(row.cost) + taken
}

/// The right side of a row's equation, or what of it is over its limit.
fn side(table: &[ThreadRow], from: &[Bound], index: usize, keeps: bool) -> Result<Bound, Excess>
    requires table { IsTable table.now }
    requires within { IsWithinLimits table.now from.now }
    requires index { index < length table.now }
    requires kept { keeps ≡ true → IsKept table.now from.now index }
    ensures within { IfOk result (λ b. (slice_get (right_sides table.now from.now) index ≡ Some b)
        × (excess_from table.now from.now index ≡ excess_from table.now from.now (index + 1))) }
    ensures over { IfErr result (λ x. excess_from table.now from.now index ≡ Some x) }
{
    let row = &table[index];
    let response = response_of(table, from, index, keeps);
    within_limits(index as u32, row, jitter_of(row, from), response)
}

/// Whether what was steady is so still, with a number that was one thing and is another now.
fn is_steady(steady: bool, old: u32, new: u32) -> bool
    ensures { (result ≡ true) ↔ ((steady ≡ true) × (old ≡ new)) }
{
    steady && old == new
}

/// The next round: the right sides of the equations at a vector, or the first that is over its limit.
///
/// But for the first round, `into` holds the vector from which this one was computed. A row whose response did not change between
/// the two, and above which no jitter changed, keeps its response, so that most rounds compute the responses of the last rows alone.
#[inline(always)]
pub fn next_round(
    table: &[ThreadRow],
    from: &[Bound],
    into: &mut [Bound],
    first: bool,
) -> Result<(), Excess>
    requires table { IsTable table.now }
    requires within { IsWithinLimits table.now from.now }
    requires long { length into.old ≡ length table.now }
    requires follows { first ≡ false → from.now ≡ right_sides table.now into.old }
    ensures found { IfOk result (λ _. (into.new ≡ right_sides table.now from.now) × (first_excess 0 table.now into.new ≡ None)) }
    ensures over { IfErr result (λ x. first_excess 0 table.now (right_sides table.now from.now) ≡ Some x) }
{
    let mut steady = !first;
    'rows: for index in 0..table.len() {
        let (old, bound) = (into[index], from[index]);
        let keeps = is_steady(steady, old.response, bound.response);
        steady = is_steady(steady, old.jitter, bound.jitter);
        into[index] = side(table, from, index, keeps)?;
    }
    Ok(())
}
