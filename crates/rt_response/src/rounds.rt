ghost use Rattle.std.specs.Prelude.{◌≡◌, ℕ, List, length, IfOk, IfErr};
ghost use Rattle.rt_response.specs.declared.rows.Bound.{Bound as Value};
ghost use Rattle.rt_response.specs.Tables.{IsTable};
ghost use Rattle.rt_response.specs.Response.{IsAtMost, Meets, Fits, IsLeastVector};
ghost use Rattle.rt_response.specs.Rounds.{round, before_round, IsMiss};

use crate::rows::{Bound, Miss, ThreadRow};
use crate::sides::next_round;

/// The most rows that a table has.
const MOST_ROWS: usize = 30;

/// Goes on from round to round until a round is as the one before it, or a value is over its limit. The two vectors take turns, so
/// that each round is computed beside the one before, and none is moved.
fn settle(table: &[ThreadRow], bounds: &mut [Bound], next: &mut [Bound]) -> Result<(), Miss>
    requires table { IsTable table.now }
    requires zeros { bounds.old ≡ before_round table.now 0 }
    requires long { length next.old ≡ length table.now }
    ensures least { IfOk result (λ _. IsLeastVector table.now bounds.new) }
    ensures miss { IfErr result (λ m. IsMiss table.now m × (bounds.new ≡ before_round table.now m.round)) }
    ensures none { IfErr result (λ _. (v : List Value) → Fits table.now v → ⊥) }
{
    let mut round = 0;
    let mut first = true;
    'rounds: loop {
        if let Err(excess) = next_round(table, bounds, next, first) {
            return Err(excess.in_round(round));
        }
        if *next == *bounds {
            return Ok(());
        }
        round += 1;
        first = false;
        if let Err(excess) = next_round(table, next, bounds, first) {
            bounds.copy_from_slice(next);
            return Err(excess.in_round(round));
        }
        if *bounds == *next {
            return Ok(());
        }
        round += 1;
    }
}

/// The least response times, and the jitters that they give, for a table of threads, as response-time
/// analysis with release jitter has them (Audsley et al. 1993; Tindell, Burns and Wellings 1994).
///
/// It answers Ok exactly where some vector meets the equations within the limits, and then `bounds`
/// holds the least one: a jitter and a response time for each row, in ticks. It answers a Miss exactly
/// where none does: the first round with a value over its limit, the first row with one, the deadline
/// before the separation. `bounds` then holds the round before that one, or zeros where that is round 0.
/// What `bounds` held at first is not read. It takes no memory.
///
/// It ends for every table: each round but the last raises some value by at least a tick, and values
/// within their limits are together at most 30,000,000,000, so no more rounds than that come.
pub fn respond(table: &[ThreadRow], bounds: &mut [Bound]) -> Result<(), Miss>
    requires table { IsTable table.now }
    requires long { length bounds.old ≡ length table.now }
    ensures least { IfOk result (λ _. IsLeastVector table.now bounds.new) }
    ensures miss { IfErr result (λ m. IsMiss table.now m) }
    ensures before { IfErr result (λ m. bounds.new ≡ before_round table.now m.round) }
    ensures none { IfErr result (λ _. (v : List Value) → Fits table.now v → ⊥) }
    ensures below { (v : List Value) (k : ℕ) → Meets table.now v → IsAtMost (round table.now k) v }
{
    let mut space = [Bound {
        jitter: 0,
        response: 0,
    }; MOST_ROWS];
    let (next, _) = space.split_at_mut(table.len());
    bounds.copy_from_slice(next);
    settle(table, bounds, next)
}
