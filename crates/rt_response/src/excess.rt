ghost use Rattle.std.specs.Prelude.{◌≡◌, ◌<◌, Option, Some, IfOk, IfErr};
ghost use Rattle.rt_response.specs.Rounds.{excess_or};

use crate::rows::{Bound, Limit, Miss, ThreadRow};

/// A value over its limit, and the row that it is of.
#[derive(Clone, Copy, Debug, PartialEq, Eq)]
pub struct Excess {
    pub index: u32,
    pub which: Limit,
    pub value: u128,
    pub limit: u32,
}

impl Excess {
    /// The same, in a round.
    pub fn in_round(self, round: u64) -> Miss
        ensures { result ≡ record { index = self.index; which = self.which; value = self.value; limit = self.limit; round = round } }
    {
        Miss {
            index: self.index,
            which: self.which,
            value: self.value,
            limit: self.limit,
            round,
        }
    }
}

/// The bound that these values make for a row, or what of them is over its limit, the deadline first.
pub fn within_limits(
    index: u32,
    row: &ThreadRow,
    jitter: u32,
    response: u128,
) -> Result<Bound, Excess>
    ensures within { IfOk result (λ b. (b ≡ record { jitter = jitter; response = response })
        × ((others : Option Excess) → excess_or index row.now b others ≡ others)) }
    ensures over { IfErr result (λ x. (others : Option Excess) → excess_or index row.now (record { jitter = jitter; response = response }) others
        ≡ Some x) }
{
    if response > u128::from(row.deadline) {
        return Err(Excess {
            index,
            which: Limit::Deadline,
            value: response,
            limit: row.deadline,
        });
    }
    let reach = u128::from(jitter) + response;
    if reach > u128::from(row.period) {
        return Err(Excess {
            index,
            which: Limit::Separation,
            value: reach,
            limit: row.period,
        });
    }
    Ok(Bound {
        jitter,
        response: response as u32,
    })
}
