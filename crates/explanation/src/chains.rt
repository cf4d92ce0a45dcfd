ghost use Rattle.std.specs.Prelude.{◌≡◌};
ghost use Rattle.explanation.specs.Chains.{chain_jitter, chain_response, jitter_in, lowest_place, response_in};

use crate::reasons::Reasons;
use crate::values::{Value, value_at};

/// A response time, and 0 where it is not known.
fn response_in(value: Option<Value>) -> u64
    ensures { result ≡ response_in value }
{
    match value {
        None => 0,
        Some(value) => value.response,
    }
}

/// A jitter, and 0 where it is not known.
fn jitter_in(value: Option<Value>) -> u64
    ensures { result ≡ jitter_in value }
{
    match value {
        None => 0,
        Some(value) => value.jitter,
    }
}

/// The place of lowest priority in a chain.
fn lowest_place(chain: &[u32]) -> u32
    ensures { result ≡ lowest_place chain.now }
{
    let mut left = chain;
    let mut lowest: u32 = 0;
    'places: while let Some((place, more)) = left.split_first() {
        lowest = lowest.max(*place);
        left = more;
    }
    lowest
}

/// The response time of a chain of requests: that of its thread of lowest priority, in ticks, and 0 where it is not known.
///
/// Where the design keeps its limits, no chain takes longer (`law_chain_bounds::printed_chains_keep_to_levels`).
pub fn chain_response(threads: &[Reasons], chain: &[u32]) -> u64
    ensures { result ≡ chain_response threads.now chain.now }
{
    response_in(value_at(threads, lowest_place(chain)))
}

/// The jitter of a chain: that of its first thread, which comes last, in ticks, and 0 where it is not known.
pub fn chain_jitter(threads: &[Reasons], chain: &[u32]) -> u64
    ensures { result ≡ chain_jitter threads.now chain.now }
{
    let mut left = chain;
    let mut jitter = 0;
    'places: while let Some((place, more)) = left.split_first() {
        jitter = jitter_in(value_at(threads, *place));
        left = more;
    }
    jitter
}
