ghost use Rattle.std.specs.Prelude.{◌≡◌, ◌≤◌, ◌++◌, ◌∷◌, OnOk, is_some, length, map};
ghost use Rattle.std.specs.List.{list_all};
ghost use Rattle.hrthood_top.specs.Explanations.{chain_line, chain_text, places_text};
ghost use Rattle.explanation.specs.Values.{value_at as known_at};

use crate::thread_lines::{add_wide, name_at};
use explanation::{Reasons, chain_jitter, chain_response, value_at};
use seq_tree::NoMemory;

/// Whether the bounds of the threads at these places are all known.
fn are_known(threads: &[Reasons], places: &[u32]) -> bool
    ensures { result ≡ list_all (λ p. is_some (known_at threads.now p)) places.now }
{
    let mut left = places;
    'places: while let Some((place, more)) = left.split_first() {
        if value_at(threads, *place).is_none() {
            return false;
        }
        left = more;
    }
    true
}

/// Adds the names of threads, each behind a space.
fn add_names(text: &mut Vec<u8>, threads: &[Reasons], places: &[u32]) -> Result<(), NoMemory>
    ensures { OnOk result (text.new.items ≡ text.old.items ++ places_text threads.now places.now) }
{
    let mut left = places;
    'places: while let Some((place, more)) = left.split_first() {
        text.extend_from_slice(b" ")?;
        text.extend_from_slice(name_at(threads, *place))?;
        left = more;
    }
    Ok(())
}

/// Adds the line of a chain: its last thread, and the ones that lead to it.
fn add_chain(
    text: &mut Vec<u8>,
    threads: &[Reasons],
    chain: &[u32],
    place: u32,
    starters: &[u32],
) -> Result<(), NoMemory>
    requires { chain.now ≡ place ∷ starters.now }
    ensures { OnOk result (text.new.items ≡ text.old.items ++ chain_text threads.now place starters.now) }
{
    text.extend_from_slice(b"chain ")?;
    text.extend_from_slice(name_at(threads, place))?;
    add_wide(text, b" jitter ", u128::from(chain_jitter(threads, chain)))?;
    add_wide(
        text,
        b" response ",
        u128::from(chain_response(threads, chain)),
    )?;
    text.extend_from_slice(b" by")?;
    add_names(text, threads, starters)?;
    text.extend_from_slice(b"\n")?;
    Ok(())
}

/// Adds the line of a chain, where it has two threads or more and all bounds are known.
pub(crate) fn add_chain_line(
    text: &mut Vec<u8>,
    threads: &[Reasons],
    chain: &[u32],
) -> Result<(), NoMemory>
    ensures { OnOk result (text.new.items ≡ text.old.items ++ chain_line threads.now chain.now) }
{
    let Some((place, starters)) = chain.split_first() else {
        return Ok(());
    };
    if starters.is_empty() || !are_known(threads, chain) {
        return Ok(());
    }
    add_chain(text, threads, chain, *place, starters)
}
