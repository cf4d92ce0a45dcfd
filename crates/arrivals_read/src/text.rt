ghost use Rattle.std.specs.Prelude.{map};
ghost use Rattle.grammar.specs.Reading.{whole_at};
ghost use Rattle.token_read.specs.Ahead.{ahead};
ghost use Rattle.token_read.specs.Words.{Gives, GivesWhole};
ghost use Rattle.arrivals_read.specs.Readers.{arrivals_at, other_at, others_at, request_at, requests_at, until_at, value_at, work_at, works_at};
ghost use Rattle.arrivals_read.specs.Texts.{request_text, text_of, work_text};

use seq_tree::Mark;
use std::alloc::Global;
use token_read::{
    TokenFault, Tokens, Word, any_word, mark, next_is_mark, next_is_number, next_is_word, number,
    word,
};

/// Durations for a task, in ticks: one and further ones.
#[derive(Drop)]
pub(crate) struct WorkItem<'a> {
    pub(crate) name: Word<'a>,
    pub(crate) first: u32,
    pub(crate) others: Vec<u32>,
}

/// A request from outside: when, in ticks, of which task, and with which value.
#[derive(Clone, Copy)]
pub(crate) struct RequestItem<'a> {
    pub(crate) time: u32,
    pub(crate) name: Word<'a>,
    pub(crate) value: Option<u32>,
}

/// A text of arrivals as it stands.
#[derive(Drop)]
pub(crate) struct Text<'a> {
    pub(crate) until: u32,
    pub(crate) works: Vec<WorkItem<'a>>,
    pub(crate) requests: Vec<RequestItem<'a>>,
}

/// A further duration, and the tokens after it.
#[tactic(auto, unfolding(crate::specs::Readers::other_at))]
fn other(tokens: Tokens) -> Result<(u32, Tokens), TokenFault>
    ensures { Gives (λ r. (r.0, ahead r.1)) result (other_at (ahead tokens.entry)) }
{
    let tokens = mark(tokens, Mark::Comma)?;
    number(tokens)
}

/// Further durations, as many as there are, and the tokens after them.
#[tactic(auto, using(crate::proofs::Turns::other_steps))]
fn others(alloc: Global, tokens: Tokens) -> Result<(Vec<u32>, Tokens), TokenFault>
    ensures { Gives (λ r. (r.0.items, ahead r.1)) result (others_at (ahead tokens.entry)) }
{
    let mut others = Vec::new(alloc);
    let mut rest = tokens;
    'others: while next_is_mark(rest, Mark::Comma) {
        let (next, after) = other(rest)?;
        others.push(next)?;
        rest = after;
    }
    Ok((others, rest))
}

/// Durations for a task, and the tokens after them.
#[tactic(auto, unfolding(crate::specs::Readers::work_at))]
fn work<'a>(alloc: Global, tokens: Tokens<'a>) -> Result<(WorkItem<'a>, Tokens<'a>), TokenFault>
    ensures { Gives (λ r. (work_text r.0, ahead r.1)) result (work_at (ahead tokens.entry)) }
{
    let tokens = word(tokens, b"work")?;
    let (name, tokens) = any_word(tokens)?;
    let (first, tokens) = number(tokens)?;
    let (others, tokens) = others(alloc, tokens)?;
    let tokens = mark(tokens, Mark::Semicolon)?;
    let work = WorkItem {
        name,
        first,
        others,
    };
    Ok((work, tokens))
}

/// All durations, and the tokens after them.
#[tactic(auto, using(crate::proofs::Turns::work_steps))]
fn works<'a>(
    alloc: Global,
    tokens: Tokens<'a>,
) -> Result<(Vec<WorkItem<'a>>, Tokens<'a>), TokenFault>
    ensures { Gives (λ r. (map work_text r.0.items, ahead r.1)) result (works_at (ahead tokens.entry)) }
{
    let mut works = Vec::new(alloc);
    let mut rest = tokens;
    'works: while next_is_word(rest, b"work") {
        let (next, after) = work(alloc, rest)?;
        works.push(next)?;
        rest = after;
    }
    Ok((works, rest))
}

/// The value that is first, where there is one, and the tokens after the end of its request.
#[tactic(auto, unfolding(crate::specs::Readers::value_at, crate::specs::Readers::some_at, crate::specs::Readers::none_at))]
fn value(tokens: Tokens) -> Result<(Option<u32>, Tokens), TokenFault>
    ensures { Gives (λ r. (r.0, ahead r.1)) result (value_at (ahead tokens.entry)) }
{
    if next_is_number(tokens) {
        let (value, tokens) = number(tokens)?;
        let tokens = mark(tokens, Mark::Semicolon)?;
        Ok((Some(value), tokens))
    } else {
        let tokens = mark(tokens, Mark::Semicolon)?;
        Ok((None, tokens))
    }
}

/// A request from outside, and the tokens after it.
#[tactic(auto, unfolding(crate::specs::Readers::request_at))]
fn request<'a>(tokens: Tokens<'a>) -> Result<(RequestItem<'a>, Tokens<'a>), TokenFault>
    ensures { Gives (λ r. (request_text r.0, ahead r.1)) result (request_at (ahead tokens.entry)) }
{
    let tokens = word(tokens, b"at")?;
    let (time, tokens) = number(tokens)?;
    let (name, tokens) = any_word(tokens)?;
    let (value, tokens) = value(tokens)?;
    Ok((RequestItem { time, name, value }, tokens))
}

/// All requests from outside, and the tokens after them.
#[tactic(auto, using(crate::proofs::Turns::request_steps))]
fn requests<'a>(
    alloc: Global,
    tokens: Tokens<'a>,
) -> Result<(Vec<RequestItem<'a>>, Tokens<'a>), TokenFault>
    ensures { Gives (λ r. (map request_text r.0.items, ahead r.1)) result (requests_at (ahead tokens.entry)) }
{
    let mut requests = Vec::new(alloc);
    let mut rest = tokens;
    'requests: while next_is_word(rest, b"at") {
        let (next, after) = request(rest)?;
        requests.push(next)?;
        rest = after;
    }
    Ok((requests, rest))
}

/// The horizon, and the tokens after it.
#[tactic(auto, unfolding(crate::specs::Readers::until_at))]
fn until(tokens: Tokens) -> Result<(u32, Tokens), TokenFault>
    ensures { Gives (λ r. (r.0, ahead r.1)) result (until_at (ahead tokens.entry)) }
{
    let tokens = word(tokens, b"until")?;
    let (until, tokens) = number(tokens)?;
    let tokens = mark(tokens, Mark::Semicolon)?;
    Ok((until, tokens))
}

/// The arrivals that these are all the tokens of. `Syntax` comes where they are of none, with the tokens that were left; `NoMemory`
/// comes for want of memory.
#[tactic(auto, unfolding(crate::specs::Readers::arrivals_at), using(crate::proofs::Turns::end_steps))]
pub(crate) fn whole<'a>(alloc: Global, tokens: Tokens<'a>) -> Result<Text<'a>, TokenFault>
    ensures { GivesWhole text_of result (whole_at arrivals_at (ahead tokens.entry)) }
{
    let (until, tokens) = until(tokens)?;
    let (works, tokens) = works(alloc, tokens)?;
    let (requests, tokens) = requests(alloc, tokens)?;
    if !tokens.is_empty() {
        return Err(TokenFault::Syntax(tokens.len()));
    }
    Ok(Text {
        until,
        works,
        requests,
    })
}
