ghost use Rattle.std.specs.Prelude.{map};
ghost use Rattle.grammar.specs.Reading.{whole_at};
ghost use Rattle.ada_tree.specs.Trees.{program_of, unit_of};
ghost use Rattle.token_read.specs.Ahead.{ahead};
ghost use Rattle.seq_read.specs.Halts.{Gives, GivesWhole};
ghost use Rattle.ada_read.specs.Readers.{ada_block_at, cost_at, costs_at, services_at, units_at, main_at, program_at};

use crate::bodies::{bodies, body_head};
use crate::fixed_text::{CostName, FixedText, cost_name, fixed};
use crate::heads::heads;
use crate::names::name;
use ada_tree::{AdaProgram, Unit};
use seq_read::{Halt, end_of, mark, number, word};
use seq_tree::{Costs, Mark, Name};
use std::alloc::Global;
use token_read::Tokens;

/// The ticks that a kind of statement takes, and the tokens after them.
#[tactic(auto, unfolding(crate::specs::Readers::cost_at))]
fn cost(tokens: Tokens, cost: CostName) -> Result<(u32, Tokens), Halt>
    ensures { Gives (λ r. (r.0, ahead r.1)) result (cost_at cost (ahead tokens.entry)) }
{
    let tokens = word(tokens, cost_name(cost))?;
    let tokens = fixed(tokens, FixedText::Constant)?;
    let (ticks, tokens) = number(tokens)?;
    let tokens = mark(tokens, Mark::Semicolon)?;
    Ok((ticks, tokens))
}

/// The costs of all kinds of statements, and the tokens after them.
#[tactic(auto, unfolding(crate::specs::Readers::costs_at))]
fn costs(tokens: Tokens) -> Result<(Costs, Tokens), Halt>
    ensures { Gives (λ r. (r.0, ahead r.1)) result (costs_at (ahead tokens.entry)) }
{
    let (assign, tokens) = cost(tokens, CostName::Assign)?;
    let (test, tokens) = cost(tokens, CostName::Test)?;
    let (turn, tokens) = cost(tokens, CostName::Turn)?;
    let (call, tokens) = cost(tokens, CostName::Call)?;
    let (nothing, tokens) = cost(tokens, CostName::Null)?;
    let (put, tokens) = cost(tokens, CostName::Put)?;
    let (finish, tokens) = cost(tokens, CostName::Finish)?;
    let costs = Costs {
        assign,
        test,
        turn,
        call,
        nothing,
        put,
        finish,
    };
    Ok((costs, tokens))
}

/// The costs that the text before the program tells, and the tokens after that text.
#[tactic(auto, unfolding(crate::specs::Readers::services_at))]
fn services(tokens: Tokens) -> Result<(Costs, Tokens), Halt>
    ensures { Gives (λ r. (r.0, ahead r.1)) result (services_at (ahead tokens.entry)) }
{
    let tokens = fixed(tokens, FixedText::Opening)?;
    let (costs, tokens) = costs(tokens)?;
    let tokens = fixed(tokens, FixedText::Services)?;
    Ok((costs, tokens))
}

/// The units of a program of this name, and the tokens after the end of its body.
#[tactic(auto, unfolding(crate::specs::Readers::units_at))]
fn units<'a>(
    alloc: Global,
    tokens: Tokens<'a>,
    name: &Name,
) -> Result<(Vec<Unit>, Tokens<'a>), Halt>
    ensures { Gives (λ r. (map unit_of r.0.items, ahead r.1)) result (units_at ada_block_at name.now (ahead tokens.entry)) }
{
    let (heads, tokens) = heads(alloc, tokens)?;
    let tokens = end_of(tokens, name.bytes())?;
    let tokens = body_head(tokens, name)?;
    let (units, tokens) = bodies(alloc, tokens, heads)?;
    let tokens = end_of(tokens, name.bytes())?;
    Ok((units, tokens))
}

/// The tokens after the main procedure of a program of this name.
#[tactic(auto, unfolding(crate::specs::Readers::main_at))]
fn main_procedure<'a>(tokens: Tokens<'a>, name: &Name) -> Result<Tokens<'a>, Halt>
    ensures { Gives (λ r. (tt, ahead r)) result (main_at name.now (ahead tokens.entry)) }
{
    let tokens = word(tokens, b"with")?;
    let tokens = word(tokens, name.bytes())?;
    fixed(tokens, FixedText::Main)
}

/// The program at the front, and the tokens after it.
#[tactic(auto, unfolding(crate::specs::Readers::program_at))]
fn program(alloc: Global, tokens: Tokens) -> Result<(AdaProgram, Tokens), Halt>
    ensures { Gives (λ r. (program_of r.0, ahead r.1)) result (program_at ada_block_at (ahead tokens.entry)) }
{
    let (costs, tokens) = services(tokens)?;
    let (name, tokens) = name(alloc, tokens)?;
    let tokens = word(tokens, b"is")?;
    let (units, tokens) = units(alloc, tokens, &name)?;
    let tokens = main_procedure(tokens, &name)?;
    let program = AdaProgram { name, costs, units };
    Ok((program, tokens))
}

/// The program that these are all the tokens of. `Syntax` comes where the tokens are of no program, and `TooDeep` where they are
/// but for their nesting or a chain, each with the tokens that were left; `NoMemory` comes for want of memory.
#[tactic(auto, using(seq_read::proofs::Shared::WholeSteps::whole_steps))]
pub(crate) fn whole(alloc: Global, tokens: Tokens) -> Result<AdaProgram, Halt>
    ensures { GivesWhole program_of result (whole_at (program_at ada_block_at) (ahead tokens.entry)) }
{
    let (program, rest) = program(alloc, tokens)?;
    if rest.is_empty() {
        Ok(program)
    } else {
        Err(Halt::Syntax(rest.len()))
    }
}
