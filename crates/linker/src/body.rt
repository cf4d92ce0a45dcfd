ghost use Rattle.std.specs.Prelude.{◌≡◌, ◌+◌, IfOk, OnOk, length};
ghost use Rattle.seq_tree.specs.Trees.{block_of};
ghost use Rattle.linker.specs.Bodies.{LinksBody, Roomed};
ghost use Rattle.linker.specs.Standing.{lists_of};

use crate::callees::Calls;
use crate::code::{Code, Ins};
use crate::fill::{after, before, fill, narrow};
use crate::link::link_block;
use crate::scope::Scope;
use crate::size::block_len;
use seq_tree::{Block, NoMemory};

/// Adds places behind the others, and tells the place behind them.
fn make_room(code: &mut Code, count: u32) -> Result<u32, NoMemory>
    ensures room { OnOk result (Roomed count (lists_of code.old) (lists_of code.new)) }
    ensures end { IfOk result (λ end. end ≡ length code.old.ins.items + count) }
{
    let start = narrow(code.ins.len())?;
    let end = start.checked_add(count).ok_or(NoMemory)?;
    code.ins.reserve(count as usize)?;
    let mut left = count;
    'places: while left > 0 {
        code.ins.push(Ins::Null)?;
        left -= 1;
    }
    Ok(end)
}

/// Links a block behind the code that is there, with its last instruction, and tells where it begins. An `exit when` outside of loops leads to
/// place 0. The one error is a failed allocation, or more than 32 bits can count.
pub fn link_body<'a, C: Calls>(
    code: &mut Code,
    block: &'a Block,
    scope: &mut Scope<'a>,
    calls: &C,
    last: Ins,
) -> Result<u32, NoMemory>
    ensures { IfOk result (λ start. LinksBody (C.leads calls.now) scope.old (lists_of code.old) (lists_of code.new) start last
        (block_of block.entry.now)) }
{
    let lines = block_len(block)?;
    let count = after(lines)?;
    let end = make_room(code, count)?;
    let at = before(end)?;
    fill(code, at, last)?;
    link_block(code, block, scope, calls, 0, at)
}
