ghost use Rattle.std.specs.Prelude.{◌≡◌, ◌+◌, codes, map, min, option_map};
ghost use Rattle.seq_tree.specs.Layout.{layout};
ghost use Rattle.seq_tree.specs.Spelling.{block_lines, branch_lines, statement_lines};
ghost use Rattle.seq_tree.specs.Statements.{Nothing};
ghost use Rattle.seq_tree.specs.Trees.{arm_of, block_of, branches_of, otherwise, statement_of};
ghost use Rattle.seq_print.specs.Printing.{Prints, Writes};

use crate::lines::{
    add_assign, add_call, add_condition, add_exit, add_for, add_put, add_work, put_line,
};
use crate::puts::put;
use seq_tree::{Arm, Block, NoMemory, Stmt};
use std::alloc::Global;

/// A level deeper; from ten levels on, lines begin with no more spaces.
fn deeper(level: u32) -> u32
    ensures { result ≡ min level 10 + 1 }
{
    level.min(10) + 1
}

/// Adds the lines of a statement.
#[cycle(statements)]
fn add_statement(stmt: &Stmt, level: u32, into: &mut Vec<u8>) -> Result<(), NoMemory>
    ensures { Writes result into.old.items into.new.items (layout (statement_lines level (statement_of stmt.now))) }
{
    match stmt {
        Stmt::Null => put_line(into, level, b"null;"),
        Stmt::Assign { target, value } => add_assign(target, value, level, into),
        Stmt::If { arms, other } => {
            add_arms(arms, level, into)?;
            add_other(other, level, into)?;
            put_line(into, level, b"end if;")
        }
        Stmt::For {
            name,
            low,
            high,
            body,
        } => {
            add_for(name, *low, *high, level, into)?;
            add_lines(body, deeper(level), into)?;
            put_line(into, level, b"end loop;")
        }
        Stmt::ExitWhen(condition) => add_exit(condition, level, into),
        Stmt::Call {
            object,
            op,
            actuals,
        } => add_call(object, op, actuals, level, into),
        Stmt::Work(ticks) => add_work(*ticks, level, into),
        Stmt::Put(value) => add_put(value, level, into),
    }
}

/// Adds the lines of conditions with their blocks: the first behind `if`, and each other behind `elsif`.
#[cycle(statements)]
fn add_arms(arms: &[Arm], level: u32, into: &mut Vec<u8>) -> Result<(), NoMemory>
    ensures { Writes result into.old.items into.new.items (layout (branch_lines (codes "if") level (branches_of (map arm_of arms.now) Nothing))) }
{
    let mut word = b"if".as_slice();
    'arms: for arm in arms {
        add_condition(word, &arm.cond, level, into)?;
        add_lines(&arm.block, deeper(level), into)?;
        word = b"elsif".as_slice();
    }
    Ok(())
}

/// Adds the lines of an `else`, where there is one.
#[cycle(statements)]
fn add_other(other: &Option<Block>, level: u32, into: &mut Vec<u8>) -> Result<(), NoMemory>
    ensures { Writes result into.old.items into.new.items (layout (branch_lines (codes "elsif") level (otherwise (option_map block_of other.now)))) }
{
    match other {
        None => Ok(()),
        Some(block) => {
            put_line(into, level, b"else")?;
            add_lines(block, deeper(level), into)
        }
    }
}

/// Adds the lines of a block.
#[cycle(statements)]
fn add_lines(block: &Block, level: u32, into: &mut Vec<u8>) -> Result<(), NoMemory>
    ensures { Writes result into.old.items into.new.items (layout (block_lines level (block_of block.now))) }
{
    'stmts: for stmt in &block.stmts {
        add_statement(stmt, level, into)?;
    }
    Ok(())
}

/// Adds the lines of a block at a level: three spaces a level, at most thirty. After `NoMemory` `into` is as it was.
pub fn print_block(
    alloc: Global,
    block: &Block,
    level: u32,
    into: &mut Vec<u8>,
) -> Result<(), NoMemory>
    ensures { Prints result into.old.items into.new.items (layout (block_lines level (block_of block.now))) }
{
    let mut text = Vec::new(alloc);
    add_lines(block, level, &mut text)?;
    put(into, &text)
}
