ghost use Rattle.std.specs.Prelude.{◌≡◌, IfOk};
ghost use Rattle.seq_print.specs.Printing.{Writes};
ghost use Rattle.ods_tree.specs.Layout.{design_text};
ghost use Rattle.ods_tree.specs.Spelling.{cost_lines, head_lines, priority_lines};
ghost use Rattle.ods_tree.specs.Trees.{design_of};
ghost use Rattle.ods_print.specs.Parts.{lines_text};

use crate::nodes::add_node;
use crate::words::unit_text;
use ods_tree::{Design, VersionTwo};
use seq_print::{put, put_name, put_number};
use seq_tree::{Costs, Name, NoMemory};
use std::alloc::Global;

/// Adds the line of the priorities, where they are stated.
fn add_priorities(priorities: Option<(u32, u32)>, into: &mut Vec<u8>) -> Result<(), NoMemory>
    ensures { Writes result into.old.items into.new.items (lines_text (priority_lines priorities)) }
{
    match priorities {
        None => Ok(()),
        Some((low, high)) => {
            put_number(into, b"   PRIORITIES ", low, b" .. ")?;
            put_number(into, b"", high, b";\n")
        }
    }
}

/// Adds what a design begins with, by its version.
fn add_head(name: &Name, version: &Option<VersionTwo>, into: &mut Vec<u8>) -> Result<(), NoMemory>
    ensures { Writes result into.old.items into.new.items (lines_text (head_lines name.now version.now)) }
{
    match version {
        None => {
            put_name(into, b"DESIGN ", name, b" IS\n")?;
            Ok(())
        }
        Some(two) => {
            put_name(into, b"DESIGN ", name, b"")?;
            put_number(into, b" VERSION ", 2, b" IS\n")?;
            put_number(into, b"   TICK = ", two.tick, b"")?;
            put(into, unit_text(Some(two.unit)))?;
            put(into, b";\n")?;
            add_priorities(two.priorities, into)
        }
    }
}

/// Adds the costs of statements.
fn add_costs(costs: &Costs, into: &mut Vec<u8>) -> Result<(), NoMemory>
    ensures { Writes result into.old.items into.new.items (lines_text (cost_lines costs.now)) }
{
    put(into, b"   COSTS\n")?;
    put_number(into, b"      ASSIGN = ", costs.assign, b";\n")?;
    put_number(into, b"      TEST = ", costs.test, b";\n")?;
    put_number(into, b"      TURN = ", costs.turn, b";\n")?;
    put_number(into, b"      CALL = ", costs.call, b";\n")?;
    put_number(into, b"      NULL = ", costs.nothing, b";\n")?;
    put_number(into, b"      PUT = ", costs.put, b";\n")?;
    put_number(into, b"      FINISH = ", costs.finish, b";\n")?;
    put(into, b"   END COSTS;\n")
}

/// The text of a design, as it is read again where the design is proper: the words of its skeleton in capitals, everything else
/// in lower case, one item a line, three spaces a level, at most thirty. No rules are checked. `NoMemory` comes for want of
/// memory alone.
pub fn format(alloc: Global, design: &Design) -> Result<Vec<u8>, NoMemory>
    ensures { IfOk result (λ text. text.items ≡ design_text (design_of design.now)) }
{
    let mut text = Vec::new(alloc);
    add_head(&design.name, &design.version, &mut text)?;
    add_costs(&design.costs, &mut text)?;
    add_node(alloc, &design.root, 1, &mut text)?;
    put_name(&mut text, b"END ", &design.name, b";\n")?;
    Ok(text)
}
