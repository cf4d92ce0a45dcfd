ghost use Rattle.seq_tree.specs.Layout.{layout};
ghost use Rattle.ada_tree.specs.Spelling.{program_lines};
ghost use Rattle.ada_tree.specs.Trees.{program_of};
ghost use Rattle.seq_print.specs.Printing.{Prints, Writes};
ghost use Rattle.ada_print.specs.Parts.{body_lines, closing_lines, opening_lines, package_lines};

use crate::costs::add_hrt;
use crate::units::{add_specifications, add_unit_bodies};
use ada_tree::AdaProgram;
use seq_print::{put, put_name};
use seq_tree::{Name, NoMemory};
use std::alloc::Global;

/// What the text begins with.
const OPENING: &[u8] = b"pragma task_dispatching_policy (fifo_within_priorities);
pragma locking_policy (ceiling_locking);
with ada.real_time;
";

/// The procedure that the text ends with, behind the name of the program.
const MAIN: &[u8] = b";\nprocedure hrt_main is\nbegin\n   null;\nend hrt_main;\n";

/// Adds what stands before package `hrt`.
fn add_opening(into: &mut Vec<u8>) -> Result<(), NoMemory>
    ensures { Writes result into.old.items into.new.items (layout opening_lines) }
{
    put(into, OPENING)
}

/// Adds what stands between package `hrt` and the specifications of the units.
fn add_package(name: &Name, into: &mut Vec<u8>) -> Result<(), NoMemory>
    ensures { Writes result into.old.items into.new.items (layout (package_lines name.now)) }
{
    put_name(into, b"with hrt;\nuse hrt;\npackage ", name, b" is\n")
}

/// Adds what stands between the specifications of the units and their bodies.
fn add_package_body(name: &Name, into: &mut Vec<u8>) -> Result<(), NoMemory>
    ensures { Writes result into.old.items into.new.items (layout (body_lines name.now)) }
{
    put_name(into, b"end ", name, b";\n")?;
    put_name(into, b"package body ", name, b" is\n")
}

/// Adds what stands behind the bodies of the units.
fn add_closing(name: &Name, into: &mut Vec<u8>) -> Result<(), NoMemory>
    ensures { Writes result into.old.items into.new.items (layout (closing_lines name.now)) }
{
    put_name(into, b"end ", name, b";\n")?;
    put_name(into, b"with ", name, MAIN)
}

/// Adds the lines of a program.
fn add_program(alloc: Global, program: &AdaProgram, into: &mut Vec<u8>) -> Result<(), NoMemory>
    ensures { Writes result into.old.items into.new.items (layout (program_lines (program_of program.now))) }
{
    add_opening(into)?;
    add_hrt(&program.costs, into)?;
    add_package(&program.name, into)?;
    add_specifications(&program.units, into)?;
    add_package_body(&program.name, into)?;
    add_unit_bodies(alloc, &program.units, into)?;
    add_closing(&program.name, into)
}

/// Adds the text of a program: the pragmas, package `hrt` with the costs, the specifications of all units, their bodies in the same
/// order, and the main procedure. No rules are checked. After `NoMemory` `into` is as it was.
pub fn print_ada(alloc: Global, program: &AdaProgram, into: &mut Vec<u8>) -> Result<(), NoMemory>
    ensures { Prints result into.old.items into.new.items (layout (program_lines (program_of program.now))) }
{
    let mut text = Vec::new(alloc);
    add_program(alloc, program, &mut text)?;
    put(into, &text)
}
