ghost use Rattle.seq_tree.specs.Layout.{layout, line_text};
ghost use Rattle.ada_tree.specs.Spelling.{constant_line, hrt_lines};
ghost use Rattle.seq_print.specs.Printing.{Writes};

use seq_print::{put, put_number};
use seq_tree::{Costs, NoMemory};

/// What package `hrt` declares before the costs.
const TYPES: &[u8] =
    b"package hrt is\n   type word is mod 2 ** 32;\n   subtype moment is ada.real_time.time;\n";

/// What package `hrt` declares behind the costs.
const CALLS: &[u8] = b"   function epoch return moment;
   function after (start : moment; ticks : natural) return moment;
   procedure work (ticks : positive);
   procedure put (value : word);
   procedure activation_end;
end hrt;
";

/// Adds the line of a cost.
fn put_cost(into: &mut Vec<u8>, name: &[u8], cost: u32) -> Result<(), NoMemory>
    ensures { Writes result into.old.items into.new.items (line_text (constant_line 1 name.now cost)) }
{
    put(into, b"   ")?;
    put(into, name)?;
    put_number(into, b" : constant := ", cost, b";\n")
}

/// Adds package `hrt` with these costs.
pub(crate) fn add_hrt(costs: &Costs, into: &mut Vec<u8>) -> Result<(), NoMemory>
    ensures { Writes result into.old.items into.new.items (layout (hrt_lines costs.now)) }
{
    put(into, TYPES)?;
    put_cost(into, b"assign_cost", costs.assign)?;
    put_cost(into, b"test_cost", costs.test)?;
    put_cost(into, b"turn_cost", costs.turn)?;
    put_cost(into, b"call_cost", costs.call)?;
    put_cost(into, b"null_cost", costs.nothing)?;
    put_cost(into, b"put_cost", costs.put)?;
    put_cost(into, b"finish_cost", costs.finish)?;
    put(into, CALLS)
}
