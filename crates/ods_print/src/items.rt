ghost use Rattle.std.specs.Prelude.{List};
ghost use Rattle.seq_print.specs.Printing.{Writes};
ghost use Rattle.ods_tree.specs.Layout.{design_line_text};
ghost use Rattle.ods_tree.specs.Spelling.{Part, attribute_line, datum_line, line, link_line, needed_line, provided_line};
ghost use Rattle.ods_tree.specs.Trees.{provided_of};

use crate::words::{constraint_text, key_text, unit_text};
use ods_tree::{Attr, Link, Provided};
use seq_print::{put, put_indent, put_name, put_number, put_params};
use seq_tree::{Datum, NoMemory, OpName};

/// What stands on a line of its own in a section.
pub(crate) trait Item {
    /// The parts of its line.
    ghost parts: { Self → List Part };

    /// Adds the line of the item.
    fn add(&self, level: u32, into: &mut Vec<u8>) -> Result<(), NoMemory>
        ensures { Writes result into.old.items into.new.items (design_line_text (line level (parts self.now))) };
}

impl Item for Attr {
    ghost parts = { λ a. (attribute_line 0 a).parts };

    fn add(&self, level: u32, into: &mut Vec<u8>) -> Result<(), NoMemory> {
        put_indent(into, level)?;
        put(into, key_text(self.key))?;
        put_number(into, b" = ", self.value, b"")?;
        put(into, unit_text(self.unit))?;
        put(into, b";\n")
    }
}

impl Item for OpName {
    ghost parts = { λ o. (needed_line 0 o).parts };

    fn add(&self, level: u32, into: &mut Vec<u8>) -> Result<(), NoMemory> {
        put_indent(into, level)?;
        put_name(into, b"", &self.object, b".")?;
        put_name(into, b"", &self.op, b";\n")
    }
}

impl Item for Datum {
    ghost parts = { λ d. (datum_line 0 d).parts };

    fn add(&self, level: u32, into: &mut Vec<u8>) -> Result<(), NoMemory> {
        put_indent(into, level)?;
        put_name(into, b"", &self.name, b" : word := ")?;
        put_number(into, b"", self.value, b";\n")
    }
}

impl Item for Link {
    ghost parts = { λ l. (link_line 0 l).parts };

    fn add(&self, level: u32, into: &mut Vec<u8>) -> Result<(), NoMemory> {
        put_indent(into, level)?;
        put_name(into, b"", &self.op, b" BY ")?;
        put_name(into, b"", &self.to.object, b".")?;
        put_name(into, b"", &self.to.op, b";\n")
    }
}

impl Item for Provided {
    ghost parts = { λ p. (provided_line 0 (provided_of p)).parts };

    fn add(&self, level: u32, into: &mut Vec<u8>) -> Result<(), NoMemory> {
        put_indent(into, level)?;
        put(into, self.sig.name.bytes())?;
        put_params(&self.sig.params, into)?;
        put(into, constraint_text(self.constraint))?;
        put(into, b";\n")
    }
}
