ghost use Rattle.std.specs.Prelude.{codes, map};
ghost use Rattle.seq_tree.specs.Layout.{layout, line_text};
ghost use Rattle.seq_tree.specs.Trees.{operation_of, signature_of};
ghost use Rattle.ada_tree.specs.Spelling.{datum_line, declaration_line, renaming_line};
ghost use Rattle.seq_print.specs.Printing.{Writes};
ghost use Rattle.ada_print.specs.Parts.{head_text};

use seq_print::{put, put_indent, put_name, put_number, put_params};
use seq_tree::{Datum, NoMemory, OpSig, OpText};

/// Adds the head of a procedure.
pub(crate) fn add_head(sig: &OpSig, into: &mut Vec<u8>) -> Result<(), NoMemory>
    ensures { Writes result into.old.items into.new.items (head_text (signature_of sig.now)) }
{
    put(into, b"procedure ")?;
    put(into, sig.name.bytes())?;
    put_params(&sig.params, into)
}

/// Adds the declaration of a procedure.
pub(crate) fn add_declaration(sig: &OpSig, level: u32, into: &mut Vec<u8>) -> Result<(), NoMemory>
    ensures { Writes result into.old.items into.new.items (line_text (declaration_line level (signature_of sig.now))) }
{
    put_indent(into, level)?;
    add_head(sig, into)?;
    put(into, b";\n")
}

/// Adds the declarations of procedures.
pub(crate) fn add_declarations(
    ops: &[OpText],
    level: u32,
    into: &mut Vec<u8>,
) -> Result<(), NoMemory>
    ensures { Writes result into.old.items into.new.items (layout (map (λ o. declaration_line level o.sig) (map operation_of ops.now))) }
{
    'ops: for op in ops {
        add_declaration(&op.sig, level, into)?;
    }
    Ok(())
}

/// Adds the name by which a procedure of a protected object is called.
pub(crate) fn add_renaming(sig: &OpSig, object: &[u8], into: &mut Vec<u8>) -> Result<(), NoMemory>
    ensures { Writes result into.old.items into.new.items (line_text (renaming_line 2 object.now (signature_of sig.now))) }
{
    put(into, b"      ")?;
    add_head(sig, into)?;
    put(into, b" renames ")?;
    put(into, object)?;
    put_name(into, b".", &sig.name, b";\n")
}

/// Adds the names by which the procedures of a protected unit are called.
pub(crate) fn add_renamings(ops: &[OpText], into: &mut Vec<u8>) -> Result<(), NoMemory>
    ensures { Writes result into.old.items into.new.items
        (layout (map (λ o. renaming_line 2 (codes "hrt_object") o.sig) (map operation_of ops.now))) }
{
    'ops: for op in ops {
        add_renaming(&op.sig, b"hrt_object", into)?;
    }
    Ok(())
}

/// Adds a variable with its first value.
fn add_datum(datum: &Datum, level: u32, into: &mut Vec<u8>) -> Result<(), NoMemory>
    ensures { Writes result into.old.items into.new.items (line_text (datum_line level datum.now)) }
{
    put_indent(into, level)?;
    put_name(into, b"", &datum.name, b" : word := ")?;
    put_number(into, b"", datum.value, b";\n")
}

/// Adds variables with their first values.
pub(crate) fn add_data(vars: &[Datum], level: u32, into: &mut Vec<u8>) -> Result<(), NoMemory>
    ensures { Writes result into.old.items into.new.items (layout (map (datum_line level) vars.now)) }
{
    'vars: for var in vars {
        add_datum(var, level, into)?;
    }
    Ok(())
}
