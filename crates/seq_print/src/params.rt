ghost use Rattle.seq_print.specs.Printing.{Writes, param_text, params_more, params_text};

use crate::puts::{put, put_name};
use seq_tree::{Mode, NoMemory, Param};

/// Adds a parameter.
fn add_param(param: &Param, into: &mut Vec<u8>) -> Result<(), NoMemory>
    ensures { Writes result into.old.items into.new.items (param_text param.now) }
{
    match param.mode {
        Mode::In => put_name(into, b"", &param.name, b" : in word"),
        Mode::Out => put_name(into, b"", &param.name, b" : out word"),
    }
}

/// Adds further parameters, each behind a semicolon.
fn add_more(params: &[Param], into: &mut Vec<u8>) -> Result<(), NoMemory>
    ensures { Writes result into.old.items into.new.items (params_more params.now) }
{
    'params: for param in params {
        put(into, b"; ")?;
        add_param(param, into)?;
    }
    Ok(())
}

/// Adds parameters in parentheses, where there are any, with a space before them; for want of memory a part of them may have been added.
pub fn put_params(params: &[Param], into: &mut Vec<u8>) -> Result<(), NoMemory>
    ensures { Writes result into.old.items into.new.items (params_text params.now) }
{
    match params.split_first() {
        None => Ok(()),
        Some((first, rest)) => {
            put(into, b" (")?;
            add_param(first, into)?;
            add_more(rest, into)?;
            put(into, b")")
        }
    }
}
