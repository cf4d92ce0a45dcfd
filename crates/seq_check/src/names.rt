ghost use Rattle.std.specs.Prelude.{◌≡◌, ◌&&◌, ◌||◌, OnOk, map};
ghost use Rattle.std.specs.List.{list_any};
ghost use Rattle.seq_tree.specs.Names.{Name as NameTree, is_named, same_name};
ghost use Rattle.seq_tree.specs.Operations.{is_out};
ghost use Rattle.name_sets.specs.Sets.{has};

use crate::actuals::is_out;
use name_sets::Names;
use seq_tree::{Datum, NoMemory, Param};

/// Adds the names of data to a set.
pub(crate) fn add_vars<'a>(set: &mut Names<'a>, vars: &'a [Datum]) -> Result<(), NoMemory>
    ensures { OnOk result ((n : NameTree) → has set.new n ≡ (is_named (map (λ d. d.name) vars.entry.now) n || has set.old n)) }
{
    'vars: for datum in vars {
        set.add(&datum.name)?;
    }
    Ok(())
}

/// Adds the names of parameters to a set.
pub(crate) fn add_params<'a>(set: &mut Names<'a>, params: &'a [Param]) -> Result<(), NoMemory>
    ensures { OnOk result ((n : NameTree) → has set.new n ≡ (is_named (map (λ q. q.name) params.entry.now) n || has set.old n)) }
{
    'params: for param in params {
        set.add(&param.name)?;
    }
    Ok(())
}

/// Adds the name of a parameter to a set, where it hands a value out.
fn add_out<'a>(set: &mut Names<'a>, param: &'a Param) -> Result<(), NoMemory>
    ensures { OnOk result ((n : NameTree) → has set.new n ≡ ((is_out param.entry.now.mode && same_name param.entry.now.name n) || has set.old n)) }
{
    if is_out(param.mode) {
        set.add(&param.name)?;
    }
    Ok(())
}

/// Adds the names of the parameters that hand values out to a set.
pub(crate) fn add_outs<'a>(set: &mut Names<'a>, params: &'a [Param]) -> Result<(), NoMemory>
    ensures { OnOk result ((n : NameTree) → has set.new n ≡ (list_any (λ q. is_out q.mode && same_name q.name n) params.entry.now || has set.old n)) }
{
    'params: for param in params {
        add_out(set, param)?;
    }
    Ok(())
}
