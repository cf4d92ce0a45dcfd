ghost use Rattle.hood_io.specs.Causes.{HasCause};
ghost use Rattle.hood_io.specs.Sinks.{Puts};
ghost use Rattle.ods_rules.specs.Checks.{checked_design};
ghost use Rattle.ods_tree.specs.Flattening.{flat};
ghost use Rattle.analysis.specs.Sound.{IsSound};
ghost use Rattle.scaling.specs.Margins.{Scales};
ghost use Rattle.hrthood_top.specs.Scales.{IsScaled, RefusesScale, scale_line};
ghost use Rattle.hrthood_top.specs.Writing.{IsMade};

use crate::design_lines::put_miss;
use crate::line::Line;
use crate::margin::margin_lines;
use bridge::{Halt, Untaken, take};
use hood_io::{Failed, Sink};
use ods_flat::flatten;
use ods_rules::Checked;
use rt_order::order;
use rt_response::Miss;
use scaling::{Margin, ScaleFault, scale as scale_flat};
use seq_tree::{Name, NoMemory};
use std::alloc::Global;

/// Why no margin of a design is told.
#[derive(Drop, Debug)]
pub enum ScaleRefusal {
    /// The bytes are not the text of a design, or the design breaks a rule.
    Untaken(Untaken),
    /// A thread has a value over its limit where all `work` is at one per mille already.
    Miss {
        /// The thread.
        thread: Name,
        /// The value and the limit, in ticks.
        miss: Miss,
    },
}

impl Line for ScaleRefusal {
    ghost line = { scale_line };

    fn put<E: Sink>(&self, err: &mut E) -> Result<(), Failed>
        ensures cause { HasCause (E.faults err.old) (E.faults err.new) result }
        ensures puts { Puts (E.written err.old) (E.written err.new) (scale_line self.now) result }
    {
        match self {
            ScaleRefusal::Untaken(refusal) => refusal.put(err),
            ScaleRefusal::Miss { thread, miss } => put_miss(err, thread, miss),
        }
    }
}

/// The margin of a design that meets the rules.
fn margin_of(alloc: Global, checked: &Checked) -> Result<Margin, ScaleFault>
    requires { IsSound (flat (checked_design checked.now)) }
    ensures { Scales (flat (checked_design checked.now)) result }
{
    let flat = flatten(alloc, checked)?;
    let order = order(alloc, &flat)?;
    scale_flat(alloc, &flat, &order)
}

/// What is told of the text of a design: its margin.
#[tactic(auto, using(crate::proofs::ScaleLaws::scale_laws))]
pub(crate) fn scale_text(alloc: Global, design: &[u8]) -> Result<Vec<u8>, Halt<ScaleRefusal>>
    ensures { IsMade (λ v. v.items) (IsScaled design.now) (RefusesScale design.now) result }
{
    let checked = match take(alloc, design) {
        Ok(checked) => checked,
        Err(Halt::Refused(refusal)) => return Err(Halt::Refused(ScaleRefusal::Untaken(refusal))),
        Err(Halt::NoMemory) => return Err(Halt::NoMemory),
    };
    match margin_of(alloc, &checked) {
        Ok(margin) => match margin_lines(alloc, &margin) {
            Ok(lines) => Ok(lines),
            Err(NoMemory) => Err(Halt::NoMemory),
        },
        Err(ScaleFault::Miss { thread, miss }) => {
            Err(Halt::Refused(ScaleRefusal::Miss { thread, miss }))
        }
        Err(ScaleFault::NoMemory) => Err(Halt::NoMemory),
    }
}
