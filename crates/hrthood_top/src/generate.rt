ghost use Rattle.std.specs.Prelude.{IfOk};
ghost use Rattle.hood_io.specs.Causes.{HasCause};
ghost use Rattle.hood_io.specs.Sinks.{Puts};
ghost use Rattle.bridge.specs.Delivers.{IsDelivered, IsTextFor};
ghost use Rattle.hrthood_top.specs.Generates.{generate_line, RefusesDesign};
ghost use Rattle.hrthood_top.specs.Writing.{IsMade};

use crate::design_lines::put_miss;
use crate::line::Line;
use bridge::{Delivery, Halt, Refusal, Untaken, deliver};
use hood_io::{Failed, Sink, put_all};
use rt_response::Miss;
use seq_tree::Name;
use std::alloc::Global;

/// Why no Ada text is made of a design.
#[derive(Drop, Debug)]
pub enum GenerateRefusal {
    /// The bytes are not the text of a design, or the design breaks a rule.
    Untaken(Untaken),
    /// A thread has a value over its limit, so that no bounds can be given.
    Miss {
        /// The thread.
        thread: Name,
        /// The value and the limit, in ticks.
        miss: Miss,
    },
    /// The text that is to be made has more bytes than an Ada text may have.
    Long,
}

impl Line for GenerateRefusal {
    ghost line = { generate_line };

    fn put<E: Sink>(&self, err: &mut E) -> Result<(), Failed>
        ensures cause { HasCause (E.faults err.old) (E.faults err.new) result }
        ensures puts { Puts (E.written err.old) (E.written err.new) (generate_line self.now) result }
    {
        match self {
            GenerateRefusal::Untaken(refusal) => refusal.put(err),
            GenerateRefusal::Miss { thread, miss } => put_miss(err, thread, miss),
            GenerateRefusal::Long => put_all(err, b"refused S3 text\n"),
        }
    }
}

/// What is delivered of the text of a design: its Ada text, with bounds and ceilings.
pub(crate) fn deliver_design(
    alloc: Global,
    design: &[u8],
) -> Result<Delivery, Halt<GenerateRefusal>>
    ensures delivered { IfOk result (IsDelivered design.now) }
    ensures made { IsMade (λ d. d.text.items) (IsTextFor design.now) (RefusesDesign design.now) result }
{
    match deliver(alloc, design) {
        Ok(delivery) => Ok(delivery),
        Err(Refusal::Text(fault)) => Err(Halt::Refused(GenerateRefusal::Untaken(Untaken::Text(
            fault,
        )))),
        Err(Refusal::Rule(broken)) => Err(Halt::Refused(GenerateRefusal::Untaken(Untaken::Rule(
            broken,
        )))),
        Err(Refusal::Miss { thread, miss }) => {
            Err(Halt::Refused(GenerateRefusal::Miss { thread, miss }))
        }
        Err(Refusal::Long) => Err(Halt::Refused(GenerateRefusal::Long)),
        Err(Refusal::NoMemory) => Err(Halt::NoMemory),
    }
}

/// What is made of the text of a design.
pub(crate) fn generate_text(alloc: Global, design: &[u8]) -> Result<Vec<u8>, Halt<GenerateRefusal>>
    ensures { IsMade (λ v. v.items) (IsTextFor design.now) (RefusesDesign design.now) result }
{
    match deliver_design(alloc, design) {
        Ok(delivery) => {
            let Delivery { text, .. } = delivery;
            Ok(text)
        }
        Err(why) => Err(why),
    }
}
