ghost use Rattle.hood_io.specs.Causes.{HasCause};
ghost use Rattle.hood_io.specs.Sinks.{Puts};
ghost use Rattle.hrthood_top.specs.Backgrounds.{IsBackgroundTextFor, RefusesBackground, background_line};
ghost use Rattle.hrthood_top.specs.Writing.{IsMade};

use crate::design_lines::{put_misfit, put_miss, put_rule};
use crate::file_kind::FileKind;
use crate::line::Line;
use crate::text_lines::put_fault;
use background::{Background, BackgroundRefusal as Refusal, BackgroundRule, deliver_background};
use bridge::Halt;
use hood_io::{Failed, Sink, put_all};
use ods_read::read_design;
use ods_rules::Broken;
use rt_response::Miss;
use seq_tree::{Name, TextFault};
use std::alloc::Global;

/// Why no Ada text is made of a design with background objects.
#[derive(Drop, Debug)]
pub enum BackgroundRefusal {
    /// The bytes are not the text of a design, for this reason and at this place.
    Text(TextFault),
    /// The background objects of the design are wrong so.
    Rule(BackgroundRule),
    /// The version of the design or its hard part breaks this rule; never for want of memory.
    Broken(Broken),
    /// A hard thread has a value over its limit, so that no bounds can be given.
    Miss {
        /// The thread.
        thread: Name,
        /// The value and the limit, in ticks.
        miss: Miss,
    },
    /// The text that is to be made has more bytes than an Ada text may have.
    Long,
}

impl Line for BackgroundRefusal {
    ghost line = { background_line };

    fn put<E: Sink>(&self, err: &mut E) -> Result<(), Failed>
        ensures cause { HasCause (E.faults err.old) (E.faults err.new) result }
        ensures puts { Puts (E.written err.old) (E.written err.new) (background_line self.now) result }
    {
        match self {
            BackgroundRefusal::Text(fault) => put_fault(err, FileKind::Design, *fault),
            BackgroundRefusal::Rule(rule) => put_misfit(err, rule),
            BackgroundRefusal::Broken(broken) => put_rule(err, broken),
            BackgroundRefusal::Miss { thread, miss } => put_miss(err, thread, miss),
            BackgroundRefusal::Long => put_all(err, b"refused S3 text\n"),
        }
    }
}

/// What is made of the text of a design with background objects.
#[tactic(auto, using(crate::proofs::BackgroundLaws::background_made))]
pub(crate) fn make_background(
    alloc: Global,
    design: &[u8],
) -> Result<Vec<u8>, Halt<BackgroundRefusal>>
    ensures { IsMade (λ v. v.items) (IsBackgroundTextFor design.now) (RefusesBackground design.now) result }
{
    let read = match read_design(alloc, design) {
        Ok(read) => read,
        Err(TextFault::NoMemory) => return Err(Halt::NoMemory),
        Err(fault) => return Err(Halt::Refused(BackgroundRefusal::Text(fault))),
    };
    match deliver_background(alloc, read) {
        Ok(made) => {
            let Background { text, .. } = made;
            Ok(text)
        }
        Err(Refusal::Rule(rule)) => Err(Halt::Refused(BackgroundRefusal::Rule(rule))),
        Err(Refusal::Broken(broken)) => Err(Halt::Refused(BackgroundRefusal::Broken(broken))),
        Err(Refusal::Miss { thread, miss }) => {
            Err(Halt::Refused(BackgroundRefusal::Miss { thread, miss }))
        }
        Err(Refusal::Long) => Err(Halt::Refused(BackgroundRefusal::Long)),
        Err(Refusal::NoMemory) => Err(Halt::NoMemory),
    }
}
