ghost use Rattle.bridge.specs.Delivers.{Delivers};

use crate::delivery::{Delivery, Refusal};
use crate::halt::Halt;
use crate::making::make;
use crate::taking::{Untaken, take};
use std::alloc::Global;

/// The Ada text of a design, with bounds and ceilings, from the bytes of the design.
///
/// The design is read, its rules are checked, its bounds are computed, and its text is made, in this order; what fails first is
/// told. The text is guaranteed for the design: for all arrivals that keep the separations, what its program does is allowed by the
/// design, and every activation whose bound falls within the horizon ends within it. `NoMemory` may come wherever memory is asked for.
pub fn deliver(alloc: Global, design: &[u8]) -> Result<Delivery, Refusal>
    ensures { Delivers design.now result }
{
    match take(alloc, design) {
        Ok(checked) => make(alloc, checked),
        Err(Halt::Refused(Untaken::Text(fault))) => Err(Refusal::Text(fault)),
        Err(Halt::Refused(Untaken::Rule(broken))) => Err(Refusal::Rule(broken)),
        Err(Halt::NoMemory) => Err(Refusal::NoMemory),
    }
}
