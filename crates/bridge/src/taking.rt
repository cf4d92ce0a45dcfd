ghost use Rattle.bridge.specs.Taking.{Takes};

use crate::halt::Halt;
use ods_read::read_design;
use ods_rules::{Broken, Checked, check};
use seq_tree::TextFault;
use std::alloc::Global;

/// Why bytes are not taken as a design.
#[derive(Drop, Debug)]
pub enum Untaken {
    /// They are not the text of a design, for this reason and at this place; never for want of memory.
    Text(TextFault),
    /// The design breaks this rule first; never for want of memory.
    Rule(Broken),
}

/// The design that the bytes are, with its times in ticks, where it meets the rules: it is read, and its rules are checked. `NoMemory`
/// may come wherever memory is asked for.
pub fn take(alloc: Global, design: &[u8]) -> Result<Checked, Halt<Untaken>>
    ensures { Takes design.now result }
{
    let read = match read_design(alloc, design) {
        Ok(read) => read,
        Err(TextFault::NoMemory) => return Err(Halt::NoMemory),
        Err(fault) => return Err(Halt::Refused(Untaken::Text(fault))),
    };
    match check(alloc, read) {
        Ok(checked) => Ok(checked),
        Err(broken) => {
            if broken.is_memory() {
                return Err(Halt::NoMemory);
            }
            Err(Halt::Refused(Untaken::Rule(broken)))
        }
    }
}
