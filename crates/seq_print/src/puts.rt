ghost use Rattle.std.specs.Prelude.{◌++◌, decimal};
ghost use Rattle.seq_print.specs.Printing.{Adds, Prints};

use itoa::Buffer;
use seq_tree::{Name, NoMemory};

/// Adds bytes at the end of `into`; `NoMemory` leaves `into` as it was.
pub fn put(into: &mut Vec<u8>, bytes: &[u8]) -> Result<(), NoMemory>
    ensures { Prints result into.old.items into.new.items bytes.now }
{
    into.extend_from_slice(bytes)?;
    Ok(())
}

/// Adds the digits of a number; `NoMemory` leaves `into` as it was.
pub fn put_digits(into: &mut Vec<u8>, n: u32) -> Result<(), NoMemory>
    ensures { Prints result into.old.items into.new.items (decimal n) }
{
    let mut buffer = Buffer::new();
    put(into, buffer.format(n).as_bytes())
}

/// Adds a name between other bytes; for want of memory a front of them may have been added.
#[tactic(auto, using(crate::proofs::Shared::Chains::adding))]
pub fn put_name(
    into: &mut Vec<u8>,
    before: &[u8],
    name: &Name,
    behind: &[u8],
) -> Result<(), NoMemory>
    ensures { Adds result into.old.items into.new.items (before.now ++ (name.now ++ behind.now)) }
{
    put(into, before)?;
    put(into, name.bytes())?;
    put(into, behind)
}

/// Adds the digits of a number between other bytes; for want of memory a front of them may have been added.
#[tactic(auto, using(crate::proofs::Shared::Chains::adding))]
pub fn put_number(into: &mut Vec<u8>, before: &[u8], n: u32, behind: &[u8]) -> Result<(), NoMemory>
    ensures { Adds result into.old.items into.new.items (before.now ++ (decimal n ++ behind.now)) }
{
    put(into, before)?;
    put_digits(into, n)?;
    put(into, behind)
}
