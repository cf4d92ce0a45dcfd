ghost use Rattle.std.specs.Prelude.{◌<◌, length};
ghost use Rattle.seq_tree.specs.Proper.{within_limits};
ghost use Rattle.ods_tree.specs.Proper.{IsProperDesign};
ghost use Rattle.ods_tree.specs.Trees.{design_of};
ghost use Rattle.ods_tree.specs.Walk.{objects};
ghost use Rattle.ods_tree.specs.Words.{is_design_name};
ghost use Rattle.background.specs.Delivers.{DeliversBackground};

use crate::delivery::{Background, BackgroundRefusal};
use crate::hardening::harden;
use crate::making::make;
use crate::misfits::misfits_fit;
use ods_forms::{first_bad_version, set_ticks};
use ods_rules::check;
use ods_tree::Design;
use std::alloc::Global;

/// The Ada text of a design with background objects, with the bounds of its hard threads and its ceilings.
///
/// Active objects without children are clients and servers. A client's thread starts again as soon as it ends, at a priority below those of
/// all hard threads, and clients take turns activation by activation; a server's operation is run to its end for one caller at a time. For
/// all arrivals that keep the separations of the hard threads no run of the text stops, no object is ever inside two operations, all threads
/// do as they are written, and each activation of a hard thread whose bound falls within the horizon ends within it. The bounds count the
/// sections of clients as blocking.
///
/// What fails first is told: V17 (`Broken`); A1 to A5 (`Rule`); V01 to V16 of the design with its clients as cyclic objects and its servers as
/// protected ones (`Broken`); A6 (`Rule`); a hard thread with a value over its limit (`Miss`); a text of over 16,777,216 bytes (`Long`). Of
/// each the first is told, by number, then in flattened order and order of writing. `NoMemory` may come wherever memory is asked for. The
/// design is given up in each case.
///
/// The design is one that a text can have, and has fewer than 4,294,967,296 objects.
pub fn deliver_background(alloc: Global, design: Design) -> Result<Background, BackgroundRefusal>
    requires proper { IsProperDesign (within_limits is_design_name) (design_of design) }
    requires few { length (objects (design_of design)) < 4294967296 }
    ensures { DeliversBackground (design_of design) result }
{
    let mut design = design;
    first_bad_version(alloc, &design)?;
    set_ticks(&mut design);
    misfits_fit(alloc, &design)?;
    harden(alloc, &mut design)?;
    let checked = check(alloc, design)?;
    make(alloc, &checked)
}
