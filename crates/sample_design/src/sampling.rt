ghost use Rattle.std.specs.Prelude.{◌≡◌, ◌≤◌, IfOk};
ghost use Rattle.ods_tree.specs.Layout.{design_text};
ghost use Rattle.sample_design.specs.Requests.{sample_arrivals};
ghost use Rattle.sample_design.specs.Samples.{sample_design};

use crate::requests::arrivals;
use crate::threads::plant;
use ods_print::format;
use ods_tree::Design;
use seq_tree::{Costs, Name, NoMemory};
use std::alloc::Global;

/// A design as it is written, and arrivals for it.
#[derive(Drop, Debug)]
pub struct SampleTexts {
    /// The text of the design.
    pub design: Vec<u8>,
    /// The text of the arrivals.
    pub arrivals: Vec<u8>,
}

/// The sample of so many threads, from 1 to 30: the text of a design in which each second thread is requested from outside, and that
/// of arrivals that request it as often as it allows, up to 10,000 ticks. `NoMemory` comes for want of memory alone.
pub fn sample(alloc: Global, n: u32) -> Result<SampleTexts, NoMemory>
    requires { (1 ≤ n) × (n ≤ 30) }
    ensures design { IfOk result (λ s. s.design.items ≡ design_text (sample_design n)) }
    ensures arrivals { IfOk result (λ s. s.arrivals.items ≡ sample_arrivals n) }
{
    let design = Design {
        name: Name::folded(alloc, b"sample")?,
        version: None,
        costs: Costs {
            assign: 1,
            test: 1,
            turn: 1,
            call: 2,
            nothing: 1,
            put: 1,
            finish: 1,
        },
        root: plant(alloc, n)?,
    };
    Ok(SampleTexts {
        design: format(alloc, &design)?,
        arrivals: arrivals(alloc, n)?,
    })
}
