ghost use Rattle.hood_io.specs.Causes.{HasCause};
ghost use Rattle.hood_io.specs.Sinks.{Puts};
ghost use Rattle.hrthood_top.specs.Streaming.{violation_of};
ghost use Rattle.hrthood_top.specs.Violations.{violation_line};

use crate::line::{Line, put_each};
use hood_io::{Failed, Sink};
use itoa::Buffer;
use seq_tree::Name;

/// A ceiling that was violated, at which a run stopped: at a time in ticks, a task called an object with an active priority above the
/// object's ceiling.
#[derive(Drop)]
pub(crate) struct Violation<'a> {
    pub time: u64,
    pub task: &'a Name,
    pub object: &'a Name,
    pub priority: u32,
    pub ceiling: u32,
}

/// How a run ended.
#[derive(Drop)]
pub(crate) enum Ending<'a> {
    /// It came to the horizon.
    Horizon,
    /// It stopped at a ceiling.
    Stopped(Violation<'a>),
}

impl<'a> Line for Violation<'a> {
    ghost line = { λ v. violation_line (violation_of v) };

    fn put<E: Sink>(&self, err: &mut E) -> Result<(), Failed>
        ensures cause { HasCause (E.faults err.old) (E.faults err.new) result }
        ensures puts { Puts (E.written err.old) (E.written err.new) (violation_line (violation_of self.now)) result }
    {
        let mut time = Buffer::new();
        let mut priority = Buffer::new();
        let mut ceiling = Buffer::new();
        put_each(
            err,
            &[
                b"refused C1 time ".as_slice(),
                time.format(self.time).as_bytes(),
                b" task ".as_slice(),
                self.task.bytes(),
                b" object ".as_slice(),
                self.object.bytes(),
                b" priority ".as_slice(),
                priority.format(self.priority).as_bytes(),
                b" ceiling ".as_slice(),
                ceiling.format(self.ceiling).as_bytes(),
                b"\n".as_slice(),
            ],
        )
    }
}
