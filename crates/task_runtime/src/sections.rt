ghost use Rattle.std.specs.Prelude.{◌≡◌, ◌<◌, length, nat_lt, vec_capacity};

use crate::inside::{Held, Section};
use crate::readiness::Gate;
use crate::task::Task;

impl<'a> Task<'a> {
    ghost use Rattle.machine.specs.Effects.{inside_now, outside_now};
    ghost use Rattle.task_runtime.specs.Insides.{resource_of};
    ghost use Rattle.task_runtime.specs.Tasks.{task_of};
    ghost use Rattle.task_runtime.specs.Works.{kept_value, opened_now};

    /// The entry into a section: the active priority is its ceiling until the exit.
    pub fn go_inside(&mut self, section: Section, ceiling: u32)
        requires { length self.old.inside.items < vec_capacity self.old.inside }
        ensures task { task_of self.new ≡ inside_now (resource_of section) ceiling (task_of self.old) }
        ensures progress { self.new.progress ≡ self.old.progress }
    {
        let before = self.active;
        self.inside.push_reserved(Held { section, before });
        self.active = ceiling;
    }

    /// Whether the active priority is above a ceiling: the task must not enter the section then.
    pub fn is_above(&self, ceiling: u32) -> bool
        ensures { result ≡ nat_lt ceiling self.now.active }
    {
        self.active > ceiling
    }

    /// The exit from the section that was entered last: the active priority is the one from before the entry.
    pub fn go_outside(&mut self)
        ensures task { task_of self.new ≡ outside_now (task_of self.old) }
        ensures progress { self.new.progress ≡ self.old.progress }
    {
        if let Some(held) = self.inside.pop() {
            self.active = held.before;
        }
    }

    /// The value of a request, which replaces one that is kept.
    pub fn keep(&mut self, value: Option<u32>)
        ensures task { task_of self.new ≡ kept_value value (task_of self.old) }
        ensures progress { self.new.progress ≡ self.old.progress }
        ensures same { self.new.readiness ≡ self.old.readiness }
    {
        self.gate = Gate {
            value,
            open: self.gate.open,
        };
    }

    /// The control structure opens: the task is released as soon as it waits.
    pub fn open_gate(&mut self)
        ensures task { task_of self.new ≡ opened_now (task_of self.old) }
        ensures progress { self.new.progress ≡ self.old.progress }
        ensures same { self.new.readiness ≡ self.old.readiness }
    {
        self.gate = Gate {
            value: self.gate.value,
            open: true,
        };
    }
}
