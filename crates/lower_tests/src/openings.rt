//! The queues of a machine at the opening of a run, and on its way.

ghost use Rattle.std.specs.Prelude.{◌≡◌, false};
ghost use Rattle.ceil_runtime.specs.Shown.{IsWhole, running_of};

use super::looks::check_that;
use ada_read::read_ada;
use arrivals_read::read_arrivals;
use ceil_runtime::{EventBuf, Machine, Turn};
use link_queue::Links;
use std::process::Abort;
use std::test::Fail;

/// Three tasks and two protected objects with the ceiling 3, of which `x` enters both: `x` has the priority 3 and the offset 2, `y` 2 and
/// 4, and `z` 1 and 0.
pub(crate) const TWO_OBJECTS: &str = "pragma task_dispatching_policy (fifo_within_priorities);
pragma locking_policy (ceiling_locking);
with ada.real_time;
package hrt is
   type word is mod 2 ** 32;
   subtype moment is ada.real_time.time;
   assign_cost : constant := 1;
   test_cost : constant := 1;
   turn_cost : constant := 1;
   call_cost : constant := 2;
   null_cost : constant := 1;
   put_cost : constant := 1;
   finish_cost : constant := 1;
   function epoch return moment;
   function after (start : moment; ticks : natural) return moment;
   procedure work (ticks : positive);
   procedure put (value : word);
   procedure activation_end;
end hrt;
with hrt;
use hrt;
package d is
   package q1 is
      protected hrt_object is
         pragma priority (3);
         procedure set;
      private
      end hrt_object;
      procedure set renames hrt_object.set;
   end q1;
   package q2 is
      protected hrt_object is
         pragma priority (3);
         procedure set;
      private
      end hrt_object;
      procedure set renames hrt_object.set;
   end q2;
   package x is
      task hrt_thread is
         pragma priority (3);
      end hrt_thread;
   end x;
   package y is
      task hrt_thread is
         pragma priority (2);
      end hrt_thread;
   end y;
   package z is
      task hrt_thread is
         pragma priority (1);
      end hrt_thread;
   end z;
end d;
package body d is
   package body q1 is
      protected body hrt_object is
         procedure set is
         begin
            work (2);
         end set;
      end hrt_object;
   end q1;
   package body q2 is
      protected body hrt_object is
         procedure set is
         begin
            work (2);
         end set;
      end hrt_object;
   end q2;
   package body x is
      task body hrt_thread is
         hrt_next : hrt.moment := hrt.after (hrt.epoch, 2);
      begin
         loop
            delay until hrt_next;
            hrt_next := hrt.after (hrt_next, 40);
            q1.set;
            q2.set;
            activation_end;
         end loop;
      end hrt_thread;
   end x;
   package body y is
      task body hrt_thread is
         hrt_next : hrt.moment := hrt.after (hrt.epoch, 4);
      begin
         loop
            delay until hrt_next;
            hrt_next := hrt.after (hrt_next, 40);
            q2.set;
            activation_end;
         end loop;
      end hrt_thread;
   end y;
   package body z is
      task body hrt_thread is
         hrt_next : hrt.moment := hrt.after (hrt.epoch, 0);
      begin
         loop
            delay until hrt_next;
            hrt_next := hrt.after (hrt_next, 40);
            q1.set;
            activation_end;
         end loop;
      end hrt_thread;
   end z;
end d;
with d;
procedure hrt_main is
begin
   null;
end hrt_main;
";

/// The events of a run, and what the queues show first behind each: the first ready task, by its place among the tasks, with its active
/// priority, and the time of the next to wake. In the effects of a task, where it stands in neither list, the machine promises nothing of
/// the ready list.
const FIRST: &str = "release z: Some((2, 1)) Some(2)
    enter z q1.set: in effects
    release x: Some((2, 3)) Some(4)
    leave z q1.set: in effects
    release y: Some((0, 3)) None
    enter x q1.set: in effects
    leave x q1.set: in effects
    enter x q2.set: in effects
    leave x q2.set: in effects
    end x: Some((1, 2)) Some(42)
    enter y q2.set: in effects
    leave y q2.set: in effects
    end y: Some((2, 1)) Some(42)
    end z: None Some(40)";

/// What the queues show first.
fn first(rt: &HostRuntime, queues: &Links) -> Result<String, Fail> {
    let text = format!(in rt.alloc(); "{:?} {:?}", queues.head(), queues.next_wake())?;
    Ok(text)
}

/// Advances a machine from the opening on, and looks at the queues behind each event.
fn walk(rt: &impl Abort, host: &HostRuntime, machine: Machine<'_>) -> Result<(), Fail>
    requires whole { IsWhole machine }
    requires goes_on { (running_of machine).state.stopped ≡ false }
{
    let mut running = machine;
    let mut events = EventBuf::new();
    'lines: for line in FIRST.lines() {
        match running.advance(&mut events) {
            Turn::More => events.clear(),
            Turn::Horizon => panic!(rt; "the run is over before {line}"),
            Turn::CeilingViolation { .. } => panic!(rt; "the run has stopped before {line}"),
        }
        let (_, wanted) = line.split_once(": ").unwrap_or(("", line));
        if wanted != "in effects" {
            let found = first(host, running.queues())?;
            check_that(rt, found.as_str() == wanted, line);
        }
    }
    Ok(())
}

#[test]
fn queues_show_the_ready_and_the_sleeping_tasks(rt: HostRuntime) -> Result<(), Fail> {
    let program = read_ada(rt.alloc(), TWO_OBJECTS.as_bytes())?;
    let arrivals = read_arrivals(rt.alloc(), b"UNTIL 41;", &program)?;
    let machine = Machine::new(rt.alloc(), &program, &arrivals)?;
    // No task is ready at the opening: `z` sleeps until 0, before `x` and `y`.
    let found = first(&rt, machine.queues())?;
    check_that(
        &rt,
        found.as_str() == "None Some(0)",
        "the queues at the opening",
    );
    walk(&rt, &rt, machine)
}
