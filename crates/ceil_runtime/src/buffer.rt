ghost use Rattle.std.specs.Prelude.{◌≡◌, ◌<◌, [], ◌∷◌, ◌++◌, length};

use std::marker::Model;
use trace_tree::Event;

/// What a slot holds before an event is put there.
fn empty() -> Event {
    Event::Horizon { time: 0 }
}

/// Room for 16 events. Contracts see it as the list of the events in it.
#[derive(Drop)]
pub struct EventBuf {
    slots: [Event; 16],
    len: usize,
}

impl Model for EventBuf {
    ghost use Rattle.std.specs.Prelude.{List, ◌≤◌, take};
    ghost use Rattle.trace_tree.specs.declared.event.Event.{Event};

    ghost Value = { List Event };

    ghost view = { λ b. take b.len b.slots };

    ghost invariant = { λ b. b.len ≤ 16 };
}

impl EventBuf {
    /// A buffer without events.
    pub fn new() -> EventBuf
        ensures { result ≡ [] }
    {
        EventBuf {
            slots: [
                empty(),
                empty(),
                empty(),
                empty(),
                empty(),
                empty(),
                empty(),
                empty(),
                empty(),
                empty(),
                empty(),
                empty(),
                empty(),
                empty(),
                empty(),
                empty(),
            ],
            len: 0,
        }
    }

    /// The events, in the order in which they were told.
    pub fn events(&self) -> &[Event]
        ensures { result.now ≡ self.now }
    {
        let (events, _) = self.slots.split_at(self.len);
        events
    }

    /// Forgets the events.
    pub fn clear(&mut self)
        ensures { self.new ≡ [] }
    {
        self.len = 0;
    }

    /// One more event, where there is room for it.
    fn push(&mut self, event: Event)
        requires { length self.old < 16 }
        ensures { self.new ≡ self.old ++ event ∷ [] }
    {
        self.slots[self.len] = event;
        self.len += 1;
    }

    /// Holds this event alone.
    pub(crate) fn tell(&mut self, event: Event)
        ensures { self.new ≡ event ∷ [] }
    {
        self.clear();
        self.push(event);
    }

    /// Holds these two events alone.
    pub(crate) fn tell_both(&mut self, first: Event, second: Event)
        ensures { self.new ≡ first ∷ second ∷ [] }
    {
        self.tell(first);
        self.push(second);
    }
}
