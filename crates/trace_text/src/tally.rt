ghost use Rattle.std.specs.Prelude.{◌≡◌, [], ℕ};

/// What is kept of one task: how often it was released and ended, its greatest response, and the earliest release that has no
/// end yet. Times are in ticks.
#[derive(Clone, Copy, Drop)]
pub struct Tally {
    pub releases: u64,
    pub ends: u64,
    pub greatest: u64,
    pub waiting: Option<u64>,
}

impl Tally {
    ghost use Rattle.trace_text.specs.Tallies.{ended, released, tally};

    /// Before any event.
    pub fn empty() -> Tally
        ensures { (task : ℕ) → result ≡ tally [] task }
    {
        Tally {
            releases: 0,
            ends: 0,
            greatest: 0,
            waiting: None,
        }
    }

    /// With one more release, at a time.
    pub fn released(self, time: u64) -> Tally
        ensures { result ≡ released time self }
    {
        let waiting = match self.waiting {
            None => time,
            Some(from) => time.min(from),
        };
        Tally {
            releases: self.releases.saturating_add(1),
            ends: self.ends,
            greatest: self.greatest,
            waiting: Some(waiting),
        }
    }

    /// With one more end, at a time.
    pub fn ended(self, time: u64) -> Tally
        ensures { result ≡ ended time self }
    {
        let waited = match self.waiting {
            None => 0,
            Some(from) => time.saturating_sub(from),
        };
        Tally {
            releases: self.releases,
            ends: self.ends.saturating_add(1),
            greatest: self.greatest.max(waited),
            waiting: None,
        }
    }
}
