//! When a search goes beyond what it must, so that it tells of the vertices near its base too.
ghost use Rattle.std.specs.Prelude.{◌≡◌, ◌≢◌, ◌+◌, ◌-◌, ◌*◌, ◌==◌, min, true, false, if◌then◌else◌};
ghost use Rattle.std.specs.Option.{option_map};
ghost use Rattle.surf_search.specs.Ahead.{spare_of, widened};

use surf_choice::Candidate;

/// After how many searches the next one goes beyond what it must, and how many these were before
/// the last one that did.
#[derive(Clone, Copy)]
pub(crate) struct Pace {
    left: u32,
    wait: u32,
}

impl Pace {
    /// The first search goes beyond.
    pub fn new() -> Pace
        ensures new { result ≡ record { left = 0; wait = 0 } }
    {
        Pace { left: 0, wait: 0 }
    }

    /// A limit by which a search goes beyond another one, if it is time, and else that one.
    pub fn limit(&self, limit: &Option<Candidate>) -> Option<Candidate>
        ensures wide { result
            ≡ (if self.now.left == 0 then option_map widened limit.now else limit.now) }
    {
        match limit {
            Some(last) if self.left == 0 => Some(Candidate {
                length: last.length.saturating_add(last.length / 16),
                base: last.base,
                edge: last.edge,
            }),
            _ => *limit,
        }
    }

    /// Goes on after a search. One that went beyond for nothing is followed by some that don't: by
    /// one, and each time by one more than twice as many as before, up to 1,023.
    pub fn step(&mut self, told: bool)
        ensures waits { self.old.left ≢ 0 →
            self.new ≡ record self.old { left = self.old.left - 1 } }
        ensures told { self.old.left ≡ 0 → told ≡ true → self.new.wait ≡ 0 }
        ensures longer { self.old.left ≡ 0 → told ≡ false →
            self.new.wait ≡ min (2 * self.old.wait + 1) 1023 }
        ensures begun { self.old.left ≡ 0 → self.new.left ≡ self.new.wait }
    {
        if self.left > 0 {
            self.left -= 1;
            return;
        }
        self.wait = if told {
            0
        } else {
            self.wait.saturating_mul(2).saturating_add(1).min(1023)
        };
        self.left = self.wait;
    }
}

/// By how much a limit is longer than another one.
pub(crate) fn spare(limit: &Option<Candidate>, wide: &Option<Candidate>) -> u64
    ensures spare { result ≡ spare_of limit.now wide.now }
{
    match (limit, wide) {
        (Some(last), Some(farther)) => farther.length.saturating_sub(last.length),
        _ => 0,
    }
}
