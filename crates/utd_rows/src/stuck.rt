// An output that takes nothing and does not fail.
ghost use Rattle.std.specs.Prelude.{◌≡◌, ◌<◌, ◌≤◌, length, None, Ok, IfOk};
ghost use Rattle.utd_io.specs.Io.{Rose, one_more};

use std::marker::Model;
use utd_io::{Failed, Sink};

/// A sink that answers each piece with 0, and counts that. Contracts see its count.
#[derive(Drop)]
pub(crate) struct StuckSink {
    faults: u64,
}

impl Model for StuckSink {
    ghost use Rattle.std.specs.Prelude.{ℕ};

    ghost Value = { ℕ };

    ghost view = { λ s. s.faults };
}

impl StuckSink {
    pub(crate) fn new() -> StuckSink {
        StuckSink { faults: 0 }
    }
}

impl Sink for StuckSink {
    ghost written = { λ _. None };

    ghost faults = { λ s. s };

    fn write(&mut self, piece: &[u8]) -> Result<usize, Failed>
        ensures none { result ≡ Ok 0 }
        ensures counted { self.new ≡ one_more self.old }
        ensures count { self.old ≤ self.new }
        ensures stuck { IfOk result (λ n. n ≡ 0 → 0 < length piece.now → Rose self.old self.new) }
    {
        self.faults = self.faults.saturating_add(1);
        Ok(0)
    }
}
