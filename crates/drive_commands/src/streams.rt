//! How the streams of a run behave.

use ldm_drive::{Trial, copied, numbers_in};
use ldm_outside_memory::{MemSink, MemSource};
use ldm_status::Streams;
use std::alloc::Global;

/// How a stream in memory behaves: the most bytes that a call moves, and the numbers of the calls that fail.
#[derive(Drop)]
pub struct Plan {
    pub most: usize,
    pub failing: Vec<u64>,
}

/// How the three streams of a run behave.
#[derive(Drop)]
pub struct Plans {
    pub source: Plan,
    pub sink: Plan,
    pub log: Plan,
}

impl Plan {
    // A stream of which calls of these numbers fail, and the others move all that they can.
    fn failing(failing: Vec<u64>) -> Plan {
        Plan {
            most: usize::MAX,
            failing,
        }
    }

    // The plan of the next word, `MOST/CALL`, in which `-` stands for no limit and for no call.
    fn read(trial: &mut Trial) -> Plan {
        let (most, call) = trial.word().split_once('/').unwrap_or(("", ""));
        let mut plan = Plan::failing(numbers_in(trial, call));
        if most != "-" {
            match most.parse::<usize>() {
                Ok(most) => plan.most = most,
                Err(_) => trial.refuse("a plan is MOST/CALL"),
            }
        }
        plan
    }

    fn sink(&self, trial: &mut Trial) -> MemSink {
        let mut sink = MemSink::new(trial.alloc(), copied(trial, &self.failing));
        sink.limit_pieces(self.most);
        sink
    }

    fn source(&self, trial: &mut Trial, script: &[u8]) -> MemSource {
        let mut source = MemSource::new(copied(trial, script), copied(trial, &self.failing));
        source.limit_pieces(self.most);
        source
    }
}

impl Plans {
    /// Streams that never fail.
    pub fn new(alloc: Global) -> Plans {
        Plans {
            source: Plan::failing(Vec::new(alloc)),
            sink: Plan::failing(Vec::new(alloc)),
            log: Plan::failing(Vec::new(alloc)),
        }
    }

    /// The plans of the next three words: for the source, the sink and the log.
    pub fn read(trial: &mut Trial) -> Plans {
        Plans {
            source: Plan::read(trial),
            sink: Plan::read(trial),
            log: Plan::read(trial),
        }
    }

    /// Streams that behave so, of which the source gives a script.
    pub fn streams(
        &self,
        trial: &mut Trial,
        script: &[u8],
    ) -> Streams<MemSource, MemSink, MemSink> {
        Streams {
            source: self.source.source(trial, script),
            sink: self.sink.sink(trial),
            log: self.log.sink(trial),
        }
    }
}
