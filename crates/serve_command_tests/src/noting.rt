//! A source that keeps what a sink had at each take.
ghost use Rattle.std.specs.Prelude.{None};

use file_access::{Failed, MemorySink, Source};
use serve_command::SourceBeside;
use std::alloc::Global;
use std::process::Abort;

/// A take: what the sink had by then, and what it gave, where it didn't fail.
#[derive(Drop)]
pub(crate) struct NotedTake {
    pub put: Vec<u8>,
    pub given: Option<Vec<u8>>,
}

/// A source that notes its takes beside a sink in memory, for a test to look at.
pub(crate) struct NotingSource<'a, S: Source, R: Abort> {
    pub rt: &'a R,
    pub alloc: Global,
    pub source: S,
    pub takes: Vec<NotedTake>,
}

impl<S: Source, R: Abort> Source for NotingSource<'_, S, R> {
    ghost held = { λ s. S.held s.source };

    ghost left = { λ s. S.left s.source };

    ghost selected = { λ s. S.selected s.source };

    ghost is_current = { λ s. S.is_current s.source };

    ghost taken = { λ s. S.taken s.source };

    ghost faults = { λ s. S.faults s.source };

    fn select(&mut self, name: &str) -> Result<(), Failed> {
        self.source.select(name)
    }

    fn take(&mut self, buf: &mut [u8]) -> Result<usize, Failed> {
        self.source.take(buf)
    }
}

impl<S: Source, R: Abort> SourceBeside<MemorySink> for NotingSource<'_, S, R> {
    ghost takes = { λ _. None };

    fn begin(&mut self, name: &str) -> Result<(), Failed> {
        self.takes.clear();
        self.source.select(name)
    }

    fn take_beside(&mut self, sink: &MemorySink, buf: &mut [u8]) -> Result<usize, Failed> {
        let put = sink.bytes().to_vec(self.alloc).expect(self.rt, "memory");
        match self.source.take(buf) {
            Ok(count) => {
                let given = buf[..count].to_vec(self.alloc).expect(self.rt, "memory");
                let given = Some(given);
                self.takes
                    .push(NotedTake { put, given })
                    .expect(self.rt, "memory");
                Ok(count)
            }
            Err(Failed) => {
                let given = None;
                self.takes
                    .push(NotedTake { put, given })
                    .expect(self.rt, "memory");
                Err(Failed)
            }
        }
    }
}
