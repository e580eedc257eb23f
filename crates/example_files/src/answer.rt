//! What a command answers.
use command_base::{Exit, Reply, Status};
use std::alloc::Global;

/// How a command ends, and its text.
#[derive(Drop)]
pub struct Answer {
    pub status: Status,
    pub text: Vec<u8>,
}

impl Answer {
    /// Whether the command ended with the status and the text.
    pub fn is(&self, status: Status, text: &[u8]) -> bool {
        self.status == status && self.text.as_slice() == text
    }
}

/// What a command answers, whether it replies or ends early; no text where the source failed or memory was wanting.
pub fn answer_of(alloc: Global, reply: Result<Reply, Exit>) -> Answer {
    match reply {
        Ok(reply) => Answer {
            status: reply.status,
            text: reply.text,
        },
        Err(Exit::Says(reply)) => Answer {
            status: reply.status,
            text: reply.text,
        },
        Err(Exit::ReadFault) => Answer {
            status: Status::ReadFault,
            text: Vec::new(alloc),
        },
        Err(Exit::Memory) => Answer {
            status: Status::Memory,
            text: Vec::new(alloc),
        },
    }
}
