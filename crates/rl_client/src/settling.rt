ghost use Rattle.std.specs.Prelude.{◌≡◌, map, IfOk, OnOk, OnErr};
ghost use Rattle.rl_clientmodel.specs.Hearing.{id_of, settle, settled_by};
ghost use Rattle.rl_client.specs.Answers.{answer_with};

use crate::Client;
use crate::acting::quiet;
use rl_connsm::takes_acknowledgements;
use rl_ids::{Copied, List, NoMemory, Text};
use rl_runs::{Answer, Output};
use std::alloc::Global;

// Acknowledgements (RTN7).
impl Client {
    // The answer to one serial: with a code it is a NACK.
    fn answer_to(&self, alloc: Global, serial: u64, code: Option<u32>) -> Result<Answer, NoMemory>
        ensures { IfOk result (λ answer. answer ≡ answer_with code (id_of self.now.id) serial) }
    {
        let conn = match &self.id {
            Some(id) => id.copy(alloc)?,
            None => Text::new(alloc),
        };
        match code {
            None => Ok(Answer::Ack { conn, serial }),
            Some(code) => Ok(Answer::Nack { conn, serial, code }),
        }
    }

    fn answers_to(
        &self,
        alloc: Global,
        serials: &[u64],
        code: Option<u32>,
    ) -> Result<List<Answer>, NoMemory>
        ensures { IfOk result (λ answers. answers ≡ map (answer_with code (id_of self.now.id)) serials.now) }
    {
        let mut answers = List::new(alloc);
        for serial in serials {
            answers.push(self.answer_to(alloc, *serial, code)?)?;
        }
        Ok(answers)
    }

    // The answers are made first and kept at once; then the frames go out of the queue, which takes no memory.
    fn settle_now(
        &mut self,
        alloc: Global,
        serial: u64,
        count: u32,
        code: Option<u32>,
    ) -> Result<(), NoMemory>
        ensures ok { OnOk result (self.new ≡ settle serial count (answer_with code (id_of self.old.id)) self.old) }
        ensures err { OnErr result (self.new ≡ self.old) }
    {
        let serials = self.queue.covered_serials(alloc, serial, count)?;
        let answers = self.answers_to(alloc, serials.as_slice(), code)?;
        self.answers.append(answers)?;
        self.queue.take_out(serial, count);
        Ok(())
    }

    // The service answers these `count` frames from `serial` on.
    pub(crate) fn settle(
        &mut self,
        alloc: Global,
        serial: u64,
        count: u32,
        code: Option<u32>,
    ) -> Result<Output, NoMemory>
        ensures out { IfOk result (λ out. out ≡ (settled_by serial count (answer_with code (id_of self.old.id)) self.old).output) }
        ensures new { OnOk result (self.new ≡ (settled_by serial count (answer_with code (id_of self.old.id)) self.old).state) }
        ensures err { OnErr result (self.new ≡ self.old) }
    {
        if takes_acknowledgements(self.conn) {
            self.settle_now(alloc, serial, count, code)?;
        }
        Ok(quiet(alloc))
    }
}
