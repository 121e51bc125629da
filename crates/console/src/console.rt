// A cabinet that is keyed line by line.
ghost use Rattle.std.specs.Prelude.{◌≡◌, ◌≤◌, length, IfOk};
ghost use Rattle.network.specs.Changes.{unless};
ghost use Rattle.network.specs.Networks.{empty};
ghost use Rattle.refusals.specs.Refusals.{answered};
ghost use Rattle.text.specs.Placed.{placed};
ghost use Rattle.console.specs.Consoles.{network_in};
ghost use Rattle.console.specs.Replies.{after_line, answer_of, effect_of, left_by, line_answer, no_room, reply_text, told_by};

use crate::line::{Request, parse};
use crate::replies::{Outcome, SHORTEST_BUFFER, write_reply};
use cabinet::Cabinet;
use refusals::Refusal;

mod questions;

// A cabinet, empty at first.
#[derive(Drop)]
pub struct Console {
    cabinet: Cabinet,
}

impl Console {
    // A console with an empty cabinet.
    pub fn new() -> Console
        ensures { network_in result ≡ empty }
    {
        Console {
            cabinet: Cabinet::new(),
        }
    }

    // Does what a line says, writes the reply to the front of `reply` and answers its length.
    // A buffer that is too short is refused before the line is looked at.
    pub fn answer(&mut self, line: &[u8], reply: &mut [u8]) -> Result<usize, Refusal>
        ensures answer { result ≡ answered (no_room reply.old) (length (reply_text (line_answer line.now (network_in self.old)))) }
        ensures within { IfOk result (λ n. n ≤ length reply.new) }
        ensures buffer { reply.new ≡ unless (no_room reply.old) (placed 0 (reply_text (line_answer line.now (network_in self.old))) reply.old) reply.old }
        ensures after { network_in self.new ≡ unless (no_room reply.old) (after_line line.now (network_in self.old)) (network_in self.old) }
    {
        if reply.len() < SHORTEST_BUFFER {
            return Err(Refusal::BufferTooShort);
        }
        let outcome = self.obey(line);
        write_reply(reply, outcome).ok_or(Refusal::BufferTooShort)
    }

    // Does what a line says.
    fn obey(&mut self, line: &[u8]) -> Result<Outcome, Refusal>
        ensures answer { told_by result ≡ line_answer line.now (network_in self.old) }
        ensures after { network_in self.new ≡ after_line line.now (network_in self.old) }
    {
        let request = parse(line).ok_or(Refusal::BadLine)?;
        self.call(request)
    }

    // Makes the call on the cabinet.
    fn call(&mut self, request: Request) -> Result<Outcome, Refusal>
        ensures answer { told_by result ≡ answer_of (effect_of request) (network_in self.old) }
        ensures after { network_in self.new ≡ left_by (effect_of request) (network_in self.old) }
    {
        match request {
            Request::AddVoter(code) => {
                self.cabinet.add_voter(code)?;
            }
            Request::AddModule(code) => {
                self.cabinet.add_module(code)?;
            }
            Request::Link(link) => self.cabinet.link(link)?,
            Request::Cut(link) => self.cabinet.cut(link)?,
            Request::CountPatterns => return Ok(Outcome::Counted(self.pattern_count()?)),
            Request::LongestRepair(hours) => return Ok(Outcome::Lasting(self.longest_repair(
                hours,
            )?)),
        }
        Ok(Outcome::Done)
    }
}
