//! The follower: it hears requests byte by byte, and answers each line as soon as its LF came. The live run of `follow`
//! makes one.
ghost use Rattle.std.specs.Prelude.{◌≡◌, ◌≢◌, ◌⊎◌, ◌<◌, ◌≤◌, ◌+◌, ◌++◌, ◌∷◌, ◌^◌, [], ℕ, List, Result, Ok, false};
ghost use Rattle.std.specs.Prelude.{IfErr, OnOk, length};
ghost use Rattle.std.specs.Result.{is_err};
ghost use Rattle.std.specs.Io.KnownBytes.{Appends};
ghost use Rattle.mapf_fields.specs.Pages.{page_room};
ghost use Rattle.mapf_player.specs.Dispatching.{Progress};
ghost use Rattle.mapf_model.specs.Limits.{most_agents};
ghost use Rattle.mapf_player.specs.Following.{FailsSink, HasHeard, IsGiven, IsHearing, IsLineHeard, IsRead};
ghost use Rattle.mapf_player.specs.Following.{IsTitleHeard, Told, answer_room, error_line};
ghost use Rattle.mapf_player.specs.declared.events.EventFault.{EventFault};
ghost use Rattle.mapf_player.specs.declared.request.Request.{Request};

use crate::cycles::push_cycles;
use crate::dispatch::Dispatch;
use crate::events::EventFault;
use crate::follow_fault::FollowFault;
use crate::line_start::LineStart;
use crate::replies::push_reply;
use crate::request::{Request, request_of};
use mapf_fields::Page;
use mapf_model::{Failed, Grid, Sink};
use std::marker::Model;

/// Whether more requests may come.
#[derive(Clone, Copy, Debug, PartialEq, Eq)]
pub enum Heard {
    /// They may.
    More,
    /// The line `end` came.
    End,
}

/// Agents that follow a plan, and the request that comes.
#[derive(Debug, Drop)]
pub struct Follower {
    dispatch: Dispatch,
    // The beginning of the line that comes.
    line: LineStart,
    // The number of that line, counted from 1.
    number: u64,
}

impl Model for Follower {
    ghost use Rattle.mapf_player.specs.Following.{Hearing};

    ghost Value = { Hearing };

    ghost view = { λ f. record { progress = f.dispatch; line = f.line; number = f.number } };
}

// Adds the line of an error, for which there has to be room.
fn push_error(page: &mut Page, fault: EventFault)
    requires { length page.old + answer_room ≤ page_room }
    ensures { page.new ≡ page.old ++ error_line fault }
{
    match fault {
        EventFault::E1(line) => {
            page.push_bytes(b"error E1");
            page.push_field(b' ', line);
            page.push_byte(b'\n');
        }
        EventFault::E3(line) => {
            page.push_bytes(b"error E3");
            page.push_field(b' ', line);
            page.push_byte(b'\n');
        }
        EventFault::E2(_) | EventFault::E4(_) | EventFault::Memory => {}
    }
}

impl Follower {
    /// Returns a follower that hears the first line, of agents that are as far as the dispatcher says.
    pub fn of(dispatch: Dispatch) -> Follower
        ensures { result ≡ record { progress = dispatch; line = []; number = 1 } }
    {
        Follower {
            dispatch,
            line: LineStart::empty(),
            number: 1,
        }
    }

    // Adds the answer to a request other than `end`.
    fn push_granted(&mut self, page: &mut Page, grid: &Grid, request: Request)
        requires empty { page.old ≡ [] }
        requires read { IsRead (length self.old.progress.numbers) self.old.number self.old.line (Ok request) }
        requires goes_on { request ≢ Request.End }
        ensures { (told : Told) × IsGiven grid.now.width self.old.progress (Ok request) told self.new.progress
            × (page.new ≡ told.text) × (self.new.line ≡ self.old.line) × (self.new.number ≡ self.old.number) }
    {
        match request {
            Request::Agent(agent) => {
                let reply = self.dispatch.ask(agent);
                push_reply(page, grid, agent, reply);
            }
            Request::Status => push_cycles(page, &self.dispatch),
            Request::End => {}
        }
    }

    // Adds the answer to what a line says, which isn't `end`.
    fn push_answer(&mut self, page: &mut Page, grid: &Grid, request: Result<Request, EventFault>)
        requires empty { page.old ≡ [] }
        requires read { IsRead (length self.old.progress.numbers) self.old.number self.old.line request }
        requires goes_on { request ≢ Ok Request.End }
        ensures { (told : Told) × IsGiven grid.now.width self.old.progress request told self.new.progress
            × (page.new ≡ told.text) × (self.new.line ≡ self.old.line) × (self.new.number ≡ self.old.number) }
    {
        match request {
            Ok(request) => self.push_granted(page, grid, request),
            Err(fault) => push_error(page, fault),
        }
    }

    // Begins the line of this number.
    fn begin(&mut self, number: u64)
        ensures { self.new ≡ record { progress = self.old.progress; line = []; number = number } }
    {
        self.line.clear();
        self.number = number;
    }

    // Hears that the first line has ended.
    fn hear_title(&mut self) -> Result<Heard, FollowFault>
        ensures { IsTitleHeard self.old self.new result }
    {
        if self.line.as_slice() == b"mapf-events 1".as_slice() {
            self.begin(2);
            Ok(Heard::More)
        } else {
            Err(FollowFault::Events(EventFault::E1(1)))
        }
    }

    // Hears that a later line has ended, and writes its answer.
    fn hear_line<K: Sink>(
        &mut self,
        grid: &Grid,
        page: &mut Page,
        sink: &mut K,
    ) -> Result<Heard, FollowFault>
        requires works { K.has_failed sink.old ≡ false }
        requires empty { page.old ≡ [] }
        requires few { self.old.number + 1 < 2 ^ 64 }
        ensures heard { (request : Result Request EventFault)
            × IsRead (length self.old.progress.numbers) self.old.number self.old.line request
            × IsLineHeard grid.now.width self.old self.new (K.contents sink.old) (K.contents sink.new) request result }
        ensures written { page.new ≡ [] }
        ensures failed { K.has_failed sink.new ≡ is_err result }
        ensures agents { length self.old.progress.numbers ≤ most_agents }
    {
        let request = request_of(self.number, self.line.as_slice(), self.dispatch.agents());
        if request == Ok(Request::End) {
            return Ok(Heard::End);
        }
        self.push_answer(page, grid, request);
        if let Err(Failed) = page.flush(sink) {
            return Err(FollowFault::Replies);
        }
        self.begin(self.number + 1);
        Ok(Heard::More)
    }

    // Hears a byte.
    fn hear_byte<K: Sink>(
        &mut self,
        byte: u8,
        grid: &Grid,
        page: &mut Page,
        sink: &mut K,
    ) -> Result<Heard, FollowFault>
        requires works { K.has_failed sink.old ≡ false }
        requires empty { page.old ≡ [] }
        requires few { self.old.number + 1 < 2 ^ 64 }
        ensures heard { (before : Progress) (came written : List ℕ) →
            IsHearing grid.now.width before came written self.old → (text : List ℕ)
            × Appends (K.contents sink.old) (K.contents sink.new) text
            × HasHeard grid.now.width before (came ++ (byte ∷ [])) (written ++ text) self.new result }
        ensures written { page.new ≡ [] }
        ensures failed { FailsSink result (K.has_failed sink.new) }
        ensures few { result ≡ Ok Heard.More → self.new.number ≤ self.old.number + 1 }
    {
        if byte != b'\n' {
            self.line.push(byte);
            return Ok(Heard::More);
        }
        if self.number == 1 {
            self.hear_title()
        } else {
            self.hear_line(grid, page, sink)
        }
    }

    /// Hears more bytes of the requests, and writes the answer to each line that ends in them before it hears the next.
    /// The page has to be empty, and is empty then. Nothing is allocated.
    pub fn hear<K: Sink>(
        &mut self,
        bytes: &[u8],
        grid: &Grid,
        page: &mut Page,
        sink: &mut K,
    ) -> Result<Heard, FollowFault>
        requires works { K.has_failed sink.old ≡ false }
        requires empty { page.old ≡ [] }
        requires few { self.old.number + length bytes.now < 2 ^ 64 }
        // What was heard before, and what was written then, goes on with these bytes and what is written now.
        ensures heard { (before : Progress) (came written : List ℕ) →
            IsHearing grid.now.width before came written self.old → (text : List ℕ)
            × Appends (K.contents sink.old) (K.contents sink.new) text
            × HasHeard grid.now.width before (came ++ bytes.now) (written ++ text) self.new result }
        ensures written { page.new ≡ [] }
        // The sink failed if and only if an answer couldn't be written.
        ensures failed { FailsSink result (K.has_failed sink.new) }
        ensures few { result ≡ Ok Heard.More → self.new.number ≤ self.old.number + length bytes.now }
    {
        for byte in bytes {
            match self.hear_byte(*byte, grid, page, sink) {
                Ok(Heard::More) => {}
                Ok(Heard::End) => return Ok(Heard::End),
                Err(fault) => return Err(fault),
            }
        }
        Ok(Heard::More)
    }

    /// Hears that no more bytes come. An error if that is inside a line, or before the title.
    pub fn end(&self) -> Result<(), FollowFault>
        ensures ok { OnOk result ((self.now.number ≢ 1) × (self.now.line ≡ [])) }
        ensures fault { IfErr result (λ fault. (fault ≡ FollowFault.Events (EventFault.E2 self.now.number))
            × ((self.now.number ≡ 1) ⊎ (self.now.line ≢ []))) }
    {
        if self.number == 1 || !self.line.as_slice().is_empty() {
            return Err(FollowFault::Events(EventFault::E2(self.number)));
        }
        Ok(())
    }
}
