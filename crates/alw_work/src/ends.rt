ghost use Rattle.std.specs.Prelude.{◌≡◌, true, [], ◌∷◌, ◌++◌, option_to_list, Some, None};
ghost use Rattle.alw_work.specs.Ties.{given, Receives};

use alw_msg::Msg;
use alw_ruled::{Link, RecvPass, SendErr, SendPass};
use std::sync::Wait;

/// The sender's end of the link to a node, and the message that found no memory, which goes next.
#[derive(Drop)]
pub struct Out {
    pub end: SendPass,
    pub kept: Option<Msg>,
}

/// The receiver's end of the link from a node, and the message that came off it and found no memory, which
/// goes first.
#[derive(Drop)]
pub struct In {
    pub end: RecvPass,
    pub kept: Option<Msg>,
}

impl Out {
    /// Sends what waits at this end, and then what is kept, where anything is. Answers whether nothing is
    /// kept any longer, and nothing waits, which no clause says.
    pub fn flush<R: Wait>(&mut self, rt: &R, link: &Link) -> bool
        requires { self.old.end.link ≡ link.now }
        ensures link { self.new.end.link ≡ self.old.end.link }
        ensures given { given self.new ≡ given self.old }
        ensures sent { result ≡ true → self.new.kept ≡ None }
    {
        let is_sent = link.flush(rt, &mut self.end);
        match self.kept.take() {
            Some(msg) => self.send(rt, link, msg),
            None => is_sent,
        }
    }

    /// Sends a message where nothing is kept: it goes onto the link, where it may wait at this end, or is
    /// kept. Answers whether nothing is kept, and nothing waits, which no clause says.
    pub fn send<R: Wait>(&mut self, rt: &R, link: &Link, msg: Msg) -> bool
        requires link { self.old.end.link ≡ link.now }
        requires empty { self.old.kept ≡ None }
        ensures link { self.new.end.link ≡ self.old.end.link }
        ensures given { given self.new ≡ self.old.end.pushed ++ msg ∷ [] }
        ensures sent { result ≡ true → self.new.kept ≡ None }
    {
        if !self.end.has_room() {
            self.kept = Some(msg);
            return false;
        }
        match link.send(rt, &mut self.end, msg) {
            Ok(()) => link.flush(rt, &mut self.end),
            Err(SendErr { msg }) => {
                self.kept = Some(msg);
                false
            }
        }
    }
}

impl In {
    /// The next message of the pair. None where none has come.
    pub fn receive<R: Wait>(&mut self, rt: &R, link: &Link) -> Option<Msg>
        requires { self.old.end.link ≡ link.now }
        ensures { Receives self.old self.new result }
    {
        match self.kept.take() {
            Some(msg) => Some(msg),
            None => link.receive(rt, &mut self.end),
        }
    }
}
