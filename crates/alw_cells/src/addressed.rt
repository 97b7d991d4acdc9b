ghost use Rattle.std.specs.Prelude.{◌≡◌, None};
ghost use Rattle.alw_msg.specs.Lists.{front, behind};
ghost use Rattle.alw_model.specs.Threads.{sent_to};

use crate::cursors::Cursor;
use alw_msg::Msg;
use std::marker::Model;

/// The messages that a log sent to a node, read one by one. Contracts see those that are left.
#[derive(Drop)]
pub struct SentTo<'a> {
    reading: Cursor<'a>,
    to: u32,
    at: u32,
}

impl<'a> Model for SentTo<'a> {
    ghost use Rattle.std.specs.Prelude.{List};
    ghost use Rattle.alw_msg.specs.declared.messages.Msg.{Msg};
    ghost use Rattle.alw_cells.specs.Receiving.{left_to};

    ghost Value = { List Msg };

    ghost view = { λ s. left_to s.to s.at s.reading };
}

impl<'a> SentTo<'a> {
    /// All that a log that nothing has been read of sent to a node.
    pub fn all(reading: Cursor<'a>, to: u32) -> SentTo<'a>
        requires { reading.given ≡ None }
        ensures { result ≡ sent_to to reading.entry.left }
    {
        SentTo { reading, to, at: 0 }
    }

    /// The next message. None exactly at the end.
    pub fn next(&mut self) -> Option<Msg>
        ensures message { result ≡ front self.old }
        ensures left { self.new ≡ behind self.old }
    {
        loop {
            if let Some((receiver, msg)) = self.reading.sent(self.at) {
                self.at += 1;
                if u32::from(receiver.0) == self.to {
                    return Some(msg);
                }
            } else {
                self.reading.next()?;
                self.at = 0;
            }
        }
    }
}
