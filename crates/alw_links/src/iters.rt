ghost use Rattle.std.specs.Prelude.{◌≡◌};
ghost use Rattle.std.specs.Iterator.{YieldsFirstRef, item_count};
ghost use Rattle.alw_links.specs.Chains.{messages_from, IsChain};

use crate::pools::{END, PoolPlace};
use alw_msg::Msg;
use std::marker::Model;

/// The messages of a link that are left, the first one first.
#[derive(Drop)]
pub struct Link<'a> {
    places: &'a [PoolPlace],
    at: u32,
}

impl<'a> Model for Link<'a> {
    ghost use Rattle.std.specs.Prelude.{List};
    ghost use Rattle.alw_msg.specs.declared.messages.Msg.{Msg};
    ghost use Rattle.alw_links.specs.Chains.{messages_from, IsChain};

    ghost Value = { List Msg };

    ghost view = { λ l. messages_from l.places.now l.at };

    ghost invariant = { λ l. IsChain l.places.now l.at };
}

impl<'a> Link<'a> {
    // The messages of the chain from a place on.
    pub(crate) fn start(places: &'a [PoolPlace], at: u32) -> Link<'a>
        requires { IsChain places.now at }
        ensures { result ≡ messages_from places.now at }
    {
        Link { places, at }
    }
}

impl<'a> Iterator for Link<'a> {
    type Item = &'a Msg;

    ghost next_gives = { YieldsFirstRef (λ rest. rest) };

    ghost remaining = { item_count (λ rest. rest) };

    fn next(&mut self) -> Option<&'a Msg> {
        if self.at == END {
            return None;
        }
        let place = &self.places[self.at as usize];
        self.at = place.next;
        Some(&place.msg)
    }
}
