//! The only client of a server.

ghost use Rattle.lmtpd_rehearse.specs.Client.{MayGive, told, is_being_served, is_last_told};

use lmtp_house::{EndCause, Peer, Visits};
use std::mem;
use std::sync::Wait;

/// The only client that a lane serves: kept until it is asked for, and again once its conversation has ended.
#[derive(Drop)]
pub enum OnlyClient<P: Drop> {
    Waiting(P),
    /// It is being served.
    Out,
    /// Its conversation has ended.
    Back(P, EndCause),
    /// And it was said that there is no other.
    Over(P, EndCause),
}

impl<P: Peer + Drop> Visits for OnlyClient<P> {
    type P = P;

    ghost MayGive = { λ c peer. MayGive P.state c peer };

    ghost finished = { λ c. told P.state c };

    ghost out = { λ c. is_being_served c };

    ghost over = { λ c. is_last_told c };

    fn next<R: Wait>(&mut self, rt: &R) -> Option<P> {
        let _ = rt;
        match mem::replace(self, OnlyClient::Out) {
            OnlyClient::Waiting(peer) => Some(peer),
            OnlyClient::Back(peer, end) | OnlyClient::Over(peer, end) => {
                *self = OnlyClient::Over(peer, end);
                None
            }
            OnlyClient::Out => unreachable!(),
        }
    }

    fn done(&mut self, peer: P, end: EndCause) {
        *self = OnlyClient::Back(peer, end);
    }
}
