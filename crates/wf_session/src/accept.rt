//! The recipient's end of an agreement.

ghost use Rattle.std.specs.Prelude.{◌≡◌, ◌≤◌, ◌<◌, false, None, IfSome};
ghost use Rattle.wf_session.specs.Layout.{CanBeWritten};
ghost use Rattle.wf_session.specs.Ends.{HasWindow, new_accept, accept_heard, accept_answer, accept_received, accept_reply, with_request, response_to, granted, teardown_of};
ghost use Rattle.wf_session.specs.Faults.{decoded_action};

use crate::agreement::close;
use crate::{Action, Agreement, decode_action};
use std::marker::Model;
use wf_octets::seq12::Seq12;

/// The recipient's end of one TID's agreement.
#[derive(Drop)]
pub struct Accept {
    tid: u8,
    limit: u16,
    last: u8,
    opened: Option<Agreement>,
}

impl Model for Accept {
    ghost use Rattle.std.specs.Prelude.{◌≤◌};
    ghost use Rattle.wf_session.specs.Ends.{AcceptValue, HasWindow};

    ghost Value = { AcceptValue };

    ghost view = { λ s. record { tid = s.tid; limit = s.limit; last = s.last; opened = s.opened } };

    ghost inverse = { λ v. record { tid = v.tid; limit = v.limit; last = v.last; opened = v.opened } };

    ghost invariant = { λ s. (1 ≤ s.limit) × (s.limit ≤ 256) × HasWindow s.opened };
}

impl Accept {
    /// Creates an end without an agreement, for a TID and for windows of at most `limit`, 1 to 256. `last` is
    /// the last token that opened, 0 at first.
    pub fn new(tid: u8, limit: u16, last: u8) -> Accept
        requires { (1 ≤ limit) × (limit ≤ 256) }
        ensures { result ≡ new_accept tid limit last }
    {
        Accept {
            tid,
            limit,
            last,
            opened: None,
        }
    }

    /// Handles a message from the originator. Returns the response, if one is due.
    pub fn hear(&mut self, action: &Action) -> Option<Action>
        ensures answer { result ≡ accept_answer action.now self.old }
        ensures after { self.new ≡ accept_heard action.now self.old }
        ensures writable { self.old.tid < 8 → IfSome result (λ answer. CanBeWritten answer) }
    {
        match *action {
            Action::Request {
                token,
                tid,
                window,
                start,
            } => {
                if tid != self.tid {
                    return None;
                }
                self.hear_request(token, window, start);
                self.response_to(token)
            }
            Action::Teardown { tid, initiator, .. } => {
                if tid == self.tid && initiator {
                    self.opened = None;
                }
                None
            }
            Action::Response { .. } => None,
        }
    }

    /// Handles octets from the originator, as the message that they contain. Octets that are no action frame
    /// change nothing. Returns the response, if one is due.
    pub fn receive(&mut self, octets: &[u8]) -> Option<Action>
        ensures answer { result ≡ accept_reply (decoded_action octets.now) self.old }
        ensures after { self.new ≡ accept_received (decoded_action octets.now) self.old }
        ensures writable { self.old.tid < 8 → IfSome result (λ answer. CanBeWritten answer) }
    {
        let Ok(action) = decode_action(octets) else {
            return None;
        };
        self.hear(&action)
    }

    /// Ends the agreement and returns the message for the originator. None if no agreement is open.
    pub fn close(&mut self) -> Option<Action>
        ensures answer { result ≡ teardown_of self.old.tid false self.old.opened }
        ensures after { self.new ≡ record self.old { opened = None } }
        ensures writable { self.old.tid < 8 → IfSome result (λ action. CanBeWritten action) }
    {
        close(&mut self.opened, self.tid, false)
    }

    /// Returns the open agreement, if there is one.
    pub fn state(&self) -> Option<Agreement>
        ensures opened { result ≡ self.now.opened }
        ensures window { HasWindow result }
    {
        self.opened
    }

    /// Returns the last token that opened. It has to survive a restart.
    pub fn last(&self) -> u8
        ensures { result ≡ self.now.last }
    {
        self.last
    }

    /// Handles a request for this TID.
    fn hear_request(&mut self, token: u8, window: u16, start: Seq12)
        ensures { self.new ≡ with_request token window start self.old }
    {
        if token > self.last {
            self.last = token;
            self.opened = Some(Agreement {
                token,
                window: self.granted(window),
                start,
            });
        }
    }

    /// Returns the window that is granted to a request for this window.
    fn granted(&self, window: u16) -> u16
        ensures window { result ≡ granted self.now.limit window }
        ensures least { 1 ≤ result }
        ensures most { result ≤ 256 }
    {
        if window == 0 {
            self.limit
        } else {
            window.min(self.limit)
        }
    }

    /// Returns the response to a request with this token, if the open agreement has that token.
    fn response_to(&self, token: u8) -> Option<Action>
        ensures answer { result ≡ response_to token self.now }
        ensures writable { self.now.tid < 8 → IfSome result (λ action. CanBeWritten action) }
    {
        match self.opened {
            Some(agreement) if agreement.token == token => Some(Action::Response {
                token,
                status: 0,
                tid: self.tid,
                window: agreement.window,
            }),
            _ => None,
        }
    }
}
