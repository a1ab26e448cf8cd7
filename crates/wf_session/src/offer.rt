//! The originator's end of an agreement.

ghost use Rattle.std.specs.Prelude.{◌≡◌, ◌≤◌, ◌<◌, true, None, IfOk, IfSome};
ghost use Rattle.wf_session.specs.Layout.{CanBeWritten};
ghost use Rattle.wf_session.specs.Ends.{HasWindow, new_offer, ask_answer, after_ask, asked_again, request_of, offer_heard, offer_received, with_response, offer_settled, teardown_of};
ghost use Rattle.wf_session.specs.Faults.{decoded_action};
ghost use Rattle.wf_session.specs.declared.agreement.Agreement.{Agreement};

use crate::agreement::close;
use crate::{Action, Agreement, decode_action};
use std::marker::Model;
use thiserror::Error;
use wf_octets::seq12::Seq12;

/// Why a request is refused.
#[derive(Clone, Copy, Debug, PartialEq, Eq, Error)]
pub enum OfferFault {
    /// All 255 tokens are used.
    #[error("all tokens are spent")]
    Spent,
    /// An agreement is open.
    #[error("the agreement with token {token} is open")]
    Open {
        /// The token of that agreement.
        token: u8,
    },
}

/// The originator's end of one TID's agreement.
#[derive(Drop)]
pub struct Offer {
    tid: u8,
    last: u8,
    asked: Option<Agreement>,
    opened: Option<Agreement>,
}

impl Model for Offer {
    ghost use Rattle.wf_session.specs.Ends.{OfferValue, HasWindow};

    ghost Value = { OfferValue };

    ghost view = { λ s. record { tid = s.tid; last = s.last; asked = s.asked; opened = s.opened } };

    ghost inverse = { λ v. record { tid = v.tid; last = v.last; asked = v.asked; opened = v.opened } };

    ghost invariant = { λ s. HasWindow s.asked × HasWindow s.opened };
}

impl Offer {
    /// Creates an end without an agreement, for a TID. `last` is the last token that it used, 0 at first.
    pub fn new(tid: u8, last: u8) -> Offer
        ensures { result ≡ new_offer tid last }
    {
        Offer {
            tid,
            last,
            asked: None,
            opened: None,
        }
    }

    /// Requests an agreement with a window of 1 to 256 from `start` on, and returns the request. It replaces
    /// an earlier request that is not settled. Fails with `Spent` if no token is left, and with `Open` if an
    /// agreement is open; nothing changes then.
    pub fn ask(&mut self, window: u16, start: Seq12) -> Result<Action, OfferFault>
        requires { (1 ≤ window) × (window ≤ 256) }
        ensures answer { result ≡ ask_answer window start self.old }
        ensures after { self.new ≡ after_ask window start self.old }
        ensures writable { self.old.tid < 8 → IfOk result (λ action. CanBeWritten action) }
    {
        if self.last == 255 {
            return Err(OfferFault::Spent);
        }
        if let Some(agreement) = self.opened {
            return Err(OfferFault::Open {
                token: agreement.token,
            });
        }
        self.last += 1;
        let wish = Agreement {
            token: self.last,
            window,
            start,
        };
        self.asked = Some(wish);
        Ok(request_of(self.tid, &wish))
    }

    /// Returns the last request again. None if there was none, or if it is settled.
    pub fn again(&self) -> Option<Action>
        ensures answer { result ≡ asked_again self.now }
        ensures writable { self.now.tid < 8 → IfSome result (λ action. CanBeWritten action) }
    {
        let wish = self.asked?;
        Some(request_of(self.tid, &wish))
    }

    /// Handles a message from the recipient.
    pub fn hear(&mut self, action: &Action)
        ensures { self.new ≡ offer_heard action.now self.old }
    {
        match *action {
            Action::Response {
                token,
                status,
                tid,
                window,
            } => {
                if tid == self.tid {
                    self.hear_response(token, status, window);
                }
            }
            Action::Teardown { tid, initiator, .. } => {
                if tid == self.tid && !initiator {
                    self.opened = None;
                }
            }
            Action::Request { .. } => {}
        }
    }

    /// Handles octets from the recipient, as the message that they contain. Octets that are no action frame
    /// change nothing.
    pub fn receive(&mut self, octets: &[u8])
        ensures { self.new ≡ offer_received (decoded_action octets.now) self.old }
    {
        if let Ok(action) = decode_action(octets) {
            self.hear(&action);
        }
    }

    /// Ends the agreement and returns the message for the recipient. None if no agreement is open.
    pub fn close(&mut self) -> Option<Action>
        ensures answer { result ≡ teardown_of self.old.tid true self.old.opened }
        ensures after { self.new ≡ record self.old { opened = None } }
        ensures writable { self.old.tid < 8 → IfSome result (λ action. CanBeWritten action) }
    {
        close(&mut self.opened, self.tid, true)
    }

    /// Returns the open agreement, if there is one.
    pub fn state(&self) -> Option<Agreement>
        ensures opened { result ≡ self.now.opened }
        ensures window { HasWindow result }
    {
        self.opened
    }

    /// Returns the last token that was used. It has to survive a restart.
    pub fn last(&self) -> u8
        ensures { result ≡ self.now.last }
    {
        self.last
    }

    /// Handles a response for this TID.
    fn hear_response(&mut self, token: u8, status: u16, window: u16)
        ensures { self.new ≡ with_response token status window self.old }
    {
        if let Some(wish) = self.asked {
            if wish.token == token {
                self.settle(status, window, wish);
            }
        }
    }

    /// Handles a response to the last request.
    fn settle(&mut self, status: u16, window: u16, wish: Agreement)
        requires { wish.window ≤ 256 }
        ensures { self.new ≡ offer_settled status window wish self.old }
    {
        if status != 0 {
            self.asked = None;
        } else if 1 <= window && window <= wish.window {
            self.asked = None;
            self.opened = Some(Agreement { window, ..wish });
        }
    }
}

/// Returns the request for an agreement.
fn request_of(tid: u8, wish: &Agreement) -> Action
    ensures { result ≡ request_of tid wish.now }
{
    Action::Request {
        token: wish.token,
        tid,
        window: wish.window,
        start: wish.start,
    }
}
