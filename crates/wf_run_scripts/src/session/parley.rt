//! Both ends of an agreement, and the messages between them.

ghost use Rattle.std.specs.Prelude.{◌≡◌, ◌<◌, ◌≤◌, true, All, length, map, slice_get, option_copied, IfOk, IfSome, OnOk, OnErr, None};
ghost use Rattle.wf_session.specs.Layout.{CanBeWritten, action_in};
ghost use Rattle.wf_session.specs.declared.event.Event.TheVariants as event;
ghost use Rattle.wf_session.specs.World.{new_parley, after_event, with_sent};
ghost use Rattle.wf_session.specs.Laws.{originators, recipients};
ghost use Rattle.wf_run_scripts.specs.SessionLines.{IsValidEvent};
ghost use Rattle.wf_run_scripts.specs.SessionAnswers.{session_refusal, wants};
ghost use Rattle.wf_run_scripts.specs.Wires.{IsRead};

use crate::session::message::Message;
use crate::session::refusal::Refusal;
use std::alloc::{AllocError, Global};
use std::marker::Model;
use wf_octets::seq12::Seq12;
use wf_session::{Accept, Action, Agreement, Event, Offer, OfferFault};

/// Both ends of one TID's agreement, and all messages that they have sent, as octets.
#[derive(Drop)]
pub struct Parley {
    tid: u8,
    limit: u16,
    originator: Offer,
    recipient: Accept,
    asks: Vec<Message>,
    answers: Vec<Message>,
}

impl Model for Parley {
    ghost use Rattle.std.specs.Prelude.{◌≡◌, ◌≤◌, ◌<◌, map, All};
    ghost use Rattle.wf_session.specs.Layout.{action_in};
    ghost use Rattle.wf_session.specs.World as world;
    ghost use Rattle.wf_run_scripts.specs.Wires.{IsRead, HasEnds};

    ghost Value = { world.Parley };

    // The view has the actions to which the octets of the messages decode.
    ghost view = { λ p. record {
      originator = p.originator;
      recipient = p.recipient;
      asks = map action_in p.asks.items;
      answers = map action_in p.answers.items;
    } };

    ghost invariant = { λ p. HasEnds p.tid p.limit p.originator p.recipient × All IsRead p.asks.items ×
        All IsRead p.answers.items };
}

// Appends a message to those that were sent, if there is one. After an error nothing is appended.
fn send(sent: &mut Vec<Message>, action: Option<Action>) -> Result<(), AllocError>
    requires { IfSome action (λ a. CanBeWritten a) }
    ensures sent { OnOk result (map action_in sent.new.items
        ≡ with_sent (map action_in sent.old.items) action) }
    ensures read { All IsRead sent.old.items → All IsRead sent.new.items }
{
    if let Some(action) = action {
        sent.push(Message::of(&action))?;
    }
    Ok(())
}

// Returns the octets of the message with this number, counted from 0, if it was sent.
fn octets_at(sent: &[Message], index: u32) -> Option<&[u8]>
    ensures { option_copied result ≡ slice_get sent.now index }
{
    Some(sent.get(index as usize)?.octets())
}

impl Parley {
    /// Returns both ends of a TID, 0 to 7, without messages. The recipient gives windows of at most `limit`
    /// numbers, 1 to 256.
    pub fn new(alloc: Global, tid: u8, limit: u16) -> Parley
        requires tid { tid < 8 }
        requires limit { (1 ≤ limit) × (limit ≤ 256) }
        ensures { result ≡ new_parley tid limit }
    {
        Parley {
            tid,
            limit,
            originator: Offer::new(tid, 0),
            recipient: Accept::new(tid, limit, 0),
            asks: Vec::new(alloc),
            answers: Vec::new(alloc),
        }
    }

    /// Returns the originator's agreement, if one is open.
    pub fn originators(&self) -> Option<Agreement>
        ensures { result ≡ originators self.now }
    {
        self.originator.state()
    }

    /// Returns the recipient's agreement, if one is open.
    pub fn recipients(&self) -> Option<Agreement>
        ensures { result ≡ recipients self.now }
    {
        self.recipient.state()
    }

    /// Returns the number of messages that the originator has sent.
    pub fn asks(&self) -> u64
        ensures { result ≡ length self.now.asks }
    {
        self.asks.len() as u64
    }

    /// Returns the number of messages that the recipient has sent.
    pub fn answers(&self) -> u64
        ensures { result ≡ length self.now.answers }
    {
        self.answers.len() as u64
    }

    /// Runs one event, or refuses it and changes nothing. Fails if memory runs out for the message of an
    /// event that is not refused; then the end may have changed its state without sending the message.
    pub fn happen(&mut self, event: Event) -> Result<Option<Refusal>, AllocError>
        requires { IsValidEvent event }
        ensures refusal { IfOk result (λ r. r ≡ session_refusal event self.old) }
        ensures after { OnOk result (self.new ≡ after_event event self.old) }
        ensures wants { OnErr result (wants self.old event ≡ true) }
    {
        match event {
            Event::Ask { window, start } => self.ask(window, start),
            Event::Again => self.again(),
            Event::ToOriginator(index) => Ok(self.to_originator(index)),
            Event::ToRecipient(index) => self.to_recipient(index),
            Event::CloseOriginator => self.close_originator(),
            Event::CloseRecipient => self.close_recipient(),
            Event::RestartOriginator => {
                self.restart_originator();
                Ok(None)
            }
            Event::RestartRecipient => {
                self.restart_recipient();
                Ok(None)
            }
        }
    }

    // The originator sends a request.
    #[tactic(auto, unfolding(wf_session::specs::World::after_event))]
    fn ask(&mut self, window: u16, start: Seq12) -> Result<Option<Refusal>, AllocError>
        requires { (1 ≤ window) × (window ≤ 256) }
        ensures refusal { IfOk result (λ r. r ≡ session_refusal (event.Ask window start) self.old) }
        ensures after { OnOk result (self.new ≡ after_event (event.Ask window start) self.old) }
        ensures sends { OnErr result (session_refusal (event.Ask window start) self.old ≡ None) }
    {
        match self.originator.ask(window, start) {
            Ok(action) => {
                send(&mut self.asks, Some(action))?;
                Ok(None)
            }
            Err(OfferFault::Spent) => Ok(Some(Refusal::Spent)),
            Err(OfferFault::Open { token }) => Ok(Some(Refusal::Open { token })),
        }
    }

    // The originator sends its last request again.
    #[tactic(auto, unfolding(wf_session::specs::World::after_event))]
    fn again(&mut self) -> Result<Option<Refusal>, AllocError>
        ensures refusal { IfOk result (λ r. r ≡ session_refusal event.Again self.old) }
        ensures after { OnOk result (self.new ≡ after_event event.Again self.old) }
        ensures sends { OnErr result (session_refusal event.Again self.old ≡ None) }
    {
        let Some(action) = self.originator.again() else {
            return Ok(Some(Refusal::NotAsked));
        };
        send(&mut self.asks, Some(action))?;
        Ok(None)
    }

    // A message of the recipient arrives.
    #[tactic(auto, unfolding(wf_session::specs::World::after_event))]
    fn to_originator(&mut self, index: u32) -> Option<Refusal>
        ensures refusal { result ≡ session_refusal (event.ToOriginator index) self.old }
        ensures after { self.new ≡ after_event (event.ToOriginator index) self.old }
    {
        let Some(octets) = octets_at(&self.answers, index) else {
            return Some(Refusal::NoMessage);
        };
        self.originator.receive(octets);
        None
    }

    // A message of the originator arrives, and the recipient's response is sent.
    #[tactic(auto, unfolding(wf_session::specs::World::after_event))]
    fn to_recipient(&mut self, index: u32) -> Result<Option<Refusal>, AllocError>
        ensures refusal { IfOk result (λ r. r ≡ session_refusal (event.ToRecipient index) self.old) }
        ensures after { OnOk result (self.new ≡ after_event (event.ToRecipient index) self.old) }
        ensures sends { OnErr result (session_refusal (event.ToRecipient index) self.old ≡ None) }
    {
        let Some(octets) = octets_at(&self.asks, index) else {
            return Ok(Some(Refusal::NoMessage));
        };
        let answer = self.recipient.receive(octets);
        send(&mut self.answers, answer)?;
        Ok(None)
    }

    // The originator ends the agreement.
    #[tactic(auto, unfolding(wf_session::specs::World::after_event))]
    fn close_originator(&mut self) -> Result<Option<Refusal>, AllocError>
        ensures refusal { IfOk result (λ r. r ≡ session_refusal event.CloseOriginator self.old) }
        ensures after { OnOk result (self.new ≡ after_event event.CloseOriginator self.old) }
        ensures sends { OnErr result (session_refusal event.CloseOriginator self.old ≡ None) }
    {
        let Some(action) = self.originator.close() else {
            return Ok(Some(Refusal::NotOpen));
        };
        send(&mut self.asks, Some(action))?;
        Ok(None)
    }

    // The recipient ends the agreement.
    #[tactic(auto, unfolding(wf_session::specs::World::after_event))]
    fn close_recipient(&mut self) -> Result<Option<Refusal>, AllocError>
        ensures refusal { IfOk result (λ r. r ≡ session_refusal event.CloseRecipient self.old) }
        ensures after { OnOk result (self.new ≡ after_event event.CloseRecipient self.old) }
        ensures sends { OnErr result (session_refusal event.CloseRecipient self.old ≡ None) }
    {
        let Some(action) = self.recipient.close() else {
            return Ok(Some(Refusal::NotOpen));
        };
        send(&mut self.answers, Some(action))?;
        Ok(None)
    }

    // The originator loses its state, except its last token.
    #[tactic(auto, unfolding(wf_session::specs::World::after_event))]
    fn restart_originator(&mut self)
        ensures { self.new ≡ after_event event.RestartOriginator self.old }
    {
        self.originator = Offer::new(self.tid, self.originator.last());
    }

    // The recipient loses its state, except its limit and its last token.
    #[tactic(auto, unfolding(wf_session::specs::World::after_event))]
    fn restart_recipient(&mut self)
        ensures { self.new ≡ after_event event.RestartRecipient self.old }
    {
        self.recipient = Accept::new(self.tid, self.limit, self.recipient.last());
    }
}
