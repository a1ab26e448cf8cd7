//! A message from one end to the other.

ghost use Rattle.std.specs.Prelude.{◌≡◌, Ok};
ghost use Rattle.wf_session.specs.Faults.{decoded_action};
ghost use Rattle.wf_session.specs.Layout.{CanBeWritten, action_octets};

use std::marker::Model;
use wf_session::{Action, encode_action};

/// The octets of an action frame, at most 9.
#[derive(Drop)]
pub struct Message {
    octets: [u8; 9],
    size: usize,
}

impl Model for Message {
    ghost use Rattle.std.specs.Prelude.{ℕ, ◌≤◌, List, take};

    ghost Value = { List ℕ };

    ghost view = { λ m. take m.size m.octets };

    ghost invariant = { λ m. m.size ≤ 9 };
}

impl Message {
    /// Encodes an action. Its TID is at most 7, and its window at most 1023.
    pub fn of(action: &Action) -> Message
        requires { CanBeWritten action.now }
        ensures octets { result ≡ action_octets action.now }
        ensures read_back { decoded_action result ≡ Ok action.now }
    {
        let mut octets = [0; 9];
        let size = encode_action(action, &mut octets);
        Message { octets, size }
    }

    /// Returns the octets.
    pub fn octets(&self) -> &[u8]
        ensures { result.now ≡ self.now }
    {
        &self.octets[..self.size]
    }
}
