//! The call that never waits.
ghost use Rattle.std.specs.Prelude.{◌≡◌, ◌+◌, ◌<◌, ◌≤◌, ◌∷◌, [], ◌++◌, length, IfOk, IfErr, OnOk};
ghost use mathlib.Core.List.{IsPrefix};
ghost use Rattle.wf_gate.specs.Seats.{IsOf, IsSameSeat, IsAtRest, EndsWith, last_place, AreOfSeats, IsRightAt};
ghost use Rattle.wf_gate.specs.Faults.{IfSpent, IfBusy};

use crate::gate::Gate;
use crate::seat::Seat;
use crate::turn::{attempt, serve};
use wf_machine::Machine;

/// The reason why a `try_call` made no call.
#[derive(Debug, Drop)]
pub enum TryFault {
    /// The seat's quota is used up.
    Spent,
    /// Other calls were under way: the serving word was loaded first, and the compare-and-exchange of the
    /// ticket word then found a greater number. `serving` counts the calls made, and `ticket` the tickets
    /// drawn, since the gate was made.
    Busy { ticket: u64, serving: u64 },
}

impl<M: Machine + Drop> Gate<M> {
    /// Makes one call of the machine and returns its reply, if no other call is under way. It never waits.
    ///
    /// Fails with `Spent` if the seat's quota is used up, and with `Busy` if other calls are under way. Both
    /// return the call.
    pub fn try_call(
        &self,
        seat: &mut Seat<M>,
        call: M::Call,
    ) -> Result<M::Reply, (TryFault, M::Call)>
        requires own { IsOf self.now seat.old }
        ensures same { IsSameSeat seat.old seat.new }
        ensures rest { IsAtRest seat.new }

        // If the call was made.
        ensures left { OnOk result (seat.old.used < seat.old.quota) }
        ensures used { OnOk result (seat.new.used ≡ seat.old.used + 1) }
        ensures seen { OnOk result (IsPrefix seat.old.seen seat.new.seen) }
        ensures entry { OnOk result (EndsWith seat.new.seen (seat.old.number, M.note call)) }
        ensures own { OnOk result (seat.new.own ≡ seat.old.own ++ last_place seat.new.seen ∷ []) }
        ensures looks { OnOk result (seat.new.looks ≡ seat.old.looks) }
        ensures callers { OnOk result (AreOfSeats self.now seat.new.seen) }
        ensures reply { IfOk result (IsRightAt M.past M.settings M.right self.now seat.new.seen
            (last_place seat.new.seen) seat.old.number call) }

        // If the quota was used up.
        ensures spent { IfErr result (λ e. IfSpent e.0 (seat.old.used ≡ seat.old.quota)) }
        ensures unchanged { IfErr result (λ e. IfSpent e.0 (seat.new ≡ seat.old)) }

        // If other calls were under way. Both numbers were read in this call.
        ensures busy { IfErr result (λ e. IfBusy e.0
            (λ ticket serving. (length seat.old.seen ≤ serving) × (serving < ticket))) }
        ensures busy_left { IfErr result (λ e. IfBusy e.0 (λ _ _. seat.old.used < seat.old.quota)) }
        ensures looked { IfErr result (λ e. IfBusy e.0
            (λ ticket serving. seat.new ≡ record seat.old {
              looks = seat.old.looks ++ (serving, ticket)
                  ∷ [];
            })) }

        ensures back { IfErr result (λ e. e.1 ≡ call) }
    {
        if seat.used == seat.quota {
            return Err((TryFault::Spent, call));
        }
        let shared = &self.table.shared;
        let (serving, ticket) = attempt(shared, &mut seat.pass);
        if ticket != serving {
            return Err((TryFault::Busy { ticket, serving }, call));
        }
        let reply = serve(shared, &mut seat.pass, seat.number, call);
        seat.used += 1;
        Ok(reply)
    }
}
