//! Defines when a transmit half of the code represents a world of the machine's definition, and proves that
//! it represents the next world after every call. It has definitions and laws only; nothing here runs.
//!
//! specs/Half defines what the half keeps, specs/Views what each part of it reads of a world, and
//! specs/Standing when the half represents the world. `Parts` says that each part of the half represents its
//! part of one world. `StandsFor` says this too, and that the world occurs in a run, so that all laws of runs
//! hold of it.
//!
//! For each call, the laws here say which changes it has to make to the half, that the changed half
//! represents the world after the step, and that its reply is the step's. src/bodies says which frames the
//! half has: those that were accepted and are not reaped, each with its body.
#![tactic(auto)]

ghost use Rattle.std.specs.Prelude.{◌≡◌, ◌<◌, ◌≤◌, ℕ, suc, ◌+◌, ◌-◌, ◌==◌, ◌||◌, ◌++◌, pos, ◌+ℤ◌, ◌-ℤ◌, Bool, true, false, List, [], ◌∷◌, Some, None, is_some, option_map, map, find, count_by, length, max, unwrap_or, ◌%◌, ◌&&◌, nat_le, All, Option, IfSome};
ghost use Rattle.std.specs.List.{list_any};
ghost use Rattle.wf_frame.specs.Classes.{lower_tid, upper_tid, same_class, class_of, tid_number};
ghost use Rattle.wf_frame.specs.Frames.{FrameValue, source_octets};
ghost use Rattle.wf_frame.specs.Settings.{IsInRange};
ghost use Rattle.wf_frame.specs.declared.classes.Class.{Class};
ghost use Rattle.wf_frame.specs.declared.classes.Class.TheVariants.{Bk, Be, Vi, Vo};
ghost use Rattle.wf_frame.specs.declared.classes.Fate.{Fate};
ghost use Rattle.wf_frame.specs.declared.classes.Fate.TheVariants.{Held, Dropped};
ghost use Rattle.wf_frame.specs.declared.classes.Cause.{Cause};
ghost use Rattle.wf_frame.specs.declared.classes.Cause.TheVariants.{Flushed, Ended};
ghost use Rattle.wf_frame.specs.declared.notes.Ask.TheVariants.{Done, Join, Offload, Weight, Leave, Pull, Rate, Tick, Arrive, Answer, Sleep, Wake, Poll, Rx, Reap, Ampdu, Stop, Start, Unsent, GiveUp, Flush, Hold, Begin, Free, Cease, Group, Service, Bss};
ghost use Rattle.wf_frame.specs.declared.notes.GroupCall.{GroupCall};
ghost use Rattle.wf_frame.specs.declared.notes.ServiceAsk.{ServiceAsk};
ghost use Rattle.wf_frame.specs.declared.notes.Ask.TheVariants as call;
ghost use Rattle.wf_frame.specs.declared.notes.AskedRate.{AskedRate};
ghost use Rattle.wf_frame.specs.declared.notes.Limits.{Limits};
ghost use Rattle.wf_frame.specs.declared.notes.Note.{Note};
ghost use Rattle.wf_frame.specs.declared.notes.Note.TheVariants.{Enqueue, Asked};
ghost use Rattle.wf_frame.specs.declared.notes.Refusal.{Refusal};
ghost use Rattle.wf_frame.specs.declared.notes.Refusal.TheVariants.{Idle, Full, Ahead};
ghost use Rattle.wf_frame.specs.declared.notes.ReplyNote.TheVariants.{Accepted, Left, Joined, Set, Now, Slept, Woken, Polled, Charged, Reaped, Stopped, Started, Marked, Begun, Freed, Ceased, Refused, Send};
ghost use Rattle.wf_frame.specs.declared.notes.ReplyNote.TheVariants as reply;
ghost use Rattle.wf_frame.specs.declared.settings.Config.{Config};
ghost use Rattle.wf_frame.specs.declared.notes.Part.TheVariants.{Request as Starts};
ghost use Rattle.wf_def_air.specs.Airtime.{Rate as RateValue, request_charge};
ghost use Rattle.wf_def_codel.specs.Codel.{Params};
ghost use Rattle.wf_def_codel.specs.Parameters.{params_at};
ghost use Rattle.wf_def_air.specs.Fit.{fits, most_octets};
ghost use Rattle.wf_send_parts.specs.declared.exchanges.opened.Sending.TheVariants.{Data, Request as Starts_at};
ghost use Rattle.wf_def_lists.specs.Bounds.{greatest_air, greatest_window};
ghost use Rattle.wf_def_lists.specs.Lengths.{greatest_body};
ghost use Rattle.wf_def_lists.specs.Lists.{IsOnce};
ghost use Rattle.wf_def_agreement.specs.Receiver.{Receiver, Score};
ghost use Rattle.wf_def_lists.specs.Table.{at, has, upto};
ghost use Rattle.wf_def_rotation.specs.Rotation.{Rotation, has_key};
ghost use Rattle.wf_def_agreement.specs.Session.{Session, State, End, after_end, after_flush as session_flushed, slot, start_of, next_number, request_due, with_state, is_acknowledged, is_waiting, is_failed, with_number_given};
ghost use Rattle.wf_def_world.specs.Rates.{rate_asked};
ghost use Rattle.wf_def_world.specs.Group.{bss_count, group_answer};
ghost use Rattle.wf_def_world.specs.Service.{station_served};
ghost use Rattle.wf_def_world.specs.World.{World, is_any_asleep, Bounds, Station, Tid, Share, Queue, Exchange, Mpdu, frame, accepted_count, is_held, is_offloaded, is_agreed, is_plain, is_held_back, codel_params, with_frame_finished, with_frames_finished, Frames, Request, opening, without_exchange, is_live, station, session, share, rotation, exchange, owed_by_all, pending_air, on_station, on_tid, on_session, on_receiver, on_share, on_queue, with_queues, with_rotation, is_wide};
ghost use Rattle.wf_def_world.specs.FlowQueues.{frames_queued as world_queued, after_limit, dropped_for_limit as dropped_for_limit_in};
ghost use Rattle.wf_def_world.specs.CanSend.{request_open, has_waiting, can_give, can_send, can_send_in, is_ready, is_debtor, is_to_list, with_listings_of};
ghost use Rattle.wf_def_world.specs.Exchanges.{Aggregate, Prepared, picked_station, sending_tid, after_tid_turn, aggregate_of, prepared_data, mpdus_of, no_mpdu, numbers_unsent, numbers_given_up, end_of, is_far, charge_of, after_charge, with_settled, with_all_settled, count_in, part_of, caught_up_if_plain, lens_of, mpdu_of, aggregate_charge, has_more_in};
ghost use Rattle.wf_def_world.specs.Refusals.{has_live_credit, refusal, is_at_aql_total, open_of_station, open_of_tid, open_of_class, numbers_waiting, queued_in_class, can_send_any};
ghost use Rattle.wf_def_world.specs.Step.{outcome_of, concerned_station, first_to_send, class_to_send, service_answer, step, plain_window, done_outcome, rx_outcome, send_outcome};
ghost use Rattle.wf_law_runs.specs.Queues.{HasLength, IsAtMost};
ghost use Rattle.wf_law_runs.specs.Rotations.{NoneReady};
ghost use Rattle.wf_send_parts.specs.Tally.{held_in, settled_as, many_settled_as};
ghost use Rattle.wf_law_runs.specs.Places.{IsNumbered, KeepsPlaces};
ghost use Rattle.wf_law_runs.specs.Windows.{EachMpdu, IsPending};
ghost use Rattle.wf_queue_flows.specs.Flows.{frames_of_tid, dropped_for_limit, taken_for_tid};
ghost use Rattle.wf_queue_flows_refines.specs.Frames.{with_body, IsBodySettled};
ghost use Rattle.wf_queue_flows_refines.specs.Standing.{with_finished, times_held, tid_emptied};
ghost use Rattle.wf_queue_flows.specs.Backlog.{held_in_backlog};
ghost use Rattle.wf_queue_flows_refines.specs.Rest.{rest_of_world};
ghost use Rattle.wf_sched.specs.ClassRotas.{SchedValue, deficit};
ghost use Rattle.wf_sched_refines.specs.Standing.{SchedulerStandsFor as TurnsStandFor, LeavesRotas, with_deficit_charged};
ghost use Rattle.wf_send_parts.specs.Answers.{settling_answer};
ghost use Rattle.wf_send_parts.specs.Window.{WindowValue, WindowStandsFor as WindowStandsFor, some_fly, is_flying, IsNumber, HasOwnFrame, state_at, waits, on_air, waiting_from};
ghost use Rattle.wf_send_parts.specs.Expelling.{frame_left, frames_dropped};
ghost use Rattle.wf_send_parts.specs.Flushing.{HasFlushed};
ghost use Rattle.wf_send_parts.specs.Group.{group_state, group_refusal};
ghost use Rattle.wf_send_parts.specs.Sent.{with_one_sent, with_one_unsent};
ghost use Rattle.wf_air.specs.Sizes.{AggregateSizeValue, SizeStandsFor as SizeStandsFor, empty_size};
ghost use Rattle.wf_sched_refines.specs.Calls.{HasPickedInClass};
ghost use Rattle.wf_octets.specs.Distance.{distance};
ghost use Rattle.wf_send_parts.specs.Listing.{IsListedNext};
ghost use Rattle.wf_send_parts.specs.Windows.{WindowsHaveRoom, window_of, with_window};
ghost use Rattle.wf_send_parts.specs.Exchanges.{asks, airtime_of, has_nothing_sent, with_unsent, with_given_up};
ghost use Rattle.wf_send_parts.specs.Members.{member, is_offloaded_in, on_member, with_rate, with_ampdu, with_receipt};
ghost use Rattle.wf_send_parts.specs.Sleepers.{sleeper, with_sleeper, woken};
ghost use Rattle.wf_send_parts.specs.declared.stations.members.Member.{Member};
ghost use Rattle.wf_send_parts.specs.declared.stations.modes.Mode.{Mode};
ghost use Rattle.wf_send_parts.specs.declared.stations.modes.Mode.TheVariants.{OnHold, Agreed};
ghost use Rattle.wf_send_half_model.specs.Half.{TransmitValue, opening_half, some_wait, is_agreed_of, is_plain_of, is_held_back_of, can_give_of, can_send_of, has_live_credit_of, is_ready_of, pending_air_of, is_to_list_of, group_in, is_any_asleep_of, is_ahead_of};
ghost use Rattle.wf_send_half_model.specs.Standing.{open_of, sleeper_of, counts_in, HasWindows, Parts, IsReached, StandsFor, Meets, sending_of, numbers_on_air};
ghost use Rattle.wf_send_half_model.specs.Changes.{after_listing, after_listing_in, AreReset, AreSet, after_mode, after_change, session_resized, after_enqueue, after_admission, after_service_call, after_group_call, after_weight};
ghost use Rattle.wf_send_half_model.specs.Counting.{with_overlimit};
ghost use Rattle.wf_send_half_model.specs.Ending.{after_close, after_finish, after_answer, is_sent_once, IsEnding, state_left};
ghost use Rattle.wf_send_half_model.specs.Leaving.{after_expelled, after_tid_purged, after_leave, IsLeaving, IsExpelling, IsExpelled};
ghost use Rattle.wf_send_half_model.specs.Flushing.{IsFlushing, HasNumbersFlushed, with_queues_flushed, released_at_cease};
ghost use Rattle.wf_send_half_model.specs.Marking.{MarksFit, after_mark, with_transmission_unsent};
ghost use Rattle.wf_send_half_model.specs.Pulling.{sending_tid_of, after_turn, is_wide_of, has_more_in_of, frames_allowed_of, open_next, after_sending};
ghost use Rattle.wf_send_half_model.specs.Filling.{after_pick_within, AreWaiting, IsTakingOff, IsUnderway, with_one_fresh, IsFilling, IsFilled, after_giving, fresh_mpdu, room_for, charge_in, IsToFill, IsChoosing, IsTurned};
ghost use Rattle.wf_send_half_model.specs.Views.{agreements, roster, ledger, HasSameViews, KeepsView, KeepsSums};
ghost use Rattle.wf_send_half_model.specs.Readiness.{loses_in, leaves_ready, ends_service, IsListedBut};

pub mod bodies;

/// A new half represents the opening world, for every function `bodies`.
pub fn a_new_half()
    ensures { (c : Config) (bodies : ℕ → FrameValue) → IsInRange c →
        StandsFor (opening_half c) (opening c) bodies }
{}

/// A half that represents a world represents every world that has the same views and turns.
pub fn the_rest_does_not_matter()
    ensures same { (v : TransmitValue) (w u : World) (bodies : ℕ → FrameValue) → HasSameViews w u →
        LeavesRotas w u → Parts v w bodies → Parts v u bodies }
    ensures turns { (v : TransmitValue) (w u : World) (bodies : ℕ → FrameValue) (turns : SchedValue) →
        HasSameViews w u → TurnsStandFor turns u →
        Parts v w bodies → Parts (record v { sched = turns }) u bodies }
    ensures windows { (windows : List WindowValue) (w u : World) (bodies : ℕ → FrameValue) →
        agreements u ≡ agreements w →
        HasWindows windows w bodies → HasWindows windows u bodies }
{}

/// Says which views of a world each change leaves unchanged. The windows read a world's agreements, the
/// members, sleepers and open exchanges its roster, and the counts its ledger. The calls of the flow queues
/// leave agreements and roster unchanged (`rest`, wf_queue_flows_refines).
pub fn what_a_change_leaves()
    ensures agreements_rest { (w u : World) → rest_of_world u ≡ rest_of_world w →
        agreements u ≡ agreements w }
    ensures agreements_station { (w : World) (s : ℕ) (f : Station → Station) →
        ((x : Station) → (f x).tids ≡ x.tids) →
        agreements (on_station w s f) ≡ agreements w }
    ensures agreements_share { (w : World) (s : ℕ) (c : Class) (f : Share → Share) →
        agreements (on_share w s c f) ≡ agreements w }
    ensures agreements_receiver { (w : World) (s t : ℕ) (f : Receiver → Receiver) →
        agreements (on_receiver w s t f) ≡ agreements w }
    ensures agreements_queues { (w : World) (s t : ℕ) (r : Rotation) →
        agreements (with_queues w s t r) ≡ agreements w }
    ensures roster_rest { (w u : World) → rest_of_world u ≡ rest_of_world w → roster u ≡ roster w }
    ensures roster_station { (w : World) (s : ℕ) (f : Station → Station) → KeepsView f →
        roster (on_station w s f) ≡ roster w }
    ensures roster_share { (w : World) (s : ℕ) (c : Class) (f : Share → Share) → KeepsSums f →
        roster (on_share w s c f) ≡ roster w }
    ensures roster_tid { (w : World) (s t : ℕ) (f : Tid → Tid) → roster (on_tid w s t f) ≡ roster w }
    ensures roster_session { (w : World) (s t : ℕ) (f : Session → Session) →
        roster (on_session w s t f) ≡ roster w }
    ensures ledger_same { (w u : World) → u.frames ≡ w.frames → u.finished ≡ w.finished →
        ledger u ≡ ledger w }
    ensures ledger_station { (w : World) (s : ℕ) (f : Station → Station) →
        ledger (on_station w s f) ≡ ledger w }
    ensures ledger_session { (w : World) (s t : ℕ) (f : Session → Session) →
        ledger (on_session w s t f) ≡ ledger w }
    ensures ledger_share { (w : World) (s : ℕ) (c : Class) (f : Share → Share) →
        ledger (on_share w s c f) ≡ ledger w }
    ensures ledger_queue { (w : World) (q : ℕ) (f : Queue → Queue) → ledger (on_queue w q f) ≡ ledger w }
    ensures lists { (w : World) (c : Class) (r : Rotation) → HasSameViews w (with_rotation w c r) }
{}

/// A query of a half returns the same as that query of the world: who is live, who can send and is ready,
/// whether one of a BSS sleeps, which TIDs have an agreement, which frames are queued or wait, which
/// exchanges are open, and which of their airtime counts against a station's deficit. The scheduler keeps the deficit less
/// this airtime.
pub fn the_readers_agree()
    ensures live { (v : TransmitValue) (w : World) (bodies : ℕ → FrameValue) (s : ℕ) → Parts v w bodies →
        is_some (member v.members s) ≡ is_live w s }
    ensures queued { (v : TransmitValue) (w : World) (bodies : ℕ → FrameValue) (s t : ℕ) → Parts v w bodies →
        is_live w s ≡ true → t < 8 →
        frames_of_tid v.flows (tid_number s t) ≡ world_queued w s t }
    ensures due { (v : TransmitValue) (w : World) (bodies : ℕ → FrameValue) (s t : ℕ) → Parts v w bodies →
        is_live w s ≡ true → t < 8 →
        is_some (window_of v.windows s t).due ≡ request_due (session w s t) }
    ensures waiting { (v : TransmitValue) (w : World) (bodies : ℕ → FrameValue) (s t : ℕ) → Parts v w bodies →
        is_live w s ≡ true → t < 8 →
        some_wait (window_of v.windows s t) ≡ has_waiting w s t }
    ensures numbers_waiting { (v : TransmitValue) (w : World) (bodies : ℕ → FrameValue) (s t : ℕ) →
        Parts v w bodies → is_live w s ≡ true → t < 8 →
        count_by waits (window_of v.windows s t).places ≡ numbers_waiting w s t }
    ensures agreed { (v : TransmitValue) (w : World) (bodies : ℕ → FrameValue) (s t : ℕ) →
        Parts v w bodies → is_live w s ≡ true → t < 8 →
        is_agreed_of v s t ≡ is_agreed w s t }
    ensures held_back { (v : TransmitValue) (w : World) (bodies : ℕ → FrameValue) (s t : ℕ) →
        Parts v w bodies → is_live w s ≡ true → t < 8 →
        is_held_back_of v s t ≡ is_held_back w s t }
    ensures offloaded { (v : TransmitValue) (w : World) (bodies : ℕ → FrameValue) (s : ℕ) → Parts v w bodies →
        is_offloaded_in v.members s ≡ is_offloaded w s }
    ensures plain { (v : TransmitValue) (w : World) (bodies : ℕ → FrameValue) (s t : ℕ) →
        Parts v w bodies → is_live w s ≡ true → t < 8 →
        is_plain_of v s t ≡ is_plain w s t }
    ensures can_give { (v : TransmitValue) (w : World) (bodies : ℕ → FrameValue) (s t : ℕ) →
        Parts v w bodies → is_live w s ≡ true → t < 8 → request_due (session w s t) ≡ false →
        can_give_of v s t ≡ can_give w s t }
    ensures can_send { (v : TransmitValue) (w : World) (bodies : ℕ → FrameValue) (s t : ℕ) →
        Parts v w bodies → is_live w s ≡ true → t < 8 →
        can_send_of v s t ≡ can_send w s t }
    ensures can_send_in { (v : TransmitValue) (w : World) (bodies : ℕ → FrameValue) (s : ℕ) (c : Class) →
        Parts v w bodies → is_live w s ≡ true →
        (can_send_of v s (lower_tid c) || can_send_of v s (upper_tid c)) ≡ can_send_in w s c }
    ensures ready { (v : TransmitValue) (w : World) (bodies : ℕ → FrameValue) (c : Class) (s : ℕ) →
        Parts v w bodies → is_ready_of v c s ≡ is_ready w c s }
    ensures to_list { (v : TransmitValue) (w : World) (bodies : ℕ → FrameValue) (c : Class) (s : ℕ) →
        Parts v w bodies → is_to_list_of v c s ≡ is_to_list w c s }
    ensures pending { (v : TransmitValue) (w : World) (bodies : ℕ → FrameValue) (s : ℕ) (c : Class) →
        Parts v w bodies → pending_air_of v s c ≡ pending_air w s c }
    ensures deficit { (v : TransmitValue) (w : World) (bodies : ℕ → FrameValue) (s : ℕ) (c : Class) →
        Parts v w bodies → is_live w s ≡ true →
        deficit v.sched c s +ℤ pos (pending_air_of v s c) ≡ (share w s c).deficit }
    ensures asks { (v : TransmitValue) (w : World) (bodies : ℕ → FrameValue) (s t : ℕ) → Parts v w bodies →
        asks v.opened s t ≡ request_open w s t }
    ensures exchange { (v : TransmitValue) (w : World) (bodies : ℕ → FrameValue) (e : ℕ) → Parts v w bodies →
        find (λ x. x.number == e) v.opened ≡ option_map open_of (exchange w e) }
    ensures of_station { (v : TransmitValue) (w : World) (bodies : ℕ → FrameValue) (s : ℕ) →
        Parts v w bodies →
        count_by (λ x. x.station == s) v.opened ≡ open_of_station w s }
    ensures of_tid { (v : TransmitValue) (w : World) (bodies : ℕ → FrameValue) (s t : ℕ) → Parts v w bodies →
        count_by (λ x. (x.station == s) && (x.tid == t)) v.opened ≡ open_of_tid w s t }
    ensures of_class { (v : TransmitValue) (w : World) (bodies : ℕ → FrameValue) (c : Class) →
        Parts v w bodies →
        count_by (λ x. same_class x.class c) v.opened ≡ open_of_class w c }
    ensures airtime { (v : TransmitValue) (w : World) (bodies : ℕ → FrameValue) → Parts v w bodies →
        airtime_of v.opened ≡ owed_by_all w.opened }
    ensures ahead { (v : TransmitValue) (w : World) (bodies : ℕ → FrameValue) → Parts v w bodies →
        is_ahead_of v ≡ is_at_aql_total w }
    ensures class_queued { (v : TransmitValue) (w : World) (bodies : ℕ → FrameValue) (s : ℕ) (c : Class) →
        Parts v w bodies → is_live w s ≡ true →
        frames_of_tid v.flows (tid_number s (lower_tid c)) + frames_of_tid v.flows
        (tid_number s (upper_tid c)) ≡ queued_in_class w s c }
    ensures any_tid { (v : TransmitValue) (w : World) (bodies : ℕ → FrameValue) (s : ℕ) → Parts v w bodies →
        is_live w s ≡ true → (p : Class → Bool) →
        list_any (λ t. p (class_of t) && can_send_of v s t) (upto 8) ≡ can_send_any w s p }
    ensures live_credit { (v : TransmitValue) (w : World) (bodies : ℕ → FrameValue) (s : ℕ) →
        Parts v w bodies → is_live w s ≡ true →
        has_live_credit_of v s ≡ has_live_credit w s }
    ensures first { (v : TransmitValue) (w : World) (bodies : ℕ → FrameValue) (s : ℕ) → Parts v w bodies →
        is_live w s ≡ true → (p : Class → Bool) →
        unwrap_or (find (λ c. p c && (can_send_of v s (lower_tid c) || can_send_of v s (upper_tid c)))
        (Vo ∷ Vi ∷ Be ∷ [])) Bk ≡ first_to_send w s p }
    ensures power_save { (v : TransmitValue) (w : World) (bodies : ℕ → FrameValue) (s : ℕ) →
        Parts v w bodies → is_live w s ≡ true → sleeper v.sleepers s ≡ sleeper_of (station w s) }
    ensures more { (v : TransmitValue) (w : World) (bodies : ℕ → FrameValue) (s : ℕ) → Parts v w bodies →
        is_live w s ≡ true → (p : Class → Bool) → has_more_in_of v s p ≡ has_more_in w s p }
    ensures any_asleep { (v : TransmitValue) (w : World) (bodies : ℕ → FrameValue) → Parts v w bodies →
        (b : ℕ) → is_any_asleep_of v b ≡ is_any_asleep w b }
{}

/// A refused call changes nothing, unless it is a pull that finds no ready station.
pub fn a_refusal()
    ensures { (v : TransmitValue) (w : World) (bodies : ℕ → FrameValue) (note : Note) (r : Refusal) →
        StandsFor v w bodies → refusal w note ≡ Some r →
        (r ≡ Idle → ⊥) →
        Meets w bodies note v (Refused r) }
{}

/// The end of a call that is not refused. If the parts represent the world that the call makes, the half
/// lists the station that the call concerns in each class in which it belongs on a list, and then represents
/// the world after the step. It lists no station if the call concerns none, or if the station is listed
/// already in each class in which it belongs on a list. In the world of a run, every ready station is listed,
/// and every debtor.
pub fn the_end_of_a_call()
    ensures listed { (v : TransmitValue) (w : World) (bodies : ℕ → FrameValue) (s : ℕ) → Parts v w bodies →
        Parts (after_listing v s) (with_listings_of w (Some s)) bodies }
    ensures reached { (w : World) (note : Note) → IsReached w → HasLength note → IsAtMost greatest_body note →
        IsReached (step w note).world }
    ensures concerned { (v : TransmitValue) (w : World) (bodies : ℕ → FrameValue) (note : Note) →
        IsReached w → HasLength note → IsAtMost greatest_body note →
        refusal w note ≡ None → Parts v (outcome_of w note).world bodies → (s : ℕ) →
        concerned_station w note ≡ Some s →
        Meets w bodies note (after_listing v s) (outcome_of w note).reply }
    ensures unconcerned { (v : TransmitValue) (w : World) (bodies : ℕ → FrameValue) (note : Note) →
        IsReached w → HasLength note →
        IsAtMost greatest_body note →
        refusal w note ≡ None → Parts v (outcome_of w note).world bodies → concerned_station w note ≡ None →
        Meets w bodies note v (outcome_of w note).reply }
    ensures nobody_new { (v : TransmitValue) (w : World) (bodies : ℕ → FrameValue) (note : Note) →
        IsReached w → HasLength note →
        IsAtMost greatest_body note →
        refusal w note ≡ None → Parts v (outcome_of w note).world bodies → (s : ℕ) →
        concerned_station w note ≡ Some s →
        ((c : Class) → is_to_list (outcome_of w note).world c s ≡ true →
        has_key (rotation (outcome_of w note).world c) s ≡ true) →
        Meets w bodies note v (outcome_of w note).reply }
    ensures ready { (w : World) → IsReached w → (s : ℕ) (c : Class) → is_ready w c s ≡ true →
        has_key (rotation w c) s ≡ true }
    ensures debtor { (w : World) → IsReached w → (s : ℕ) (c : Class) → is_debtor w c s ≡ true →
        has_key (rotation w c) s ≡ true }
{}

/// It is enough to list a station in one class if each other class in which it belongs on a list lists it
/// already. This holds after an enqueue, a pull, a Done and a receive charge, for the class of the frame's
/// TID, the pull's class, the class of the exchange's TID, and the charge's class: in no other class does the
/// call make the station ready or a debtor, or take it off the lists.
pub fn one_class_is_enough()
    ensures listing { (v : TransmitValue) (w : World) (bodies : ℕ → FrameValue) (s : ℕ) (c : Class) →
        Parts v w bodies → IsListedBut w s c → after_listing v s ≡ after_listing_in v s c }
    ensures enqueue { (w : World) (s t flow len : ℕ) → IsReached w → HasLength (Enqueue s t flow len) →
        IsAtMost greatest_body (Enqueue s t flow len) → refusal w (Enqueue s t flow len) ≡ None →
        IsListedBut (outcome_of w (Enqueue s t flow len)).world s (class_of t) }
    ensures pull { (w : World) (c : Class) (l : Limits) (s : ℕ) → IsReached w →
        (picked_station w c).winner ≡ Some s →
        IsListedBut (outcome_of w (Asked (Pull c l))).world s c }
    ensures done { (w : World) (e : ℕ) (x : Exchange) (heard : Bool) (air : Option ℕ) → IsReached w →
        exchange w e ≡ Some x →
        IsListedBut (done_outcome w x heard air).world x.station (class_of x.tid) }
    ensures receipt { (w : World) (s : ℕ) (c : Class) (air : ℕ) → IsReached w →
        IsListedBut (rx_outcome w s c air).world s c }
{}

/// The calls that move no frame, and reap, which takes one off the finished list. If the machine does not
/// refuse the call, the half with these changes represents the world after the step, and the reply is the
/// step's. Tick and Reap concern no station. A rate, a stated length of aggregates and a BSS do not change
/// who belongs on a list, so they list no station. A receive charge may make its station a debtor in its class.
pub fn a_call_that_moves_no_frame()
    ensures tick { (v : TransmitValue) (w : World) (bodies : ℕ → FrameValue) → StandsFor v w bodies →
        (by : ℕ) → refusal w (Asked (Tick by)) ≡ None →
        Meets w bodies (Asked (Tick by)) (record v { clock = v.clock + by }) (Now (v.clock + by)) }
    ensures reap { (v : TransmitValue) (w : World) (bodies : ℕ → FrameValue) → StandsFor v w bodies →
        (f : FrameValue) (behind : List FrameValue) →
        v.flows.backlog.finished ≡ f ∷ behind → refusal w (Asked Reap) ≡ None →
        Meets w bodies (Asked Reap) (record v { inside = v.inside - 1; flows = with_finished v.flows behind })
        (Reaped f.id f.fate) }
    ensures rate { (v : TransmitValue) (w : World) (bodies : ℕ → FrameValue) → StandsFor v w bodies →
        (s : ℕ) (rate : AskedRate) →
        refusal w (Asked (Rate s rate)) ≡ None →
        Meets w bodies (Asked (Rate s rate))
        (record v { members = on_member v.members s (with_rate (rate_asked rate)) }) Set }
    ensures rx { (v : TransmitValue) (w : World) (bodies : ℕ → FrameValue) → StandsFor v w bodies →
        (s : ℕ) (c : Class) (air : ℕ) →
        refusal w (Asked (Rx s c air)) ≡ None →
        Meets w bodies (Asked (Rx s c air)) (after_listing_in (record v {
          sched = with_deficit_charged v.sched s c air;
          members = on_member v.members s (with_receipt c air);
        }) s c)
        (Charged ((deficit v.sched c s +ℤ pos (pending_air_of v s c)) -ℤ pos air)) }
    ensures sleep { (v : TransmitValue) (w : World) (bodies : ℕ → FrameValue) → StandsFor v w bodies →
        (s : ℕ) → refusal w (Asked (Sleep s)) ≡ None →
        Meets w bodies (Asked (Sleep s)) (after_listing
        (record v {
          sleepers = with_sleeper v.sleepers s
              (record (sleeper v.sleepers s) { asleep = true });
        }) s) Slept }
    ensures wake { (v : TransmitValue) (w : World) (bodies : ℕ → FrameValue) → StandsFor v w bodies →
        (s : ℕ) → refusal w (Asked (Wake s)) ≡ None →
        Meets w bodies (Asked (Wake s)) (after_listing
        (record v { sleepers = with_sleeper v.sleepers s (woken (sleeper v.sleepers s)) }) s) Woken }
    ensures poll { (v : TransmitValue) (w : World) (bodies : ℕ → FrameValue) → StandsFor v w bodies →
        (s : ℕ) → refusal w (Asked (Poll s)) ≡ None →
        Meets w bodies (Asked (Poll s))
        (after_listing (record v {
          sleepers = with_sleeper v.sleepers s
              (record (sleeper v.sleepers s) { credit = Some (class_to_send w s) });
        }) s)
        (Polled (class_to_send w s)) }
    ensures ampdu { (v : TransmitValue) (w : World) (bodies : ℕ → FrameValue) → StandsFor v w bodies →
        (s octets : ℕ) → refusal w (Asked (Ampdu s octets)) ≡ None →
        Meets w bodies (Asked (Ampdu s octets))
        (record v { members = on_member v.members s (with_ampdu octets) }) Set }
    ensures bss { (v : TransmitValue) (w : World) (bodies : ℕ → FrameValue) → StandsFor v w bodies →
        (s b : ℕ) → refusal w (Asked (Bss s b)) ≡ None →
        Meets w bodies (Asked (Bss s b))
        (record v { sleepers = with_sleeper v.sleepers s (record (sleeper v.sleepers s) { bss = b }) }) Set }
    ensures stop { (v : TransmitValue) (w : World) (bodies : ℕ → FrameValue) → StandsFor v w bodies →
        (s : ℕ) → refusal w (Asked (Stop s)) ≡ None →
        Meets w bodies (Asked (Stop s)) (after_listing
        (record v {
          sleepers = with_sleeper v.sleepers s
              (record (sleeper v.sleepers s) { stopped = true });
        }) s) Stopped }
    ensures start { (v : TransmitValue) (w : World) (bodies : ℕ → FrameValue) → StandsFor v w bodies →
        (s : ℕ) → refusal w (Asked (Start s)) ≡ None →
        Meets w bodies (Asked (Start s)) (after_listing
        (record v {
          sleepers = with_sleeper v.sleepers s
              (record (sleeper v.sleepers s) { stopped = false });
        }) s) Started }
{}

/// A call about the service periods of a station. If the machine does not refuse it, the half in which the
/// sleeper is changed represents the world after the step, and the reply is the step's.
pub fn a_service_call()
    ensures { (v : TransmitValue) (w : World) (bodies : ℕ → FrameValue) → StandsFor v w bodies →
        (ask : ServiceAsk) → refusal w (Asked (Service ask)) ≡ None →
        Meets w bodies (Asked (Service ask)) (after_listing (after_service_call v ask) (station_served ask))
        (reply.Service (service_answer w ask)) }
{}

/// The calls about the group frames of a BSS. If there is that BSS, the half refuses them as the machine, if
/// the BSS's queue has the room that the setting `buffered` says. A refused call changes nothing. If the
/// machine does not refuse the call, the half with these group frames represents the world after the step,
/// and the reply is the step's. The machine does not know the tag and the destination of a frame that is
/// accepted.
pub fn a_group_call()
    ensures fault { (v : TransmitValue) (w : World) (bodies : ℕ → FrameValue) → Parts v w bodies →
        (g : GroupCall) → g.bss < bss_count v.config.bsses →
        (group_in v g.bss).capacity ≡ v.config.buffered →
        group_refusal (is_any_asleep_of v g.bss) g.ask (group_in v g.bss) ≡ refusal w (Asked (Group g)) }
    ensures refused { (v : TransmitValue) (w : World) (bodies : ℕ → FrameValue) → StandsFor v w bodies →
        (g : GroupCall) (r : Refusal) → refusal w (Asked (Group g)) ≡ Some r →
        Meets w bodies (Asked (Group g)) v (Refused r) }
    ensures meets { (v : TransmitValue) (w : World) (bodies : ℕ → FrameValue) → StandsFor v w bodies →
        (g : GroupCall) (tag : ℕ) (to : List ℕ) → refusal w (Asked (Group g)) ≡ None →
        Meets w bodies (Asked (Group g)) (after_group_call v g tag to)
        (reply.Group (group_answer v.config (is_any_asleep_of v g.bss) g.ask
        (group_state (group_in v g.bss)))) }
{}

/// A station joins. In each class it gets its quantum of airtime, and on each TID a new window and a mode: an
/// agreement, or none if it joins without one or its device numbers its frames. The windows of a station that
/// joins without agreements are of one number. One whose device numbers its frames has the widest windows,
/// from number 0 on.
pub fn a_join()
    ensures joined { (v : TransmitValue) (w : World) (bodies : ℕ → FrameValue) → StandsFor v w bodies →
        (windows : List WindowValue) (modes : List Mode) (s window start exponent weight : ℕ) →
        refusal w (Asked (Join s window start exponent weight)) ≡ None →
        AreReset v.windows windows s start window → AreSet v.modes modes s Agreed →
        Meets w bodies (Asked (Join s window start exponent weight))
        (after_admission v windows modes s exponent weight false) Joined }
    ensures plain { (v : TransmitValue) (w : World) (bodies : ℕ → FrameValue) → StandsFor v w bodies →
        (windows : List WindowValue) (modes : List Mode) (s start exponent weight : ℕ) →
        refusal w (Asked (call.Plain s start exponent weight)) ≡ None →
        AreReset v.windows windows s start plain_window → AreSet v.modes modes s Mode.Plain →
        Meets w bodies (Asked (call.Plain s start exponent weight))
        (after_admission v windows modes s exponent weight false) Joined }
    ensures offloaded { (v : TransmitValue) (w : World) (bodies : ℕ → FrameValue) → StandsFor v w bodies →
        (windows : List WindowValue) (modes : List Mode) (s exponent weight : ℕ) →
        refusal w (Asked (Offload s exponent weight)) ≡ None →
        AreReset v.windows windows s 0 greatest_window → AreSet v.modes modes s Mode.Plain →
        Meets w bodies (Asked (Offload s exponent weight))
        (after_admission v windows modes s exponent weight true) Joined }
{}

/// A station gets another weight. Its quantum in each class becomes another one, its deficits are lowered to
/// what this allows, and it is listed where it becomes a debtor.
pub fn a_weight()
    ensures { (v : TransmitValue) (w : World) (bodies : ℕ → FrameValue) → StandsFor v w bodies →
        (s weight : ℕ) → refusal w (Asked (Weight s weight)) ≡ None →
        Meets w bodies (Asked (Weight s weight)) (after_weight v s weight) Set }
{}

/// Without an agreement no request announces the start of a TID's window to its peer: the window gets its own
/// start as heard, and the receiver has it. Nothing changes for a TID with an agreement.
pub fn a_window_catches_up()
    ensures plain { (v : TransmitValue) (w : World) (bodies : ℕ → FrameValue) (s t : ℕ)
        (x : WindowValue) → Parts v w bodies → is_live w s ≡ true → t < 8 → is_agreed w s t ≡ false →
        WindowsHaveRoom (with_window v.windows s t x) →
        WindowStandsFor x (record (session w s t) {
          heard = max (session w s t).heard (start_of (session w s t));
        }) bodies →
        Parts (record v { windows = with_window v.windows s t x }) (caught_up_if_plain w s t) bodies }
    ensures agreed { (v : TransmitValue) (w : World) (bodies : ℕ → FrameValue) (s t : ℕ) → Parts v w bodies →
        is_agreed w s t ≡ true → Parts v (caught_up_if_plain w s t) bodies }
{}

/// The mode of a TID changes: its frames are held back, so that an agreement may begin, or are sent one at a
/// time again. The answer of a hold has the next number.
pub fn a_mode_changes()
    ensures held { (v : TransmitValue) (w : World) (bodies : ℕ → FrameValue) → StandsFor v w bodies →
        (s t : ℕ) → refusal w (Asked (Hold s t)) ≡ None →
        Meets w bodies (Asked (Hold s t)) (after_listing (after_mode v s t OnHold) s)
        (reply.Held (next_number (session w s t) % 4096)) }
    ensures freed { (v : TransmitValue) (w : World) (bodies : ℕ → FrameValue) → StandsFor v w bodies →
        (s t : ℕ) → refusal w (Asked (Free s t)) ≡ None →
        Meets w bodies (Asked (Free s t)) (after_listing (after_mode v s t Mode.Plain) s) Freed }
{}

/// An agreement begins on a TID of which no number waits or is on the air. Its window is empty (`empty`). It
/// gets the size of the agreement, and its start counts as heard.
pub fn an_agreement_begins()
    ensures empty { (v : TransmitValue) (w : World) (bodies : ℕ → FrameValue) → StandsFor v w bodies →
        (s t window : ℕ) → refusal w (Asked (Begin s t window)) ≡ None →
        (window_of v.windows s t).places ≡ [] }
    ensures begun { (v : TransmitValue) (w : World) (bodies : ℕ → FrameValue) → StandsFor v w bodies →
        (s t window : ℕ) → refusal w (Asked (Begin s t window)) ≡ None → (x : WindowValue) →
        WindowsHaveRoom (with_window v.windows s t x) →
        WindowStandsFor x (session_resized window (session w s t)) bodies →
        Meets w bodies (Asked (Begin s t window)) (after_listing (after_change v s t x Agreed) s) Begun }
{}

/// Arrive and Answer change no part of the half: if it represents a world, it represents the world after such
/// a call, refused or not.
pub fn a_call_that_it_does_not_hear()
    ensures arrive { (v : TransmitValue) (w : World) (bodies : ℕ → FrameValue) (e i : ℕ) →
        StandsFor v w bodies →
        StandsFor v (step w (Asked (Arrive e i))).world bodies }
    ensures answer { (v : TransmitValue) (w : World) (bodies : ℕ → FrameValue) (e : ℕ) →
        StandsFor v w bodies →
        StandsFor v (step w (Asked (Answer e))).world bodies }
{}

/// A device marks a transmission of an open exchange. If it never went on the air, its frame counts one
/// transmission less, which its window shows; a request has no frame. The exchange is changed, and no station
/// has to be listed. The number of the transmission flies, and no other number has its frame.
pub fn a_transmission_is_marked()
    ensures tid { (v : TransmitValue) (w : World) (bodies : ℕ → FrameValue) → StandsFor v w bodies → (e : ℕ)
        (x : Exchange) (mpdus : List Mpdu) → exchange w e ≡ Some x → x.content ≡ Frames mpdus → (i : ℕ) →
        i < length mpdus → x.tid < 8 }
    ensures within { (v : TransmitValue) (w : World) (bodies : ℕ → FrameValue) → StandsFor v w bodies →
        (e : ℕ)
        (x : Exchange) (mpdus : List Mpdu) → exchange w e ≡ Some x → x.content ≡ Frames mpdus → (i : ℕ) →
        i < length mpdus → tid_number x.station x.tid < length v.windows }
    ensures number { (v : TransmitValue) (w : World) (bodies : ℕ → FrameValue) → StandsFor v w bodies →
        (e : ℕ)
        (x : Exchange) (mpdus : List Mpdu) → exchange w e ≡ Some x → x.content ≡ Frames mpdus → (i : ℕ) →
        i < length mpdus → (seq : ℕ) → seq ≡ on_air (at no_mpdu mpdus i).number →
        IsNumber (session w x.station x.tid) (at no_mpdu mpdus i).number seq }
    ensures flies { (v : TransmitValue) (w : World) (bodies : ℕ → FrameValue) → StandsFor v w bodies → (e : ℕ)
        (x : Exchange) (mpdus : List Mpdu) → exchange w e ≡ Some x → x.content ≡ Frames mpdus → (i : ℕ) →
        i < length mpdus → (seq : ℕ) → seq ≡ on_air (at no_mpdu mpdus i).number →
        is_flying (state_at (window_of v.windows x.station x.tid) seq) ≡ true }
    ensures own { (v : TransmitValue) (w : World) (bodies : ℕ → FrameValue) → StandsFor v w bodies → (e : ℕ)
        (x : Exchange) (mpdus : List Mpdu) → exchange w e ≡ Some x → x.content ≡ Frames mpdus → (i : ℕ) →
        i < length mpdus → HasOwnFrame (session w x.station x.tid) (at no_mpdu mpdus i).number }
    ensures unsent { (v : TransmitValue) (w : World) (bodies : ℕ → FrameValue) → StandsFor v w bodies →
        (e : ℕ)
        (x : Exchange) → exchange w e ≡ Some x → (mpdus : List Mpdu) → x.content ≡ Frames mpdus → (i : ℕ) →
        i < length mpdus → refusal w (Asked (Unsent e i)) ≡ None → (z : WindowValue) →
        WindowsHaveRoom (with_window v.windows x.station x.tid z) →
        WindowStandsFor z (session w x.station x.tid)
        (with_one_unsent (slot (session w x.station x.tid) (at no_mpdu mpdus i).number).id bodies) →
        Meets w (with_transmission_unsent x.content i bodies) (Asked (Unsent e i))
        (record (after_mark v e (with_unsent i)) { windows = with_window v.windows x.station x.tid z })
        Marked }
    ensures request { (v : TransmitValue) (w : World) (bodies : ℕ → FrameValue) → StandsFor v w bodies →
        (e : ℕ)
        (x : Exchange) → exchange w e ≡ Some x → (start : ℕ) → x.content ≡ Request start → (i : ℕ) →
        refusal w (Asked (Unsent e i)) ≡ None →
        Meets w (with_transmission_unsent x.content i bodies) (Asked (Unsent e i))
        (after_mark v e (with_unsent i)) Marked }
    ensures given_up { (v : TransmitValue) (w : World) (bodies : ℕ → FrameValue) → StandsFor v w bodies →
        (e : ℕ) (x : Exchange) → exchange w e ≡ Some x → (i : ℕ) → refusal w (Asked (GiveUp e i)) ≡ None →
        Meets w bodies (Asked (GiveUp e i)) (after_mark v e (with_given_up i)) Marked }
{}

/// In the world of a run the marks of each open exchange fit its transmissions. So an exchange with an answer
/// has a transmission that went on the air. A transmission has a mark exactly if its number has.
pub fn the_marks_fit()
    ensures fit { (w : World) → IsReached w → (e : ℕ) (x : Exchange) → exchange w e ≡ Some x → MarksFit x }
    ensures answered { (w : World) → IsReached w → (e : ℕ) (x : Exchange) (b : Score) →
        exchange w e ≡ Some x → x.answer ≡ Some b → has_nothing_sent (open_of x) ≡ false }
    ensures unsent { (w : World) → IsReached w → (e : ℕ) (x : Exchange) (mpdus : List Mpdu) →
        exchange w e ≡ Some x → x.content ≡ Frames mpdus → (i : ℕ) → i < length mpdus →
        has (numbers_unsent x) (at no_mpdu mpdus i).number ≡ has x.unsent i }
    ensures given_up { (w : World) → IsReached w → (e : ℕ) (x : Exchange) (mpdus : List Mpdu) →
        exchange w e ≡ Some x → x.content ≡ Frames mpdus → (i : ℕ) → i < length mpdus →
        has (numbers_given_up x) (at no_mpdu mpdus i).number ≡ has x.given_up i }
{}

/// A frame is accepted. It has the next id, the clock as its stamp, a source of six octets, and a body of 1
/// to 2304 octets. If the queues are at their limit, the head of the longest one is dropped, and the answer
/// contains its id.
pub fn an_enqueue()
    ensures { (v : TransmitValue) (w : World) (bodies : ℕ → FrameValue) → StandsFor v w bodies →
        (f : FrameValue) → refusal w (Enqueue f.station f.tid f.flow (length f.body)) ≡ None →
        f.id ≡ v.tally.accepted → f.stamp ≡ v.clock → length f.source ≡ source_octets → f.fate ≡ Held →
        1 ≤ length f.body → length f.body ≤ greatest_body →
        Meets w (with_body bodies f) (Enqueue f.station f.tid f.flow (length f.body))
        (after_listing_in (after_enqueue v f) f.station (class_of f.tid))
        (Accepted f.id (dropped_for_limit v.flows)) }
{}

/// An exchange of data ends: it is closed and charged, and then its numbers are settled in order. `begins`
/// says what holds before the first of them, `next` that each leads to the next, and `done` what holds after
/// the last. From when a number is settled until the end, it has the state that its answer says (`state`), so
/// the reply can count the answers. A frame without an agreement is not sent again if its number, the first
/// of the window, is too far above the last acknowledged one (`once`). At last the window of a TID without an
/// agreement catches up (`world`).
pub fn an_exchange_of_data_ends()
    ensures begins { (v : TransmitValue) (w : World) (bodies : ℕ → FrameValue) → StandsFor v w bodies →
        (e : ℕ) (x : Exchange) → exchange w e ≡ Some x →
        (ends : ℕ → End) (m : Mpdu) (ms : List Mpdu) → mpdus_of x.content ≡ m ∷ ms →
        EachMpdu (λ k. (slot (session w x.station x.tid) k.number).attempts < w.config.attempts) (m ∷ ms) →
        (air : Option ℕ) →
        IsEnding (after_close v (open_of x) (charge_of air x))
        (after_charge (without_exchange w x.number) x air) bodies x.station x.tid x.number ends (m ∷ ms)
        (with_all_settled (after_charge (without_exchange w x.number) x air) x.station x.tid ends (m ∷ ms)) }
    ensures next { (v : TransmitValue) (w : World) (bodies : ℕ → FrameValue) (s t e : ℕ) (ends : ℕ → End)
        (m : Mpdu) (ms : List Mpdu) (after : World) (x : WindowValue) →
        IsEnding v w bodies s t e ends (m ∷ ms) after → WindowsHaveRoom (with_window v.windows s t x) →
        WindowStandsFor x (after_end v.config.attempts (ends m.number) m.number
        (session w s t)) bodies →
        IsEnding (after_answer (record v { windows = with_window v.windows s t x })
        (settling_answer (ends m.number) v.config.attempts bodies (slot (session w s t) m.number)))
        (with_settled w s t (ends m.number) m) bodies s t e ends ms after }
    ensures state { (v : TransmitValue) (w : World) (bodies : ℕ → FrameValue) (s t e : ℕ) (ends : ℕ → End)
        (m : Mpdu) (ms : List Mpdu) (after : World) →
        IsEnding v w bodies s t e ends (m ∷ ms) after →
        (slot (session after s t) m.number).state
        ≡ state_left (settling_answer (ends m.number) v.config.attempts bodies
        (slot (session w s t) m.number)) }
    ensures done { (v : TransmitValue) (w : World) (bodies : ℕ → FrameValue) (s t e : ℕ) (ends : ℕ → End)
        (after : World) →
        IsEnding v w bodies s t e ends [] after → Parts v after bodies }
    ensures world { (w : World) (x : Exchange) (heard : Bool) (air : Option ℕ) (mpdus : List Mpdu) →
        x.content ≡ Frames mpdus →
        (done_outcome w x heard air).world ≡ caught_up_if_plain (with_all_settled
        (after_charge (without_exchange w x.number) x air) x.station x.tid (end_of w x heard) mpdus)
        x.station x.tid }
    ensures once { (v : TransmitValue) (w : World) (bodies : ℕ → FrameValue) → StandsFor v w bodies →
        (e : ℕ) (x : Exchange) → exchange w e ≡ Some x → (mpdus : List Mpdu) → x.content ≡ Frames mpdus →
        EachMpdu (λ m. is_sent_once v (open_of x)
        ≡ x.plain && is_far (session w x.station x.tid) m.number) mpdus }
{}

/// An exchange of a request ends: it is closed and charged, and if it was heard, the window of its TID gets
/// its start. The request is due, and the window is as near to its start as the window's call requires.
pub fn an_exchange_of_a_request_ends()
    ensures pending { (v : TransmitValue) (w : World) (bodies : ℕ → FrameValue) → StandsFor v w bodies →
        (e : ℕ) (x : Exchange) → exchange w e ≡ Some x →
        (start : ℕ) → x.content ≡ Request start → IsPending start (session w x.station x.tid) }
    ensures tid { (v : TransmitValue) (w : World) (bodies : ℕ → FrameValue) → StandsFor v w bodies →
        (e : ℕ) (x : Exchange) → exchange w e ≡ Some x →
        (start : ℕ) → x.content ≡ Request start → x.tid < 8 }
    ensures unheard { (v : TransmitValue) (w : World) (bodies : ℕ → FrameValue) → StandsFor v w bodies →
        (e : ℕ) (x : Exchange) → exchange w e ≡ Some x →
        (start : ℕ) → x.content ≡ Request start → (air : Option ℕ) →
        Parts (after_close v (open_of x) (charge_of air x)) (done_outcome w x false air).world bodies }
    ensures heard { (v : TransmitValue) (w : World) (bodies : ℕ → FrameValue) → StandsFor v w bodies →
        (e : ℕ) (x : Exchange) → exchange w e ≡ Some x →
        (start : ℕ) → x.content ≡ Request start → (air : Option ℕ) (z : WindowValue) →
        WindowsHaveRoom (with_window v.windows x.station x.tid z) →
        WindowStandsFor z (record (session w x.station x.tid) {
          heard = max
              (session w x.station x.tid).heard start;
        }) bodies →
        Parts (record (after_close v (open_of x) (charge_of air x)) {
          windows = with_window v.windows x.station x.tid z;
        })
        (done_outcome w x true air).world bodies }
{}

/// A whole Done. If the parts represent the world that it makes, the station of the exchange is listed in the
/// class of its TID, if it belongs on a list there. That station is live. The reply counts the numbers of the
/// exchange by their states.
pub fn a_done()
    ensures live { (w : World) → IsReached w → (e : ℕ) (x : Exchange) → exchange w e ≡ Some x →
        is_live w x.station ≡ true }
    ensures whole { (v z : TransmitValue) (w : World) (bodies : ℕ → FrameValue) (e : ℕ) (heard : Bool)
        (air : Option ℕ) (x : Exchange) → StandsFor v w bodies →
        exchange w e ≡ Some x →
        refusal w (Asked (Done e heard air)) ≡ None → Parts z (done_outcome w x heard air).world bodies →
        Meets w bodies (Asked (Done e heard air)) (after_listing_in z x.station (class_of x.tid))
        (done_outcome w x heard air).reply }
    ensures reply { (w : World) (x : Exchange) (heard : Bool) (air : Option ℕ) →
        (done_outcome w x heard air).reply ≡ reply.Done
        (count_in (done_outcome w x heard air).world x is_acknowledged)
        (count_in (done_outcome w x heard air).world x is_waiting)
        (count_in (done_outcome w x heard air).world x is_failed) }
{}

/// The half still represents the world after two small changes on both sides: one window changes with its
/// session, and one held frame goes last on the finished list.
pub fn a_number_or_a_frame_changes()
    ensures window { (v : TransmitValue) (w : World) (bodies : ℕ → FrameValue) (s t : ℕ)
        (f : Session → Session) (x : WindowValue) →
        is_live w s ≡ true → t < 8 →
        WindowsHaveRoom (with_window v.windows s t x) → WindowStandsFor x (f (session w s t)) bodies →
        Parts v w bodies →
        Parts (record v { windows = with_window v.windows s t x }) (on_session w s t f) bodies }
    ensures finish { (v : TransmitValue) (w : World) (bodies : ℕ → FrameValue) (f : FrameValue) →
        f.id < accepted_count w →
        (frame w f.id).fate ≡ Held → is_held f.fate ≡ false →
        times_held v.flows.backlog f.id ≡ 0 → IsBodySettled bodies f → Parts v w bodies →
        Parts (after_finish v f) (with_frame_finished w f.fate f.id) bodies }
    ensures nowhere { (v : TransmitValue) (w : World) (bodies : ℕ → FrameValue) → StandsFor v w bodies →
        (id s t n : ℕ) → IsNumbered w id s t n →
        times_held v.flows.backlog id ≡ 0 }
{}

/// Finishing a frame adds one to the count of its fate and leaves the number of frames inside unchanged. At
/// the limit, the frame that is finished is the head of the longest queue.
pub fn the_counts_follow()
    ensures one { (w : World) (fate : Fate) (id : ℕ) → id < accepted_count w → (frame w id).fate ≡ Held →
        is_held fate ≡ false →
        ledger (with_frame_finished w fate id)
        ≡ record (ledger w) { counts = settled_as fate (counts_in w) } }
    ensures many { (ids : List ℕ) (w : World) (fate : Fate) → IsOnce ids →
        ((id : ℕ) → has ids id ≡ true → (id < accepted_count w) × ((frame w id).fate ≡ Held)) →
        is_held fate ≡ false →
        ledger (with_frames_finished w fate ids)
        ≡ record (ledger w) { counts = many_settled_as fate (length ids) (counts_in w) } }
    ensures limit { (w : World) → KeepsPlaces w →
        ledger (after_limit w) ≡ record (ledger w) {
          counts = with_overlimit (dropped_for_limit_in w)
              (counts_in w);
        } }
{}

/// A station leaves. TID by TID, the frames that its window holds are finished as `left`, one after the
/// other, and then the TID's flow queues are purged. After the eighth TID the station is on no list and no
/// longer live, its frames are settled in the counts, and the answer is their number. `IsLeaving` holds
/// between two TIDs and `IsExpelling` between two frames of a window. None of the station's numbers flies.
/// There is room for each of its frames, and they are at most the setting `room`.
pub fn a_leave()
    ensures begins { (v : TransmitValue) (w : World) (bodies : ℕ → FrameValue) (s : ℕ) →
        StandsFor v w bodies → refusal w (Asked (Leave s)) ≡ None →
        IsLeaving v w bodies s 0 v 0 }
    ensures tid { (before v : TransmitValue) (w : World) (bodies : ℕ → FrameValue) (s t dropped : ℕ) →
        IsLeaving before w bodies s t v dropped → t < 8 →
        IsExpelling before w bodies s t v [] dropped }
    ensures none_fly { (before v : TransmitValue) (w : World) (bodies : ℕ → FrameValue) (s t dropped : ℕ)
        (frames : List FrameValue) →
        IsExpelling before w bodies s t v frames dropped → some_fly (window_of v.windows s t) ≡ false }
    ensures within { (before v : TransmitValue) (w : World) (bodies : ℕ → FrameValue) (s t dropped : ℕ)
        (frames : List FrameValue) →
        IsExpelling before w bodies s t v frames dropped → (tid_number s t < length v.windows) ×
        (s < v.flows.stations) }
    ensures room { (before v : TransmitValue) (w : World) (bodies : ℕ → FrameValue) (s t dropped : ℕ)
        (frames : List FrameValue) →
        (left : IsExpelling before w bodies s t v frames dropped) →
        start_of left.expelled.now < next_number left.expelled.now →
        held_in_backlog v.flows.backlog < v.flows.backlog.room }
    ensures next { (before v : TransmitValue) (w : World) (bodies : ℕ → FrameValue) (s t dropped : ℕ)
        (frames : List FrameValue) →
        (left : IsExpelling before w bodies s t v frames dropped) → (x : WindowValue) (f : FrameValue) →
        start_of left.expelled.now < next_number left.expelled.now →
        f ≡ frame_left bodies (slot left.expelled.now (start_of left.expelled.now)) →
        WindowStandsFor x (with_state State.Acked (start_of left.expelled.now) left.expelled.now) bodies →
        IsExpelling before w bodies s t (after_expelled v s t x f) (frames ++ f ∷ []) (dropped + 1) }
    ensures none { (before v : TransmitValue) (w : World) (bodies : ℕ → FrameValue) (s t dropped : ℕ)
        (frames : List FrameValue) →
        (left : IsExpelling before w bodies s t v frames dropped) → (x : WindowValue) →
        next_number left.expelled.now ≡ start_of left.expelled.now →
        WindowStandsFor x left.expelled.now bodies →
        IsExpelled before w bodies s t (record v { windows = with_window v.windows s t x }) dropped }
    ensures purge { (before v : TransmitValue) (w : World) (bodies : ℕ → FrameValue) (s t dropped : ℕ) →
        IsExpelled before w bodies s t v dropped →
        IsLeaving before w bodies s (suc t) (after_tid_purged v s t)
        (dropped + frames_of_tid v.flows (tid_number s t)) }
    ensures expelled { (before v : TransmitValue) (w : World) (bodies : ℕ → FrameValue) (s t dropped : ℕ)
        (frames : List FrameValue) →
        IsExpelling before w bodies s t v frames dropped → dropped ≤ w.config.room }
    ensures left { (before v : TransmitValue) (w : World) (bodies : ℕ → FrameValue) (s t dropped : ℕ) →
        IsLeaving before w bodies s t v dropped → dropped ≤ w.config.room }
    ensures counts { (before v : TransmitValue) (w : World) (bodies : ℕ → FrameValue) (s t dropped : ℕ) →
        IsLeaving before w bodies s t v dropped →
        dropped ≤ held_in v.tally }
    ensures ends { (before v : TransmitValue) (w : World) (bodies : ℕ → FrameValue) (s dropped : ℕ) →
        IsLeaving before w bodies s 8 v dropped → WindowsHaveRoom v.windows →
        Meets w bodies (Asked (Leave s)) (after_leave v s dropped) (Left dropped) }
{}

/// The waiting numbers of a TID fail, one after the other, for a flush or at the end of an agreement. The
/// frame of each is finished with the cause and counted. `IsFlushing` holds between two numbers, and
/// `HasNumbersFlushed` after the last. There is room for each frame, and they are at most the setting `room`.
pub fn the_waiting_numbers_fail()
    ensures begins { (cause : Cause) (v : TransmitValue) (w : World) (bodies : ℕ → FrameValue) (s t : ℕ) →
        StandsFor v w bodies → is_live w s ≡ true → t < 8 →
        IsFlushing cause v w bodies s t v [] (window_of v.windows s t).start }
    ensures within { (cause : Cause) (before v : TransmitValue) (w : World) (bodies : ℕ → FrameValue)
        (s t : ℕ) (frames : List FrameValue) (from : ℕ) → IsFlushing cause before w bodies s t v frames from →
        tid_number s t < length v.windows }
    ensures room { (cause : Cause) (before v : TransmitValue) (w : World) (bodies : ℕ → FrameValue) (s t : ℕ)
        (frames : List FrameValue) (from : ℕ) → IsFlushing cause before w bodies s t v frames from →
        (x : WindowValue) (f : FrameValue) (next : ℕ) →
        HasFlushed cause w.config.attempts x (session w s t) bodies (frames ++ f ∷ []) next →
        (held_in_backlog v.flows.backlog < v.flows.backlog.room) × (1 ≤ held_in v.tally) }
    ensures next { (cause : Cause) (before v : TransmitValue) (w : World) (bodies : ℕ → FrameValue) (s t : ℕ)
        (frames : List FrameValue) (from : ℕ) → IsFlushing cause before w bodies s t v frames from →
        (x : WindowValue) (f : FrameValue) (next : ℕ) → WindowsHaveRoom (with_window v.windows s t x) →
        f.fate ≡ Dropped cause →
        HasFlushed cause w.config.attempts x (session w s t) bodies (frames ++ f ∷ []) next →
        IsFlushing cause before w bodies s t
        (after_finish (record v { windows = with_window v.windows s t x }) f) (frames ++ f ∷ []) next }
    ensures ends { (cause : Cause) (before v : TransmitValue) (w : World) (bodies : ℕ → FrameValue) (s t : ℕ)
        (frames : List FrameValue) (from : ℕ) → IsFlushing cause before w bodies s t v frames from →
        (x : WindowValue) → WindowsHaveRoom (with_window v.windows s t x) →
        frames ≡ frames_dropped cause bodies (session w s t) →
        WindowStandsFor x (session_flushed w.config.attempts (session w s t)) bodies →
        HasNumbersFlushed cause before w bodies s t (record v { windows = with_window v.windows s t x })
        (length frames) }
    ensures few { (cause : Cause) (before v : TransmitValue) (w : World) (bodies : ℕ → FrameValue)
        (s t dropped : ℕ) → HasNumbersFlushed cause before w bodies s t v dropped →
        dropped ≤ w.config.room }
{}

/// A TID is flushed. First the waiting numbers fail (`the_waiting_numbers_fail`), and then the frames of its
/// queues are finished as `flushed` and counted. Together they are at most the setting `room`. The answer is
/// their number. At last the window of a TID without an agreement catches up.
pub fn a_flush()
    ensures held { (before v : TransmitValue) (w : World) (bodies : ℕ → FrameValue) (s t dropped : ℕ) →
        HasNumbersFlushed Flushed before w bodies s t v dropped →
        frames_of_tid v.flows (tid_number s t) ≤ held_in v.tally }
    ensures few { (before v : TransmitValue) (w : World) (bodies : ℕ → FrameValue) (s t dropped : ℕ) →
        HasNumbersFlushed Flushed before w bodies s t v dropped →
        dropped + frames_of_tid v.flows (tid_number s t) ≤ w.config.room }
    ensures emptied { (before v : TransmitValue) (w : World) (bodies : ℕ → FrameValue) (s t dropped : ℕ) →
        HasNumbersFlushed Flushed before w bodies s t v dropped →
        Parts (with_queues_flushed v s t (frames_of_tid v.flows (tid_number s t))) (tid_emptied w s t)
        bodies }
    ensures whole { (before v u : TransmitValue) (w : World) (bodies : ℕ → FrameValue) (s t dropped : ℕ) →
        refusal w (Asked (Flush s t)) ≡ None → HasNumbersFlushed Flushed before w bodies s t v dropped →
        Parts u (caught_up_if_plain (tid_emptied w s t) s t) bodies →
        Meets w bodies (Asked (Flush s t)) (after_listing u s)
        (reply.Flushed (dropped + frames_of_tid v.flows (tid_number s t))) }
{}

/// An agreement ends. First the waiting numbers fail (`the_waiting_numbers_fail`). None is on the air, so all
/// are settled then. The window gets the size of a TID without an agreement, its start counts as heard, and
/// the TID is held back. The answer has the number of the dropped frames, and the ids of those that the
/// receiver releases, which the half does not know.
pub fn an_agreement_ends()
    ensures empty { (before v : TransmitValue) (w : World) (bodies : ℕ → FrameValue) (s t dropped : ℕ) →
        refusal w (Asked (Cease s t)) ≡ None → HasNumbersFlushed Ended before w bodies s t v dropped →
        (window_of v.windows s t).places ≡ [] }
    ensures ceased { (before v : TransmitValue) (w : World) (bodies : ℕ → FrameValue) (s t dropped : ℕ) →
        refusal w (Asked (Cease s t)) ≡ None → HasNumbersFlushed Ended before w bodies s t v dropped →
        (x : WindowValue) → WindowsHaveRoom (with_window v.windows s t x) →
        WindowStandsFor x (session_resized plain_window (session_flushed w.config.attempts (session w s t)))
        bodies →
        Meets w bodies (Asked (Cease s t)) (after_listing (after_change v s t x OnHold) s)
        (Ceased dropped (released_at_cease w s t)) }
{}

/// A pull that finds no ready station is refused. Without the setting `pending`, its pick has changed the
/// class's lists and the deficits. With the setting, nothing changes.
pub fn a_pull_that_finds_nobody()
    ensures picks { (v : TransmitValue) (w : World) (bodies : ℕ → FrameValue) → StandsFor v w bodies →
        (c : Class) (l : Limits) (turns : SchedValue) → (v.config.pending == 1) ≡ false →
        refusal w (Asked (Pull c l)) ≡ Some Idle → HasPickedInClass w c v.sched turns →
        Meets w bodies (Asked (Pull c l)) (record v { sched = turns }) (Refused Idle) }
    ensures stays { (v : TransmitValue) (w : World) (bodies : ℕ → FrameValue) → StandsFor v w bodies →
        (c : Class) (l : Limits) → (v.config.pending == 1) ≡ true → refusal w (Asked (Pull c l)) ≡ Some Idle →
        Meets w bodies (Asked (Pull c l)) v (Refused Idle) }
{}

/// Decides from the half whether a pull is refused: with `full` if the class has as many open exchanges as
/// are allowed, otherwise with `ahead` if the airtime in flight has reached its limit, otherwise with `idle`
/// if no station is picked, otherwise not. In the world of a run, a station is picked exactly if one is
/// ready.
pub fn a_pull_is_refused()
    ensures full { (v : TransmitValue) (w : World) (bodies : ℕ → FrameValue) (c : Class) (l : Limits) →
        Parts v w bodies →
        nat_le v.config.inflight (count_by (λ x. same_class x.class c) v.opened) ≡ true →
        refusal w (Asked (Pull c l)) ≡ Some (Full (count_by (λ x. same_class x.class c) v.opened)) }
    ensures ahead { (v : TransmitValue) (w : World) (bodies : ℕ → FrameValue) (c : Class) (l : Limits) →
        Parts v w bodies →
        nat_le v.config.inflight (count_by (λ x. same_class x.class c) v.opened) ≡ false →
        is_ahead_of v ≡ true →
        refusal w (Asked (Pull c l)) ≡ Some (Ahead (airtime_of v.opened)) }
    ensures idle { (v : TransmitValue) (w : World) (bodies : ℕ → FrameValue) (c : Class) (l : Limits) →
        Parts v w bodies →
        nat_le v.config.inflight (count_by (λ x. same_class x.class c) v.opened) ≡ false →
        is_ahead_of v ≡ false →
        (picked_station w c).winner ≡ None →
        refusal w (Asked (Pull c l)) ≡ Some Idle }
    ensures none { (v : TransmitValue) (w : World) (bodies : ℕ → FrameValue) (c : Class) (l : Limits) →
        Parts v w bodies →
        nat_le v.config.inflight (count_by (λ x. same_class x.class c) v.opened) ≡ false →
        is_ahead_of v ≡ false → (s : ℕ) →
        (picked_station w c).winner ≡ Some s →
        refusal w (Asked (Pull c l)) ≡ None }
    ensures none_ready { (v : TransmitValue) (w : World) (bodies : ℕ → FrameValue) (c : Class) (l : Limits) →
        Parts v w bodies →
        nat_le v.config.inflight (count_by (λ x. same_class x.class c) v.opened) ≡ false →
        is_ahead_of v ≡ false → NoneReady w c →
        refusal w (Asked (Pull c l)) ≡ Some Idle }
    ensures some_ready { (w : World) (c : Class) → IsReached w → (NoneReady w c → ⊥) →
        (picked_station w c).winner ≡ None → ⊥ }
{}

/// In the world of a run another exchange may be opened. All open exchanges have lower numbers, and each
/// has a charge of at most 65,535 microseconds. If a class has fewer open exchanges than are allowed, there
/// is room for one more among the 32 of all classes.
pub fn an_exchange_may_open()
    ensures above { (v : TransmitValue) (w : World) (bodies : ℕ → FrameValue) → StandsFor v w bodies →
        All (λ o. o.number < v.exchanges) v.opened }
    ensures charges { (v : TransmitValue) (w : World) (bodies : ℕ → FrameValue) → StandsFor v w bodies →
        All (λ o. o.charge ≤ greatest_air) v.opened }
    ensures room { (v : TransmitValue) (w : World) (bodies : ℕ → FrameValue) → StandsFor v w bodies →
        (c : Class) →
        nat_le v.config.inflight (count_by (λ x. same_class x.class c) v.opened) ≡ false →
        length v.opened < 32 }
{}

/// The values that a pull reads of a live station: CoDel's parameters, the room of an aggregate, and how many
/// frames a take dropped, computed from the TID's queued frames before and after it.
pub fn a_pull_reads()
    ensures params { (v : TransmitValue) (w : World) (bodies : ℕ → FrameValue) (s : ℕ) → Parts v w bodies →
        is_live w s ≡ true →
        (rate : RateValue) → option_map (λ m. m.rate) (member v.members s) ≡ Some rate →
        params_at rate ≡ codel_params w s }
    ensures room { (v : TransmitValue) (w : World) (bodies : ℕ → FrameValue) (s : ℕ) → Parts v w bodies →
        is_live w s ≡ true →
        (m : Member) → member v.members s ≡ Some m → (t : ℕ) → t < 8 → (b : Bounds) → w.bounds ≡ b →
        empty_size m.rate (record {
          octets = most_octets m.rate m.exponent m.ampdu;
          frames = frames_allowed_of (sleeper v.sleepers s) m.rate b;
          time = b.air;
        }) v.config.answers (is_wide_of v s t) ≡ room_for w s t }
    ensures drops { (v : TransmitValue) (w : World) (bodies : ℕ → FrameValue) (s t : ℕ) → Parts v w bodies →
        is_live w s ≡ true → t < 8 →
        (params : Params) (f : FrameValue) →
        (taken_for_tid v.flows (tid_number s t) v.clock params).frame ≡ Some f →
        frames_of_tid v.flows (tid_number s t) - 1 - frames_of_tid
        (taken_for_tid v.flows (tid_number s t) v.clock params).flows (tid_number s t)
        ≡ length (taken_for_tid v.flows
        (tid_number s t) v.clock params).flows.backlog.finished - length v.flows.backlog.finished }
{}

/// A pull begins. A station is picked, the pull's bounds are set, and the TID of the class that sends gives
/// the turn to the other TID.
pub fn a_pull_begins()
    ensures pick { (v : TransmitValue) (w : World) (bodies : ℕ → FrameValue) (c : Class)
        (turns : SchedValue) → HasPickedInClass w c v.sched turns →
        Parts v w bodies → (l : Limits) →
        Parts (record v { sched = turns }) (after_pick_within w c l) bodies }
    ensures sends { (v : TransmitValue) (w : World) (bodies : ℕ → FrameValue) (s : ℕ) (c : Class) →
        Parts v w bodies → is_live w s ≡ true →
        sending_tid_of v s c ≡ sending_tid w s c }
    ensures turn { (v : TransmitValue) (w : World) (bodies : ℕ → FrameValue) (s : ℕ) (c : Class) (t : ℕ) →
        s < w.config.stations →
        Parts v w bodies → Parts (after_turn v s c t) (after_tid_turn w s c t) bodies }
{}

/// A prepared exchange is sent. A half that represents the world in which it was prepared then represents the
/// one in which it is sent, and the reply describes the exchange that the half opened.
pub fn an_exchange_is_sent()
    ensures sent { (v : TransmitValue) (bodies : ℕ → FrameValue) (s t : ℕ) (c : Class) (p : Prepared) →
        Parts v p.world bodies → is_live p.world s ≡ true → t < 8 →
        Parts (after_sending v s t c p.charge (sending_of p.content)) (send_outcome s t c p).world bodies }
    ensures reply { (v : TransmitValue) (bodies : ℕ → FrameValue) (s t : ℕ) (c : Class) (p : Prepared) →
        Parts v p.world bodies → is_live p.world s ≡ true → t < 8 →
        Send v.exchanges s t p.charge (part_of (is_offloaded_in v.members s) (is_plain_of v s t) p.content)
        (open_next v s t c p.charge (sending_of p.content)).more
        (open_next v s t c p.charge (sending_of p.content)).eosp ≡ (send_outcome s t c p).reply }
    ensures wide { (v : TransmitValue) (w : World) (bodies : ℕ → FrameValue) (s t : ℕ) → Parts v w bodies →
        is_live w s ≡ true → t < 8 →
        is_wide_of v s t ≡ is_wide w s t }
{}

/// An aggregate first takes waiting numbers, in the order of the window, while they fit. If one does not fit,
/// the aggregate is complete with those before it. If all fit, fresh frames come next.
pub fn waiting_numbers_are_chosen()
    ensures begins { (v : TransmitValue) (w : World) (bodies : ℕ → FrameValue) (s t : ℕ) →
        IsToFill v w bodies s t →
        IsChoosing (room_for w s t) [] (window_of v.windows s t).start w s t }
    ensures near { (v : TransmitValue) (w : World) (bodies : ℕ → FrameValue) (s t : ℕ) →
        IsToFill v w bodies s t →
        (room : AggregateSizeValue) (numbers : List ℕ) (from : ℕ) → IsChoosing room numbers from w s t →
        distance from (window_of v.windows s t).start ≤ length (window_of v.windows s t).places }
    ensures length { (v : TransmitValue) (w : World) (bodies : ℕ → FrameValue) (s t : ℕ) →
        IsToFill v w bodies s t →
        (room : AggregateSizeValue) (numbers : List ℕ) (from : ℕ)
        (so_far : IsChoosing room numbers from w s t)
        (seq : ℕ) (next : IsListedNext (session w s t) so_far.chosen seq) →
        length (bodies (slot (session w s t) next.number).id).body ≡ (mpdu_of w s t next.number).len }
    ensures goes_on { (v : TransmitValue) (w : World) (bodies : ℕ → FrameValue) (s t : ℕ) →
        IsToFill v w bodies s t →
        (room : AggregateSizeValue) (numbers : List ℕ) (from : ℕ)
        (so_far : IsChoosing room numbers from w s t)
        (seq : ℕ) (next : IsListedNext (session w s t) so_far.chosen seq) →
        (more : AggregateSizeValue) → fits room.rate room.limits.octets room.limits.frames room.limits.time
        (lens_of w.config.overhead (map (mpdu_of w s t) so_far.chosen)
        ++ ((mpdu_of w s t next.number).len + v.config.overhead) ∷ []) ≡ true →
        more ≡ record room { count = more.count; octets = more.octets } →
        SizeStandsFor more (lens_of w.config.overhead (map (mpdu_of w s t) so_far.chosen)
        ++ ((mpdu_of w s t next.number).len + v.config.overhead) ∷ []) →
        IsChoosing more (numbers ++ seq ∷ []) ((seq + 1) % 4096) w s t }
    ensures stops { (v : TransmitValue) (w : World) (bodies : ℕ → FrameValue) (s t : ℕ) →
        IsToFill v w bodies s t →
        (room : AggregateSizeValue) (numbers : List ℕ) (from : ℕ)
        (so_far : IsChoosing room numbers from w s t)
        (seq : ℕ) (next : IsListedNext (session w s t) so_far.chosen seq) →
        fits room.rate room.limits.octets room.limits.frames room.limits.time
        (lens_of w.config.overhead (map (mpdu_of w s t) so_far.chosen)
        ++ ((mpdu_of w s t next.number).len + v.config.overhead) ∷ []) ≡ false →
        IsFilled v bodies s t room numbers (aggregate_of w s t) }
    ensures ends { (v : TransmitValue) (w : World) (bodies : ℕ → FrameValue) (s t : ℕ) →
        IsToFill v w bodies s t →
        (room : AggregateSizeValue) (numbers : List ℕ) (from : ℕ)
        (so_far : IsChoosing room numbers from w s t) →
        option_map on_air (waiting_from (session w s t) so_far.listed.number) ≡ None →
        IsFilling v w bodies s t room numbers (map (mpdu_of w s t) so_far.chosen) (aggregate_of w s t) }
    ensures none { (v : TransmitValue) (w : World) (bodies : ℕ → FrameValue) (s t : ℕ) →
        IsToFill v w bodies s t →
        (room : AggregateSizeValue) (numbers : List ℕ) (from : ℕ)
        (so_far : IsChoosing room numbers from w s t) →
        option_map on_air (waiting_from (session w s t) so_far.listed.number) ≡ None → numbers ≡ [] →
        some_wait (window_of v.windows s t) ≡ false }
{}

/// Fresh frames get numbers, one after the other, while the aggregate has room for one and the TID can give
/// one. A frame is taken with the CoDel parameters of the station's rate, the frames that CoDel drops are
/// counted, and the frame gets the next number. If it fits, it joins the aggregate. If not, it waits with its
/// number, and the aggregate is complete without it.
pub fn fresh_frames_are_given()
    ensures full { (v : TransmitValue) (w : World) (bodies : ℕ →
        FrameValue) (s t : ℕ) (room : AggregateSizeValue) (numbers : List ℕ) (mpdus : List Mpdu)
        (after : Aggregate) →
        IsFilling v w bodies s t room numbers mpdus after → room.limits.frames ≤ length numbers →
        IsFilled v bodies s t room numbers after }
    ensures idle { (v : TransmitValue) (w : World) (bodies : ℕ →
        FrameValue) (s t : ℕ) (room : AggregateSizeValue) (numbers : List ℕ) (mpdus : List Mpdu)
        (after : Aggregate) →
        IsFilling v w bodies s t room numbers mpdus after →
        can_give_of v s t ≡ false →
        IsFilled v bodies s t room numbers after }
    ensures own { (v : TransmitValue) (w : World) (bodies : ℕ →
        FrameValue) (s t : ℕ) (room : AggregateSizeValue) (numbers : List ℕ) (mpdus : List Mpdu)
        (after : Aggregate) →
        IsFilling v w bodies s t room numbers mpdus after → (params : Params) → params ≡ codel_params w s →
        (f : FrameValue) → (taken_for_tid v.flows (tid_number s t) v.clock params).frame ≡ Some f →
        f ≡ bodies f.id }
    ensures goes_on { (v : TransmitValue) (w : World) (bodies : ℕ →
        FrameValue) (s t : ℕ) (room : AggregateSizeValue) (numbers : List ℕ) (mpdus : List Mpdu)
        (after : Aggregate) →
        IsFilling v w bodies s t room numbers mpdus after → (params : Params) → params ≡ codel_params w s →
        (f : FrameValue) → (taken_for_tid v.flows (tid_number s t) v.clock params).frame ≡ Some f →
        (x : WindowValue) → WindowsHaveRoom (with_window v.windows s t x) →
        WindowStandsFor x (with_number_given (session w s t) f.id) bodies →
        length numbers < room.limits.frames → can_give_of v s t ≡ true →
        (more : AggregateSizeValue) → fits room.rate room.limits.octets room.limits.frames room.limits.time
        (lens_of w.config.overhead mpdus ++ (length f.body + v.config.overhead) ∷ []) ≡ true →
        more ≡ record room { count = more.count; octets = more.octets } →
        SizeStandsFor more (lens_of w.config.overhead mpdus ++ (length f.body + v.config.overhead) ∷ []) →
        IsFilling (after_giving v s t params x) (with_one_fresh w s t) bodies s t more
        (numbers ++ on_air (next_number (session w s t)) ∷ []) (mpdus ++ fresh_mpdu w s t f ∷ []) after }
    ensures stops { (v : TransmitValue) (w : World) (bodies : ℕ →
        FrameValue) (s t : ℕ) (room : AggregateSizeValue) (numbers : List ℕ) (mpdus : List Mpdu)
        (after : Aggregate) →
        IsFilling v w bodies s t room numbers mpdus after → (params : Params) → params ≡ codel_params w s →
        (f : FrameValue) → (taken_for_tid v.flows (tid_number s t) v.clock params).frame ≡ Some f →
        (x : WindowValue) → WindowsHaveRoom (with_window v.windows s t x) →
        WindowStandsFor x (with_number_given (session w s t) f.id) bodies →
        length numbers < room.limits.frames → can_give_of v s t ≡ true →
        fits room.rate room.limits.octets room.limits.frames room.limits.time
        (lens_of w.config.overhead mpdus ++ (length f.body + v.config.overhead) ∷ []) ≡ false →
        IsFilled (after_giving v s t params x) bodies s t room numbers after }
{}

/// The numbers of an aggregate take off, one after the other. Each of them still waits when its turn comes,
/// with a frame that no other number has. If the window then represents the session in which the number
/// flies, and its frame has counted the attempt, the numbers after it are next. At the end all fly.
pub fn the_numbers_take_off()
    ensures begins { (v : TransmitValue) (a : Aggregate) (bodies : ℕ → FrameValue) (s t : ℕ) →
        Parts v a.world bodies → is_live a.world s ≡ true → t < 8 → IsUnderway a.world s t →
        AreWaiting (session a.world s t) bodies a.mpdus →
        IsTakingOff v a.world bodies s t a.world.exchanges a.mpdus (prepared_data s t a).world }
    ensures number { (v : TransmitValue) (w : World) (bodies : ℕ → FrameValue) (s t e : ℕ) (m : Mpdu)
        (ms : List Mpdu) (after : World) →
        IsTakingOff v w bodies s t e (m ∷ ms) after → (seq : ℕ) → seq ≡ m.number % 4096 →
        IsNumber (session w s t) m.number seq }
    ensures waits { (v : TransmitValue) (w : World) (bodies : ℕ → FrameValue) (s t e : ℕ) (m : Mpdu)
        (ms : List Mpdu) (after : World) →
        IsTakingOff v w bodies s t e (m ∷ ms) after → (seq : ℕ) → seq ≡ m.number % 4096 →
        state_at (window_of v.windows s t) seq ≡ State.Waiting }
    ensures frame { (v : TransmitValue) (w : World) (bodies : ℕ → FrameValue) (s t e : ℕ) (m : Mpdu)
        (ms : List Mpdu) (after : World) →
        IsTakingOff v w bodies s t e (m ∷ ms) after → (bodies (slot (session w s t) m.number).id).id ≡ m.id }
    ensures own { (v : TransmitValue) (w : World) (bodies : ℕ → FrameValue) (s t e : ℕ) (m : Mpdu)
        (ms : List Mpdu) (after : World) →
        IsTakingOff v w bodies s t e (m ∷ ms) after → HasOwnFrame (session w s t) m.number }
    ensures next { (v : TransmitValue) (w : World) (bodies : ℕ → FrameValue) (s t e : ℕ) (m : Mpdu)
        (ms : List Mpdu) (after : World) →
        IsTakingOff v w bodies s t e (m ∷ ms) after → (x : WindowValue) →
        WindowsHaveRoom (with_window v.windows s t x) →
        WindowStandsFor x (with_state (State.Flying e) m.number (session w s t))
        (with_one_sent (slot (session w s t) m.number).id bodies) →
        IsTakingOff (record v { windows = with_window v.windows s t x })
        (on_session w s t (with_state (State.Flying e) m.number)) (with_one_sent m.id bodies) s t e ms after }
    ensures ends { (v : TransmitValue) (w : World) (bodies : ℕ → FrameValue) (s t e : ℕ) (after : World) →
        IsTakingOff v w bodies s t e [] after → Parts v after bodies }
{}

/// A whole pull. A station is picked and has its turn, and the half prepares what one of its TIDs sends. If a
/// request is due, it sends the request. Otherwise it sends an aggregate, after this is filled and all its
/// numbers have taken off. Then the half represents the world after the step, and the reply is the step's.
pub fn a_pull()
    ensures tid { (v : TransmitValue) (w : World) (bodies : ℕ → FrameValue) → StandsFor v w bodies →
        (c : Class) (l : Limits) (s : ℕ) →
        (picked_station w c).winner ≡ Some s →
        (turns : SchedValue) → HasPickedInClass w c v.sched turns →
        sending_tid_of (record v { sched = turns }) s c ≡ sending_tid (after_pick_within w c l) s c }
    ensures sends { (v : TransmitValue) (w : World) (bodies : ℕ → FrameValue) → StandsFor v w bodies →
        (c : Class) (l : Limits) (s : ℕ) →
        (picked_station w c).winner ≡ Some s →
        (turns : SchedValue) → HasPickedInClass w c v.sched turns →
        can_send_of (record v { sched = turns }) s (sending_tid_of (record v { sched = turns }) s c) ≡ true }
    ensures turned { (v : TransmitValue) (w : World) (bodies : ℕ → FrameValue) → StandsFor v w bodies →
        (c : Class) (l : Limits) (s : ℕ) →
        (picked_station w c).winner ≡ Some s →
        (turns : SchedValue) → HasPickedInClass w c v.sched turns → (t : ℕ) →
        t ≡ sending_tid_of (record v { sched = turns }) s c →
        IsTurned (after_turn (record v { sched = turns }) s c t)
        (after_tid_turn (after_pick_within w c l) s c t) bodies s t }
    ensures request { (v : TransmitValue) (w : World) (bodies : ℕ → FrameValue) → StandsFor v w bodies →
        (c : Class) (l : Limits) (s : ℕ) →
        refusal w (Asked (Pull c l)) ≡ None →
        (picked_station w c).winner ≡ Some s → (t : ℕ) → t ≡ sending_tid (after_pick_within w c l) s c →
        (x : TransmitValue) → IsTurned x (after_tid_turn (after_pick_within w c l) s c t) bodies s t →
        is_some (window_of x.windows s t).due ≡ true →
        (charge : ℕ) → IfSome (member x.members s) (λ m.
        charge ≡ request_charge x.config.answers m.rate (is_wide_of x s t)) →
        Meets w bodies (Asked (Pull c l)) (after_listing_in
        (after_sending x s t c charge (Starts_at (window_of x.windows s t).start)) s c)
        (Send x.exchanges s t charge (Starts (window_of x.windows s t).start)
        (open_next x s t c charge (Starts_at (window_of x.windows s t).start)).more
        (open_next x s t c charge (Starts_at (window_of x.windows s t).start)).eosp) }
    ensures charge { (v : TransmitValue) (bodies : ℕ → FrameValue) (s t : ℕ) (room : AggregateSizeValue)
        (numbers : List ℕ) (a : Aggregate) →
        IsFilled v bodies s t room numbers a →
        charge_in room (is_plain_of v s t) (lens_of a.world.config.overhead a.mpdus)
        ≡ aggregate_charge s t a }
    ensures data { (v : TransmitValue) (w : World) (bodies : ℕ → FrameValue) → StandsFor v w bodies →
        (c : Class) (l : Limits) (s : ℕ) →
        refusal w (Asked (Pull c l)) ≡ None →
        (picked_station w c).winner ≡ Some s → (t : ℕ) → t ≡ sending_tid (after_pick_within w c l) s c →
        (a : Aggregate) → aggregate_of (after_tid_turn (after_pick_within w c l) s c t) s t ≡ a →
        request_due (session (after_tid_turn (after_pick_within w c l) s c t) s t) ≡ false →
        (x : TransmitValue) (u : World) (sent : ℕ → FrameValue) →
        IsTakingOff x u sent s t a.world.exchanges [] (prepared_data s t a).world →
        (charge : ℕ) (numbers : List ℕ) → charge ≡ aggregate_charge s t a → numbers ≡ numbers_on_air a.mpdus →
        Meets w sent (Asked (Pull c l)) (after_listing_in (after_sending x s t c charge (Data numbers)) s c)
        (Send x.exchanges s t charge
        (part_of (is_offloaded_in x.members s) (is_plain_of x s t) (Frames a.mpdus))
        (open_next x s t c charge (Data numbers)).more
        (open_next x s t c charge (Data numbers)).eosp) }
{}

/// Says which calls leave the readiness of a station unchanged. Each call does so for every station that it
/// does not concern, in each class in which the limit drops none of its frames. An enqueue, a pull and a Done
/// do so for their own station too, except in the class of the frame's TID, the pull's class, and the class
/// of the exchange's TID; but a pull whose exchange ends a service period may change all classes of its
/// station. A refusal and some of the calls do so for all stations.
pub fn readiness_stays()
    ensures others { (w : World) (note : Note) → IsReached w → (s : ℕ) (c : Class) →
        (concerned_station w note ≡ Some s → ⊥) →
        loses_in w note s c ≡ false → is_ready (step w note).world c s ≡ is_ready w c s }
    ensures enqueue { (w : World) (s t flow len : ℕ) → IsReached w → HasLength (Enqueue s t flow len) →
        IsAtMost greatest_body (Enqueue s t flow len) →
        (i : ℕ) (c : Class) → (i ≡ s → class_of t ≡ c → ⊥) → loses_in w (Enqueue s t flow len) i c ≡ false →
        is_ready (step w (Enqueue s t flow len)).world c i ≡ is_ready w c i }
    ensures pull { (w : World) (d : Class) (l : Limits) → IsReached w → (i : ℕ) (c : Class) →
        ((picked_station w d).winner ≡ Some i →
        (d ≡ c → ⊥) × (ends_service (step w (Asked (Pull d l))).reply ≡ false)) →
        is_ready (step w (Asked (Pull d l))).world c i ≡ is_ready w c i }
    ensures done { (w : World) (e : ℕ) (heard : Bool) (air : Option ℕ) (x : Exchange) → IsReached w →
        exchange w e ≡ Some x →
        (i : ℕ) (c : Class) → (i ≡ x.station → class_of x.tid ≡ c → ⊥) →
        is_ready (step w (Asked (Done e heard air))).world c i ≡ is_ready w c i }
    ensures nobody { (w : World) (note : Note) → IsReached w → leaves_ready note ≡ true →
        (s : ℕ) (c : Class) →
        is_ready (step w note).world c s ≡ is_ready w c s }
    ensures refused { (w : World) (note : Note) (r : Refusal) → refusal w note ≡ Some r →
        (s : ℕ) (c : Class) →
        is_ready (step w note).world c s ≡ is_ready w c s }
{}
