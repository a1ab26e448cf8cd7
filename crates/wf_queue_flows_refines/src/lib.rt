//! Laws by which the flow queues of the code (`wf_queue_flows`) behave like the flow queues of the
//! machine's world (`wf_def_world`). If the two agree before a call, they agree after it
//! (`FlowsStandFor`), and the reply is the same. A call changes no other part of the world, nor any
//! accepted frame except its fate.
//!
//! The code stores queues, CoDel states, deficits and rotations in lists of a fixed length, with the
//! frames themselves in the queues. The world has tables that grow, after section 3.1 of the paper, and
//! stores of a frame only what CoDel needs. Each law is a function without a body, whose contract states
//! the law.
#![tactic(auto)]

ghost use Rattle.std.specs.Prelude.{◌≡◌, ℕ, ◌+◌, ◌<◌, ◌≤◌, Bool, true, false, List, [], ◌∷◌, ◌++◌, Option, None, IfSome, length, option_map};
ghost use Rattle.wf_frame.specs.Settings.{IsInRange};
ghost use Rattle.wf_frame.specs.Classes.{all_classes, tid_number};
ghost use Rattle.wf_frame.specs.Frames.{FrameValue, source_octets};
ghost use Rattle.wf_frame.specs.declared.settings.Config.{Config};
ghost use Rattle.wf_frame.specs.declared.classes.Class.{Class};
ghost use Rattle.wf_frame.specs.declared.classes.Cause.TheVariants.{Overlimit, Codel as By_codel, Left, Flushed};
ghost use Rattle.wf_frame.specs.declared.classes.Fate.{Fate};
ghost use Rattle.wf_frame.specs.declared.classes.Fate.TheVariants.{Held, Dropped};
ghost use Rattle.wf_frame.specs.declared.notes.ReplyNote.TheVariants.{Accepted as AcceptedReply, Reaped as ReapedReply};
ghost use Rattle.wf_def_codel.specs.Codel.{Params};
ghost use Rattle.wf_def_rotation.specs.Rotation.{Rotation, no_keys, in_order};
ghost use Rattle.wf_def_agreement.specs.Session.{Session, after_flush as session_flushed};
ghost use Rattle.wf_def_agreement.specs.Receiver.{Receiver};
ghost use Rattle.wf_def_world.specs.World.{World, Bounds, Mode, Station, Share, Exchange, opening, is_live, session, tid_of, frame, accepted_count, codel_params as codel_params, with_station, on_station, on_session, on_receiver, with_mode, on_share, with_queues, with_rotation, with_exchange, without_exchange, with_bounds, with_frame_finished, with_frames_finished};
ghost use Rattle.wf_def_world.specs.FlowQueues.{total_queued, after_queues_left, after_queues_flushed};
ghost use Rattle.wf_def_world.specs.FlowQueues.{frames_queued as world_queued, longest_queue as world_longest, dropped_for_limit as world_dropped, is_listed_elsewhere as world_listed_elsewhere, queue_for as world_queue_for, after_limit as world_after_limit, taken_for_tid as world_take};
ghost use Rattle.wf_def_world.specs.CanSend.{with_listings_of};
ghost use Rattle.wf_def_world.specs.Exchanges.{after_pick, after_tid_turn, caught_up, caught_up_if_plain};
ghost use Rattle.wf_def_world.specs.Step.{waiting_ids, in_rising_order, join_outcome, offload_outcome, plain_outcome, with_window, hold_outcome, begin_outcome, free_outcome, after_numbers_ended, cease_outcome, after_tid_left, without_listings, enqueue_outcome, reap_outcome};
ghost use Rattle.wf_def_world.specs.Text.{tally};
ghost use Rattle.wf_def_lists.specs.Lists.{on};
ghost use Rattle.wf_law_runs.specs.Places.{KeepsPlaces};
ghost use Rattle.wf_queue_flows.specs.Backlog.{in_queues, item_of};
ghost use Rattle.wf_queue_flows.specs.Flows.{FlowsValue, empty_flows, tid_rotation, frames_of_tid, longest_queue, dropped_for_limit, is_listed_by_another, queue_for, loses_next, after_limit, after_put, taken_for_tid, after_purge, after_tid_flush};
ghost use Rattle.wf_queue_flows_refines.specs.Standing.{flows_part, ids, ids_given, times_held, with_finished, waiting_flushed, FlowsStandFor, tid_emptied};
ghost use Rattle.wf_queue_flows_refines.specs.Rest.{rest_of_world};
ghost use Rattle.wf_queue_flows_refines.specs.Frames.{HasEach, Passes, DropsTo, AreAccepted, IsBody, IsBodySettled, HasFrames, notes, with_body, loses_next_in, counts_as, HaveSettled, AreHeld, QueuedAreHeld};

/// The new flow queues agree with the opening world, with the same settings.
pub fn the_flow_queues_open()
    ensures { (c : Config) → IsInRange c → FlowsStandFor (empty_flows c) (opening c) }
{}

/// Each reader of the flow queues returns what the world's reader returns: the number of queued frames
/// of a TID and in total, the longest queue, the frame that the limit drops, whether another TID lists a
/// queue, and the queue for a frame of a flow.
pub fn the_readers_agree()
    ensures queued { (v : FlowsValue) (w : World) (s t : ℕ) → FlowsStandFor v w → s < v.stations → t < 8 →
        frames_of_tid v (tid_number s t) ≡ world_queued w s t }
    ensures total { (v : FlowsValue) (w : World) → FlowsStandFor v w → in_queues v.backlog ≡ total_queued w }
    ensures longest { (v : FlowsValue) (w : World) → FlowsStandFor v w →
        longest_queue v.backlog ≡ world_longest w }
    ensures dropped { (v : FlowsValue) (w : World) → FlowsStandFor v w →
        dropped_for_limit v ≡ world_dropped w }
    ensures elsewhere { (v : FlowsValue) (w : World) (s t q : ℕ) → FlowsStandFor v w → s < v.stations →
        t < 8 →
        is_listed_by_another v (tid_number s t) q ≡ world_listed_elsewhere w s t q }
    ensures queue_for { (v : FlowsValue) (w : World) (s t flow : ℕ) → FlowsStandFor v w → s < v.stations →
        t < 8 →
        queue_for v (tid_number s t) flow ≡ world_queue_for w s t flow }
{}

/// Both sides still agree after an enqueue, if the frame has the next id and the world's clock as its
/// stamp. The reply contains the id and the frame that the code drops for the limit, if any.
pub fn a_frame_is_put_in()
    ensures stands { (v : FlowsValue) (w : World) (s t : ℕ) (f : FrameValue) → FlowsStandFor v w →
        is_live w s ≡ true → s < w.config.stations → t < 8 →
        f.id ≡ accepted_count w → f.stamp ≡ w.clock →
        FlowsStandFor (after_put v (tid_number s t) f) (enqueue_outcome w s t f.flow (length f.body)).world }
    ensures answer { (v : FlowsValue) (w : World) (s t : ℕ) (f : FrameValue) → FlowsStandFor v w →
        f.id ≡ accepted_count w →
        (enqueue_outcome w s t f.flow (length f.body)).reply ≡ AcceptedReply f.id (dropped_for_limit v) }
{}

/// Both sides still agree after a TID takes a frame out, by the world's clock and the CoDel parameters
/// of its station. The frame is the one that the machine takes.
pub fn a_frame_is_taken_out()
    ensures stands { (v : FlowsValue) (w : World) (s t : ℕ) → FlowsStandFor v w → is_live w s ≡ true →
        s < w.config.stations → t < 8 →
        FlowsStandFor (taken_for_tid v (tid_number s t) w.clock (codel_params w s)).flows
        (world_take w s t).world }
    ensures frame { (v : FlowsValue) (w : World) (s t : ℕ) → FlowsStandFor v w → is_live w s ≡ true →
        s < w.config.stations → t < 8 →
        (world_take w s t).item ≡ option_map item_of
        (taken_for_tid v (tid_number s t) w.clock (codel_params w s)).frame }
{}

/// Both sides still agree after an accepted frame that is neither queued nor finished is appended to the
/// finished list, with its fate. Finishing a list of frames is finishing each of them in order.
pub fn a_frame_is_finished()
    ensures stands { (v : FlowsValue) (w : World) (f : FrameValue) → FlowsStandFor v w →
        f.id < accepted_count w → times_held v.backlog f.id ≡ 0 →
        FlowsStandFor (with_finished v (v.backlog.finished ++ f ∷ [])) (with_frame_finished w f.fate f.id) }
    ensures one_more { (w : World) (fate : Fate) (ids : List ℕ) (id : ℕ) →
        with_frames_finished w fate (ids ++ id ∷ [])
        ≡ with_frame_finished (with_frames_finished w fate ids) fate id }
{}

/// Both sides still agree after the first finished frame is reaped, and the reply has its id and its
/// fate. If the code has no finished frame, the world has none.
pub fn a_frame_is_reaped()
    ensures stands { (v : FlowsValue) (w : World) (f : FrameValue) (behind : List FrameValue) →
        FlowsStandFor v w → v.backlog.finished ≡ f ∷ behind →
        FlowsStandFor (with_finished v behind) (reap_outcome w w.finished).world }
    ensures answer { (v : FlowsValue) (w : World) (f : FrameValue) (behind : List FrameValue) →
        FlowsStandFor v w → v.backlog.finished ≡ f ∷ behind →
        (reap_outcome w w.finished).reply ≡ ReapedReply f.id f.fate }
    ensures none { (v : FlowsValue) (w : World) → FlowsStandFor v w → v.backlog.finished ≡ [] →
        w.finished ≡ [] }
{}

/// Both sides still agree after the queued frames of a TID are dropped because its station leaves, in
/// the order of the queue numbers. If the waiting frames of its session were finished before, the result
/// is the machine's world after the TID has left.
pub fn a_tid_is_purged()
    ensures stands { (v : FlowsValue) (w : World) (s t : ℕ) → FlowsStandFor v w → is_live w s ≡ true →
        s < w.config.stations → t < 8 →
        FlowsStandFor (after_purge v (tid_number s t))
        (with_queues (after_queues_left w (in_rising_order (in_order (tid_of w s t).queues))) s t no_keys) }
    ensures left { (v : FlowsValue) (w : World) (s t : ℕ) →
        FlowsStandFor v (with_frames_finished w (Dropped Left) (waiting_ids (session w s t).slots)) →
        is_live w s ≡ true → s < w.config.stations → t < 8 →
        FlowsStandFor (after_purge v (tid_number s t)) (after_tid_left w s t) }
    ensures empty { (v : FlowsValue) (w : World) (s t : ℕ) → FlowsStandFor v w → s < v.stations → t < 8 →
        tid_rotation (after_purge v (tid_number s t)) (tid_number s t) ≡ no_keys }
    ensures others { (v : FlowsValue) (i j : ℕ) → (j ≡ i → ⊥) →
        tid_rotation (after_purge v i) j ≡ tid_rotation v j }
{}

/// Both sides still agree after the queued frames of a TID are flushed, in the order of the queue numbers.
/// If the waiting numbers of its session failed and their frames were finished before, the result is the
/// machine's world after the flush, before a TID without an agreement catches up. The TIDs still list
/// their queues.
pub fn a_tid_is_flushed()
    ensures stands { (v : FlowsValue) (w : World) (s t : ℕ) → FlowsStandFor v w → s < w.config.stations →
        t < 8 →
        FlowsStandFor (after_tid_flush v (tid_number s t))
        (after_queues_flushed w (in_rising_order (in_order (tid_of w s t).queues))) }
    ensures flushed { (v : FlowsValue) (w : World) (s t : ℕ) → FlowsStandFor v (waiting_flushed w s t) →
        s < w.config.stations → t < 8 →
        FlowsStandFor (after_tid_flush v (tid_number s t)) (tid_emptied w s t) }
    ensures lists { (v : FlowsValue) (i j : ℕ) → tid_rotation (after_tid_flush v i) j ≡ tid_rotation v j }
{}

/// How often an id is queued or finished. Each such frame was accepted and is there once; the next id is
/// not there. A put or a finish adds its frame once, a take or a reap removes it once, and no call
/// changes the count of any other frame: a drop, a purge or a flush only moves frames from the queues to
/// the finished list.
pub fn each_frame_is_held_once()
    ensures once { (v : FlowsValue) (w : World) (id : ℕ) → FlowsStandFor v w → times_held v.backlog id ≤ 1 }
    ensures accepted { (v : FlowsValue) (w : World) (id : ℕ) → FlowsStandFor v w →
        0 < times_held v.backlog id → id < accepted_count w }
    ensures next { (v : FlowsValue) (w : World) → FlowsStandFor v w →
        times_held v.backlog (accepted_count w) ≡ 0 }
    ensures put { (v : FlowsValue) (w : World) (id s t : ℕ) (f : FrameValue) → FlowsStandFor v w →
        s < v.stations → t < 8 →
        times_held (after_put v (tid_number s t) f).backlog id ≡ times_held v.backlog id + on (f.id ∷ []) id }
    ensures take { (v : FlowsValue) (w : World) (id i now : ℕ) (params : Params) → FlowsStandFor v w →
        times_held (taken_for_tid v i now params).flows.backlog id + on
        (ids_given (taken_for_tid v i now params).frame) id ≡ times_held v.backlog id }
    ensures finish { (v : FlowsValue) (id : ℕ) (f : FrameValue) →
        times_held (with_finished v (v.backlog.finished ++ f ∷ [])).backlog id
        ≡ times_held v.backlog id + on (f.id ∷ []) id }
    ensures reap { (v : FlowsValue) (id : ℕ) (f : FrameValue) (behind : List FrameValue) →
        v.backlog.finished ≡ f ∷ behind →
        times_held (with_finished v behind).backlog id + on (f.id ∷ []) id ≡ times_held v.backlog id }
    ensures purge { (v : FlowsValue) (w : World) (id i : ℕ) → FlowsStandFor v w →
        times_held (after_purge v i).backlog id ≡ times_held v.backlog id }
    ensures flush { (v : FlowsValue) (w : World) (id i : ℕ) → FlowsStandFor v w →
        times_held (after_tid_flush v i).backlog id ≡ times_held v.backlog id }
{}

/// The number of frames that the world has accepted grows by one in a put. A take, a finish, a leave and
/// a flush do not change it.
pub fn accepted_frames_stay()
    ensures put { (v : FlowsValue) (w : World) (s t flow len : ℕ) → FlowsStandFor v w →
        accepted_count (enqueue_outcome w s t flow len).world ≡ accepted_count w + 1 }
    ensures take { (v : FlowsValue) (w : World) (s t : ℕ) → FlowsStandFor v w → is_live w s ≡ true →
        s < w.config.stations → t < 8 →
        accepted_count (world_take w s t).world ≡ accepted_count w }
    ensures finish { (w : World) (fate : Fate) (id : ℕ) → id < accepted_count w →
        accepted_count (with_frame_finished w fate id) ≡ accepted_count w }
    ensures left { (v : FlowsValue) (w : World) (s t : ℕ) →
        FlowsStandFor v (with_frames_finished w (Dropped Left) (waiting_ids (session w s t).slots)) →
        s < v.stations → t < 8 → accepted_count (after_tid_left w s t)
        ≡ accepted_count (with_frames_finished w (Dropped Left) (waiting_ids (session w s t).slots)) }
    ensures flushed { (v : FlowsValue) (w : World) (s t : ℕ) → FlowsStandFor v (waiting_flushed w s t) →
        s < v.stations → t < 8 →
        accepted_count (tid_emptied w s t) ≡ accepted_count (waiting_flushed w s t) }
{}

/// Both sides still agree after a station that was not live joins, with agreements or without, or offloaded,
/// and after a station leaves whose TIDs list no queue.
pub fn stations_come_and_go()
    ensures joins { (v : FlowsValue) (w : World) (s window start exponent weight : ℕ) → is_live w s ≡ false →
        FlowsStandFor v w →
        FlowsStandFor v (join_outcome w s window start exponent weight).world }
    ensures offloads { (v : FlowsValue) (w : World) (s exponent weight : ℕ) → is_live w s ≡ false →
        FlowsStandFor v w → FlowsStandFor v (offload_outcome w s exponent weight).world }
    ensures joins_plain { (v : FlowsValue) (w : World) (s start exponent weight : ℕ) →
        is_live w s ≡ false → FlowsStandFor v w →
        FlowsStandFor v (plain_outcome w s start exponent weight).world }
    ensures goes { (v : FlowsValue) (w : World) (s : ℕ) → FlowsStandFor v w →
        ((t : ℕ) → t < 8 → tid_rotation v (tid_number s t) ≡ no_keys) →
        FlowsStandFor v (with_station (without_listings w s all_classes) s None) }
{}

/// Both sides still agree after a TID is held back, gets an agreement, or sends its frames one at a time. At
/// the end of an agreement, they agree if they did after the waiting numbers of its session failed and their
/// frames were finished.
pub fn agreements_begin_and_end()
    ensures held { (v : FlowsValue) (w : World) (s t : ℕ) → FlowsStandFor v w →
        FlowsStandFor v (hold_outcome w s t).world }
    ensures begun { (v : FlowsValue) (w : World) (s t window : ℕ) → FlowsStandFor v w →
        FlowsStandFor v (begin_outcome w s t window).world }
    ensures freed { (v : FlowsValue) (w : World) (s t : ℕ) → FlowsStandFor v w →
        FlowsStandFor v (free_outcome w s t).world }
    ensures ceased { (v : FlowsValue) (w : World) (s t : ℕ) →
        FlowsStandFor v (after_numbers_ended w s t) → FlowsStandFor v (cease_outcome w s t).world }
    ensures accepted { (w : World) (s t : ℕ) →
        accepted_count (cease_outcome w s t).world ≡ accepted_count (after_numbers_ended w s t) }
{}

/// The flow queues depend on one part of the world only (`flows_part`), so they agree with every world
/// that has the same part. That part does not depend on the clock, on a station's rate, its stated length
/// of aggregates, stop, BSS, sleep, credit, service period or shares, on modes, sessions, receivers, the
/// rotations of stations, the bounds of a pull or the open exchanges.
pub fn the_rest_does_not_matter()
    ensures same { (v : FlowsValue) (w x : World) → flows_part x ≡ flows_part w → FlowsStandFor v w →
        FlowsStandFor v x }
    ensures clock { (w : World) (now : ℕ) → flows_part (record w { clock = now }) ≡ flows_part w }
    ensures station { (w : World) (s : ℕ) (f : Station → Station) → ((x : Station) → (f x).tids ≡ x.tids) →
        flows_part (on_station w s f) ≡ flows_part w }
    ensures share { (w : World) (s : ℕ) (c : Class) (f : Share → Share) →
        flows_part (on_share w s c f) ≡ flows_part w }
    ensures session { (w : World) (s t : ℕ) (f : Session → Session) →
        flows_part (on_session w s t f) ≡ flows_part w }
    ensures receiver { (w : World) (s t : ℕ) (f : Receiver → Receiver) →
        flows_part (on_receiver w s t f) ≡ flows_part w }
    ensures mode { (w : World) (s t : ℕ) (mode : Mode) → flows_part (with_mode w s t mode) ≡ flows_part w }
    ensures window { (w : World) (s t size : ℕ) → flows_part (with_window w s t size) ≡ flows_part w }
    ensures caught_up { (w : World) (s t : ℕ) → flows_part (caught_up w s t) ≡ flows_part w }
    ensures caught_up_if_plain { (w : World) (s t : ℕ) →
        flows_part (caught_up_if_plain w s t) ≡ flows_part w }
    ensures rotation { (w : World) (c : Class) (r : Rotation) →
        flows_part (with_rotation w c r) ≡ flows_part w }
    ensures exchange { (w : World) (x : Exchange) → flows_part (with_exchange w x) ≡ flows_part w }
    ensures closed { (w : World) (e : ℕ) → flows_part (without_exchange w e) ≡ flows_part w }
    ensures opened { (w : World) (count : ℕ) (opened : List Exchange) →
        flows_part (record w { exchanges = count; opened = opened }) ≡ flows_part w }
    ensures pick { (w : World) (c : Class) → flows_part (after_pick w c) ≡ flows_part w }
    ensures bounds { (w : World) (b : Bounds) → flows_part (with_bounds w b) ≡ flows_part w }
    ensures turn { (w : World) (s : ℕ) (c : Class) (t : ℕ) →
        flows_part (after_tid_turn w s c t) ≡ flows_part w }
    ensures listed { (w : World) (o : Option ℕ) → flows_part (with_listings_of w o) ≡ flows_part w }
{}

/// A call of the flow queues changes no other part of the world: not the clock, the stations, their
/// modes, sessions, receivers and rotations, the bounds of the latest pull, nor the open exchanges. So the
/// same stations are live, with the same CoDel parameters.
pub fn nothing_else_changes()
    ensures put { (w : World) (s t flow len : ℕ) →
        rest_of_world (enqueue_outcome w s t flow len).world ≡ rest_of_world w }
    ensures take { (w : World) (s t : ℕ) → rest_of_world (world_take w s t).world ≡ rest_of_world w }
    ensures finish { (w : World) (fate : Fate) (id : ℕ) →
        rest_of_world (with_frame_finished w fate id) ≡ rest_of_world w }
    ensures finish_all { (w : World) (fate : Fate) (ids : List ℕ) →
        rest_of_world (with_frames_finished w fate ids) ≡ rest_of_world w }
    ensures reap { (w : World) → rest_of_world (reap_outcome w w.finished).world ≡ rest_of_world w }
    ensures left { (w : World) (s t : ℕ) → rest_of_world (after_tid_left w s t) ≡ rest_of_world w }
    ensures flushed { (w : World) (s t : ℕ) → rest_of_world (tid_emptied w s t)
        ≡ rest_of_world (on_session w s t (session_flushed w.config.attempts)) }
    ensures ended { (w : World) (s t : ℕ) → rest_of_world (after_numbers_ended w s t)
        ≡ rest_of_world (on_session w s t (session_flushed w.config.attempts)) }
    ensures live { (w x : World) (s : ℕ) → rest_of_world x ≡ rest_of_world w → is_live x s ≡ is_live w s }
    ensures params { (w x : World) (s : ℕ) → rest_of_world x ≡ rest_of_world w →
        codel_params x s ≡ codel_params w s }
{}

/// Each call keeps a property of the frames. Assume that each queued frame passes a test `p` and each
/// finished one a test `r`, and that a frame which passes `p` passes `r` once it is dropped, for any
/// cause. Then this holds after each call, if a frame that is put in passes `p` and one that is finished
/// passes `r`. A frame that is taken out passes `p`, and one that is reaped passes `r`.
pub fn each_frame_keeps_what_it_has()
    ensures put { (p r : FrameValue → Bool) (v : FlowsValue) (i : ℕ) (f : FrameValue) →
        DropsTo (Passes p) (Passes r) → HasEach (Passes p) (Passes r) v.backlog → p f ≡ true →
        HasEach (Passes p) (Passes r) (after_put v i f).backlog }
    ensures take { (p r : FrameValue → Bool) (v : FlowsValue) (i now : ℕ) (params : Params) →
        DropsTo (Passes p) (Passes r) → HasEach (Passes p) (Passes r) v.backlog →
        HasEach (Passes p) (Passes r) (taken_for_tid v i now params).flows.backlog }
    ensures given { (p r : FrameValue → Bool) (v : FlowsValue) (i now : ℕ) (params : Params) →
        DropsTo (Passes p) (Passes r) → HasEach (Passes p) (Passes r) v.backlog →
        IfSome (taken_for_tid v i now params).frame (Passes p) }
    ensures purge { (p r : FrameValue → Bool) (v : FlowsValue) (i : ℕ) → DropsTo (Passes p) (Passes r) →
        HasEach (Passes p) (Passes r) v.backlog → HasEach (Passes p) (Passes r) (after_purge v i).backlog }
    ensures flush { (p r : FrameValue → Bool) (v : FlowsValue) (i : ℕ) → DropsTo (Passes p) (Passes r) →
        HasEach (Passes p) (Passes r) v.backlog →
        HasEach (Passes p) (Passes r) (after_tid_flush v i).backlog }
    ensures finish { (p r : FrameValue → Bool) (v : FlowsValue) (f : FrameValue) →
        HasEach (Passes p) (Passes r) v.backlog → r f ≡ true →
        HasEach (Passes p) (Passes r) (with_finished v (v.backlog.finished ++ f ∷ [])).backlog }
    ensures reap { (p r : FrameValue → Bool) (v : FlowsValue) (f : FrameValue) (behind : List FrameValue) →
        HasEach (Passes p) (Passes r) v.backlog → v.backlog.finished ≡ f ∷ behind →
        HasEach (Passes p) (Passes r) (with_finished v behind).backlog }
    ensures reaped { (p r : FrameValue → Bool) (v : FlowsValue) (f : FrameValue) (behind : List FrameValue) →
        HasEach (Passes p) (Passes r) v.backlog → v.backlog.finished ≡ f ∷ behind → r f ≡ true }
{}

/// Each queued frame equals the frame that was accepted under its id, and each finished one differs from
/// it only in its fate. Each call keeps this. It also holds for any other function from ids to frames
/// that is the same for all accepted ids.
pub fn the_frames_are_the_accepted_ones()
    ensures open { (c : Config) (bodies : ℕ → FrameValue) → HasFrames (empty_flows c).backlog bodies }
    ensures same { (v : FlowsValue) (w : World) (bodies others : ℕ → FrameValue) → FlowsStandFor v w →
        ((id : ℕ) → id < accepted_count w → others id ≡ bodies id) → HasFrames v.backlog bodies →
        HasFrames v.backlog others }
    ensures put { (v : FlowsValue) (w : World) (bodies : ℕ → FrameValue) (i : ℕ) (f : FrameValue) →
        FlowsStandFor v w → AreAccepted w bodies → HasFrames v.backlog bodies →
        f.id ≡ accepted_count w → f.fate ≡ Held → HasFrames (after_put v i f).backlog (with_body bodies f) }
    ensures take { (v : FlowsValue) (w : World) (bodies : ℕ → FrameValue) (i now : ℕ) (params : Params) →
        FlowsStandFor v w → AreAccepted w bodies → HasFrames v.backlog bodies →
        HasFrames (taken_for_tid v i now params).flows.backlog bodies }
    ensures given { (v : FlowsValue) (w : World) (bodies : ℕ → FrameValue) (i now : ℕ) (params : Params) →
        FlowsStandFor v w → AreAccepted w bodies → HasFrames v.backlog bodies →
        IfSome (taken_for_tid v i now params).frame (IsBody bodies) }
    ensures purge { (v : FlowsValue) (w : World) (bodies : ℕ → FrameValue) (i : ℕ) → FlowsStandFor v w →
        AreAccepted w bodies → HasFrames v.backlog bodies → HasFrames (after_purge v i).backlog bodies }
    ensures flush { (v : FlowsValue) (w : World) (bodies : ℕ → FrameValue) (i : ℕ) → FlowsStandFor v w →
        AreAccepted w bodies → HasFrames v.backlog bodies → HasFrames (after_tid_flush v i).backlog bodies }
    ensures finish { (v : FlowsValue) (bodies : ℕ → FrameValue) (f : FrameValue) →
        HasFrames v.backlog bodies → IsBodySettled bodies f →
        HasFrames (with_finished v (v.backlog.finished ++ f ∷ [])).backlog bodies }
    ensures reap { (v : FlowsValue) (bodies : ℕ → FrameValue) (f : FrameValue) (behind : List FrameValue) →
        HasFrames v.backlog bodies → v.backlog.finished ≡ f ∷ behind →
        HasFrames (with_finished v behind).backlog bodies }
    ensures reaped { (v : FlowsValue) (bodies : ℕ → FrameValue) (f : FrameValue) (behind : List FrameValue) →
        HasFrames v.backlog bodies → v.backlog.finished ≡ f ∷ behind → IsBodySettled bodies f }
{}

/// The accepted frames, and the calls that brought them, stay the same. Only a put adds one.
pub fn the_accepted_frames_are_kept()
    ensures same { (w x : World) (bodies : ℕ → FrameValue) → accepted_count x ≡ accepted_count w →
        notes x ≡ notes w → AreAccepted w bodies → AreAccepted x bodies }
    ensures put { (v : FlowsValue) (w : World) (bodies : ℕ → FrameValue) (f : FrameValue) →
        FlowsStandFor v w → f.id ≡ accepted_count w → length f.source ≡ source_octets → f.fate ≡ Held →
        AreAccepted w bodies →
        AreAccepted (enqueue_outcome w f.station f.tid f.flow (length f.body)).world (with_body bodies f) }
    ensures take { (w : World) (s t : ℕ) → notes (world_take w s t).world ≡ notes w }
    ensures finish { (w : World) (fate : Fate) (id : ℕ) → notes (with_frame_finished w fate id) ≡ notes w }
    ensures finish_all { (w : World) (fate : Fate) (ids : List ℕ) →
        notes (with_frames_finished w fate ids) ≡ notes w }
    ensures left { (w : World) (s t : ℕ) → notes (after_tid_left w s t) ≡ notes w }
    ensures flushed { (w : World) (s t : ℕ) → notes (tid_emptied w s t) ≡ notes w }
    ensures ended { (w : World) (s t : ℕ) → notes (after_numbers_ended w s t) ≡ notes w }
    ensures reap { (w : World) → notes (reap_outcome w w.finished).world ≡ notes w }
{}

/// Each queued frame has the fate Held in the world. This holds in the world of each run, in which a
/// frame has one place, and each call keeps it, also for a world in the middle of a step.
pub fn queued_frames_are_held()
    ensures places { (v : FlowsValue) (w : World) → FlowsStandFor v w → KeepsPlaces w → QueuedAreHeld v w }
    ensures put { (v : FlowsValue) (w : World) (s t : ℕ) (f : FrameValue) → FlowsStandFor v w →
        QueuedAreHeld v w → is_live w s ≡ true → s < w.config.stations → t < 8 →
        f.id ≡ accepted_count w → f.stamp ≡ w.clock →
        QueuedAreHeld (after_put v (tid_number s t) f) (enqueue_outcome w s t f.flow (length f.body)).world }
    ensures take { (v : FlowsValue) (w : World) (s t : ℕ) → FlowsStandFor v w → QueuedAreHeld v w →
        is_live w s ≡ true → s < w.config.stations → t < 8 →
        QueuedAreHeld (taken_for_tid v (tid_number s t) w.clock (codel_params w s)).flows
        (world_take w s t).world }
    ensures finish { (v : FlowsValue) (w : World) (f : FrameValue) → FlowsStandFor v w → QueuedAreHeld v w →
        f.id < accepted_count w → times_held v.backlog f.id ≡ 0 →
        QueuedAreHeld (with_finished v (v.backlog.finished ++ f ∷ [])) (with_frame_finished w f.fate f.id) }
    ensures reap { (v : FlowsValue) (w : World) (behind : List FrameValue) → QueuedAreHeld v w →
        QueuedAreHeld (with_finished v behind) (reap_outcome w w.finished).world }
    ensures left { (v : FlowsValue) (w : World) (s t : ℕ) →
        FlowsStandFor v (with_frames_finished w (Dropped Left) (waiting_ids (session w s t).slots)) →
        QueuedAreHeld v (with_frames_finished w (Dropped Left) (waiting_ids (session w s t).slots)) →
        is_live w s ≡ true → s < w.config.stations → t < 8 →
        QueuedAreHeld (after_purge v (tid_number s t)) (after_tid_left w s t) }
    ensures flushed { (v : FlowsValue) (w : World) (s t : ℕ) → FlowsStandFor v (waiting_flushed w s t) →
        QueuedAreHeld v (waiting_flushed w s t) → s < w.config.stations → t < 8 →
        QueuedAreHeld (after_tid_flush v (tid_number s t)) (tid_emptied w s t) }
{}

/// The number of frames that a take drops, by which the finished list grows: the frames of the TID
/// queued before, minus the frame that is taken out, minus those queued afterwards.
pub fn a_take_drops_what_it_does_not_give()
    ensures code { (v : FlowsValue) (w : World) (s t now : ℕ) (params : Params) → FlowsStandFor v w →
        s < v.stations → t < 8 →
        let i : ℕ = tid_number s t in
        IfSome (taken_for_tid v i now params).frame
        (λ f. length (taken_for_tid v i now params).flows.backlog.finished + frames_of_tid
        (taken_for_tid v i now params).flows i + 1 ≡ length v.backlog.finished + frames_of_tid v i) }
    ensures world { (v : FlowsValue) (w : World) (s t : ℕ) → FlowsStandFor v w → is_live w s ≡ true →
        s < w.config.stations → t < 8 →
        IfSome (world_take w s t).item (λ y. length (world_take w s t).world.finished + world_queued
        (world_take w s t).world s t + 1 ≡ length w.finished + world_queued w s t) }
{}

/// A purge or a flush drops all queued frames of the TID: the finished list grows by their number.
pub fn a_purge_drops_all_that_is_queued()
    ensures purge { (v : FlowsValue) (w : World) (i : ℕ) → FlowsStandFor v w →
        length (after_purge v i).backlog.finished ≡ length v.backlog.finished + frames_of_tid v i }
    ensures flush { (v : FlowsValue) (w : World) (i : ℕ) → FlowsStandFor v w →
        length (after_tid_flush v i).backlog.finished ≡ length v.backlog.finished + frames_of_tid v i }
{}

/// The limit drops a frame of the TID that lists the longest queue, in the code as in the world. The
/// number of queued frames of every other TID is unchanged.
pub fn the_limit_drops_a_frame_of_one_tid()
    ensures loses { (v : FlowsValue) (w : World) (s t : ℕ) → FlowsStandFor v w → s < v.stations → t < 8 →
        loses_next v s t ≡ loses_next_in w s t }
    ensures others { (v : FlowsValue) (s t : ℕ) → loses_next v s t ≡ false →
        frames_of_tid (after_limit v) (tid_number s t) ≡ frames_of_tid v (tid_number s t) }
    ensures others_in { (v : FlowsValue) (w : World) (s t : ℕ) → FlowsStandFor v w → s < v.stations → t < 8 →
        loses_next_in w s t ≡ false → world_queued (world_after_limit w) s t ≡ world_queued w s t }
{}

/// How each call changes the number of frames of each fate. Finishing n different held frames moves n
/// from Held to their fate. This includes the frames that the limit, a take, a leave or a flush drops,
/// whose number is the growth of the finished list. A frame that is put in counts as held.
pub fn the_fates_are_counted()
    ensures finish { (w : World) (fate : Fate) (id : ℕ) → id < accepted_count w → (frame w id).fate ≡ Held →
        HaveSettled w (with_frame_finished w fate id) fate 1 }
    ensures finish_all { (w : World) (fate : Fate) (ids : List ℕ) → AreHeld w ids →
        HaveSettled w (with_frames_finished w fate ids) fate (length ids) }
    ensures limit { (v : FlowsValue) (w : World) (n : ℕ) → FlowsStandFor v w → QueuedAreHeld v w →
        n + length w.finished ≡ length (world_after_limit w).finished →
        HaveSettled w (world_after_limit w) (Dropped Overlimit) n }
    ensures put { (w : World) (s t flow len : ℕ) (x : Fate) →
        tally (enqueue_outcome w s t flow len).world x ≡ tally (world_after_limit w) x + counts_as Held x }
    ensures take { (v : FlowsValue) (w : World) (s t n : ℕ) → FlowsStandFor v w → QueuedAreHeld v w →
        is_live w s ≡ true → s < w.config.stations → t < 8 →
        n + length w.finished ≡ length (world_take w s t).world.finished →
        HaveSettled w (world_take w s t).world (Dropped By_codel) n }
    ensures left { (v : FlowsValue) (w : World) (s t n : ℕ) →
        FlowsStandFor v (with_frames_finished w (Dropped Left) (waiting_ids (session w s t).slots)) →
        QueuedAreHeld v (with_frames_finished w (Dropped Left) (waiting_ids (session w s t).slots)) →
        s < v.stations → t < 8 →
        n + length (with_frames_finished w (Dropped Left) (waiting_ids (session w s t).slots)).finished
        ≡ length (after_tid_left w s t).finished →
        HaveSettled (with_frames_finished w (Dropped Left) (waiting_ids (session w s t).slots))
        (after_tid_left w s t) (Dropped Left) n }
    ensures flushed { (v : FlowsValue) (w : World) (s t n : ℕ) → FlowsStandFor v (waiting_flushed w s t) →
        QueuedAreHeld v (waiting_flushed w s t) → s < v.stations → t < 8 →
        n + length (waiting_flushed w s t).finished ≡ length (tid_emptied w s t).finished →
        HaveSettled (waiting_flushed w s t) (tid_emptied w s t) (Dropped Flushed) n }
{}
