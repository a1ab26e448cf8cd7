//! Laws by which the station scheduler of the code (`wf_sched`) behaves like the rotations and deficits of
//! the machine's world (`wf_def_world`). The two agree at the start, and if they agree before a call, they
//! agree after it (`SchedulerStandsFor`).
//!
//! The scheduler stores for each access class two lists of stations, and for each station a deficit and a
//! quantum of airtime ("Ending the Anomaly", USENIX ATC 2017, section 3.2). A world has the same as a part of
//! its state, but the scheduler's deficit is the world's standing: with the setting `pending`, the computed
//! airtime of an exchange is taken off when it opens, and paid back when it ends, before its charge is taken
//! off. Each law is a function without a body, whose contract states the law.
#![tactic(auto)]

ghost use Rattle.std.specs.Prelude.{◌≡◌, ◌↔◌, ℕ, ◌+◌, ◌*◌, ◌-◌, ◌^◌, ◌<◌, Bool, true, false, if◌then◌else◌, List, [], ◌∷◌, ◌++◌, Option, None, Some, pos, negsuc, ◌+ℤ◌, ◌-ℤ◌, ◌≤ℤ◌, ◌<ℤ◌, int_lt};
ghost use Rattle.wf_frame.specs.declared.settings.Config.{Config};
ghost use Rattle.wf_frame.specs.declared.classes.Class.{Class};
ghost use Rattle.wf_frame.specs.declared.classes.Fate.{Fate};
ghost use Rattle.wf_frame.specs.declared.notes.AskedRate.{AskedRate};
ghost use Rattle.wf_frame.specs.declared.notes.GroupCall.{GroupCall};
ghost use Rattle.wf_frame.specs.declared.notes.ServiceAsk.{ServiceAsk};
ghost use Rattle.wf_frame.specs.declared.notes.Note.{Note};
ghost use Rattle.wf_frame.specs.declared.notes.ReplyNote.TheVariants.{Charged};
ghost use Rattle.wf_frame.specs.declared.notes.Refusal.{Refusal};
ghost use Rattle.wf_frame.specs.Classes.{all_classes};
ghost use Rattle.wf_frame.specs.Settings.{IsInRange};
ghost use Rattle.wf_def_lists.specs.Bounds.{deepest_deficit};
ghost use Rattle.wf_def_rotation.specs.Rotation.{Rotation, has_key};
ghost use Rattle.wf_def_agreement.specs.Session.{Session};
ghost use Rattle.wf_def_agreement.specs.Receiver.{Receiver};
ghost use Rattle.wf_def_world.specs.World.{World, Bounds, Station, Mode, Tid, Queue, Exchange, Content, opening as opening_world, share, owed, pending_air, standing, rotation, is_live, exchange, with_station, on_station, on_tid, on_session, on_receiver, on_queue, with_mode, with_queues, with_fate, with_frame_finished, with_frames_finished, with_exchange, without_exchange, with_bounds};
ghost use Rattle.wf_def_world.specs.FlowQueues.{taken_for_tid};
ghost use Rattle.wf_def_world.specs.CanSend.{is_ready, is_debtor, is_to_list, with_listing_in, with_listings_in, with_listings_of};
ghost use Rattle.wf_def_world.specs.Exchanges.{Prepared, picked_station, after_pick, after_tid_turn, with_spent, aggregate_of, prepared_exchange, with_exchange_opened, charge_of, after_charge, after_done};
ghost use Rattle.wf_def_world.specs.Refusals.{refusal};
ghost use Rattle.wf_def_world.specs.Stretches.{world_at};
ghost use Rattle.wf_def_world.specs.Run.{Entry};
ghost use Rattle.wf_def_world.specs.Step.{join_outcome as joined_world, offload_outcome, plain_outcome, weight_outcome, hold_outcome, begin_outcome, free_outcome, cease_outcome, outcome_of, concerned_station, step, after_tids_left, without_listings, leave_outcome, rate_outcome, tick_outcome, with_frame, enqueue_outcome, send_outcome, pull_outcome_for, arrive_outcome, answer_outcome, done_outcome, sleep_outcome, wake_outcome, poll_outcome, rx_outcome, reap_outcome, ampdu_outcome, stop_outcome, start_outcome, unsent_outcome, give_up_outcome, flush_outcome, group_outcome, service_outcome, bss_outcome};
ghost use Rattle.wf_law_rules.specs.Renamed.{IsSame};
ghost use Rattle.wf_law_runs.specs.Windows.{OpenRises, EachOpen};
ghost use Rattle.wf_rotation.specs.Rotas.{is_ready as entry};
ghost use Rattle.wf_sched.specs.ClassRotas.{SchedValue, new_scheduler, class_rota, class_rotation as rotation_of, deficit, with_class_rota, IsNowhere, after_join, after_station_left, pick_of_class, IsAfterPick};
ghost use Rattle.wf_sched_refines.specs.Calls.{IsCallDone, IsRefused, with_winner_sent, with_concerned};
ghost use Rattle.wf_sched_refines.specs.Standing.{SchedulerStandsFor, everywhere, with_deficit_charged, with_pending_charged, with_pending_paid_back, with_listed, with_listed_where, with_weight, uncovered_air, TellsReady, HasSameRotas, KeepsRotas, HasSameAir, LeavesRotas};

/// A new scheduler agrees with the opening world: no station is live, and none is listed.
pub fn a_new_scheduler()
    ensures { (config : Config) → SchedulerStandsFor (new_scheduler config.stations config.quantum)
        (opening_world config) }
{}

/// A scheduler and a world that agree have in common the standing of a live station, and whether a
/// station is listed. A live station's number is below the number of stations. A station that is not live is
/// listed nowhere, so it may join.
pub fn a_station()
    ensures deficit { (v : SchedValue) (w : World) (s : ℕ) (c : Class) → SchedulerStandsFor v w →
        is_live w s ≡ true → deficit v c s ≡ standing w s c }
    ensures listed { (v : SchedValue) (w : World) (s : ℕ) (c : Class) → SchedulerStandsFor v w →
        has_key (rotation_of v c) s ≡ has_key (rotation w c) s }
    ensures known { (v : SchedValue) (w : World) (s : ℕ) → SchedulerStandsFor v w → is_live w s ≡ true →
        s < v.stations }
    ensures nowhere { (v : SchedValue) (w : World) (s : ℕ) → SchedulerStandsFor v w → is_live w s ≡ false →
        IsNowhere v s }
{}

/// Both sides still agree after an exchange ends: with the setting `pending` its computed airtime is paid
/// back, and its charge, computed or given by its Done, is taken off its station's deficit in its class. In
/// the worlds of a run, no deficit gets near the limits of 64 bits, for any charge of 32 bits (microseconds),
/// and none rises to 2^32 when airtime is paid back.
pub fn a_charge()
    ensures charged { (v : SchedValue) (w : World) (x : Exchange) (air : Option ℕ) → SchedulerStandsFor v w →
        SchedulerStandsFor (with_deficit_charged v x.station x.class (charge_of air x))
        (after_charge w x air) }
    ensures ended { (v : SchedValue) (w : World) (x : Exchange) (heard : Bool) (air : Option ℕ) →
        exchange w x.number ≡ Some x → OpenRises 0 w.exchanges w.opened → SchedulerStandsFor v w →
        SchedulerStandsFor (with_deficit_charged
        (with_pending_paid_back w.config v x.station x.class x.charge) x.station x.class (charge_of air x))
        (done_outcome w x heard air).world }
    ensures fits { (config : Config) (history : List Entry) (m : ℕ) (v : SchedValue) (s : ℕ) (c : Class)
        (air : ℕ) → IsInRange config →
        SchedulerStandsFor v (world_at config history m) → is_live (world_at config history m) s ≡ true →
        air < 2 ^ 32 →
        negsuc (2 ^ 62 - 1) ≤ℤ (deficit v c s -ℤ pos air) }
    ensures paid_back { (config : Config) (history : List Entry) (m e : ℕ) (v : SchedValue) (x : Exchange) →
        IsInRange config → SchedulerStandsFor v (world_at config history m) →
        exchange (world_at config history m) e ≡ Some x → config.pending ≡ 1 →
        is_live (world_at config history m) x.station ≡ true →
        (deficit v x.class x.station +ℤ pos x.charge) ≤ℤ pos (2 ^ 32 - 1) }
    ensures after_paid_back { (config : Config) (history : List Entry) (m : ℕ) (v : SchedValue)
        (s : ℕ) (c : Class) (back air : ℕ) → IsInRange config →
        SchedulerStandsFor v (world_at config history m) → is_live (world_at config history m) s ≡ true →
        air < 2 ^ 32 →
        negsuc (2 ^ 62 - 1) ≤ℤ (deficit (with_pending_paid_back config v s c back) c s -ℤ pos air) }
{}

/// Both sides still agree after a receive charge: the airtime that a station used to send is taken off its
/// deficit. The reply contains the new deficit of the world: the scheduler's old deficit, plus the airtime in
/// flight that counts against the station, less the charge. Both sides refuse the charge by the same test, if
/// the scheduler's limit `debt` is larger than the world's by that airtime in flight.
pub fn a_receive_charge()
    ensures received { (v : SchedValue) (w : World) (s : ℕ) (c : Class) (air : ℕ) → SchedulerStandsFor v w →
        SchedulerStandsFor (with_deficit_charged v s c air) (rx_outcome w s c air).world }
    ensures reply { (v : SchedValue) (w : World) (s : ℕ) (c : Class) (air : ℕ) → SchedulerStandsFor v w →
        is_live w s ≡ true →
        (rx_outcome w s c air).reply ≡ Charged ((deficit v c s +ℤ pos (pending_air w s c)) -ℤ pos air) }
    ensures refused { (v : SchedValue) (w : World) (s : ℕ) (c : Class) (air : ℕ) → SchedulerStandsFor v w →
        is_live w s ≡ true →
        ((deficit v c s -ℤ pos air) <ℤ deepest_deficit (w.config.debt + pending_air w s c) ↔
        int_lt ((share w s c).deficit -ℤ pos air) (deepest_deficit w.config.debt) ≡ true) }
{}

/// Both sides still agree after a station joins to which no exchange is open, with agreements or without, or
/// offloaded. Its deficit and its quantum in each class are the setting `quantum` times its weight.
pub fn a_join()
    ensures joined { (v : SchedValue) (w : World) (s window start exponent weight : ℕ) →
        SchedulerStandsFor v w →
        s < w.config.stations → ((c : Class) → owed s c w.opened ≡ 0) →
        SchedulerStandsFor (everywhere (after_join s (v.quantum * weight)) v)
        (joined_world w s window start exponent weight).world }
    ensures offloaded { (v : SchedValue) (w : World) (s exponent weight : ℕ) → SchedulerStandsFor v w →
        s < w.config.stations → ((c : Class) → owed s c w.opened ≡ 0) →
        SchedulerStandsFor (everywhere (after_join s (v.quantum * weight)) v)
        (offload_outcome w s exponent weight).world }
    ensures joined_plain { (v : SchedValue) (w : World) (s start exponent weight : ℕ) →
        SchedulerStandsFor v w →
        s < w.config.stations → ((c : Class) → owed s c w.opened ≡ 0) →
        SchedulerStandsFor (everywhere (after_join s (v.quantum * weight)) v)
        (plain_outcome w s start exponent weight).world }
{}

/// Both sides still agree after a station gets another weight: its quantum in each class becomes another one,
/// and each of its deficits is lowered to it. With the setting `pending` the scheduler's deficit is lowered
/// further, by the airtime in flight that the world's deficit does not cover.
pub fn a_weight()
    ensures weighed { (v : SchedValue) (w : World) (s weight : ℕ) → SchedulerStandsFor v w →
        SchedulerStandsFor (with_weight (uncovered_air w s) s weight v) (weight_outcome w s weight).world }
{}

/// Both sides still agree after a station leaves, which removes it from the lists of each class.
pub fn a_leave()
    ensures off { (v : SchedValue) (w : World) (s : ℕ) → SchedulerStandsFor v w →
        SchedulerStandsFor (everywhere (after_station_left s) v)
        (with_station (without_listings w s all_classes) s None) }
    ensures gone { (v : SchedValue) (w : World) (s : ℕ) → SchedulerStandsFor v w →
        SchedulerStandsFor (everywhere (after_station_left s) v) (leave_outcome w s).world }
{}

/// Both sides still agree after the station that a call concerns is listed in each class in which it belongs
/// on a list: on the new list if it is ready there, on the old list if it is only a debtor. None of this
/// depends on the lists, so it may be computed for all classes before the first listing, or class by class.
/// `more` adds one class, for a loop over the classes.
pub fn a_listing()
    ensures ready { (v : SchedValue) (w : World) (s : ℕ) (c : Class) → SchedulerStandsFor v w →
        is_ready w c s ≡ true → SchedulerStandsFor (with_listed true v s c) (with_listing_in w s c) }
    ensures debtor { (v : SchedValue) (w : World) (s : ℕ) (c : Class) → SchedulerStandsFor v w →
        is_ready w c s ≡ false → is_debtor w c s ≡ true →
        SchedulerStandsFor (with_listed false v s c) (with_listing_in w s c) }
    ensures idle { (v : SchedValue) (w : World) (s : ℕ) (c : Class) → SchedulerStandsFor v w →
        is_to_list w c s ≡ false → SchedulerStandsFor v (with_listing_in w s c) }
    ensures readiness { (w : World) (s : ℕ) (c d : Class) (other : ℕ) →
        is_ready (with_listing_in w s c) d other ≡ is_ready w d other }
    ensures debts { (w : World) (s : ℕ) (c d : Class) (other : ℕ) →
        is_debtor (with_listing_in w s c) d other ≡ is_debtor w d other }
    ensures all { (v : SchedValue) (w : World) (s : ℕ) (classes : List Class) (to_list ready : Class → Bool) →
        ((c : Class) → to_list c ≡ is_to_list w c s) → ((c : Class) → ready c ≡ is_ready w c s) →
        SchedulerStandsFor v w → SchedulerStandsFor (with_listed_where to_list ready s classes v)
        (with_listings_in w s classes) }
    ensures concerned { (v : SchedValue) (w : World) (s : ℕ) (to_list ready : Class → Bool) →
        ((c : Class) → to_list c ≡ is_to_list w c s) → ((c : Class) → ready c ≡ is_ready w c s) →
        SchedulerStandsFor v w → SchedulerStandsFor (with_listed_where to_list ready s all_classes v)
        (with_listings_of w (Some s)) }
    ensures unconcerned { (v : SchedValue) (w : World) → SchedulerStandsFor v w →
        SchedulerStandsFor v (with_listings_of w None) }
    ensures more { (v : SchedValue) (s : ℕ) (classes : List Class) (c : Class)
        (to_list ready : Class → Bool) →
        with_listed_where to_list ready s (classes ++ c ∷ []) v
        ≡ (if to_list c then with_listed (ready c) (with_listed_where to_list ready s classes v) s c
        else with_listed_where to_list ready s classes v) }
{}

/// The pick of a class, with a list `ready` that says for each listed station whether it is ready; a list
/// that is right for every station is right for those (`tells`). The winner, the lists and the quanta are the
/// same on both sides. Both sides still agree after each station is paid its quanta; the other classes do not
/// change.
pub fn a_pick()
    ensures tells { (v : SchedValue) (w : World) (c : Class) (ready : List Bool) → SchedulerStandsFor v w →
        ((s : ℕ) → s < w.config.stations → entry ready s ≡ is_ready w c s) → TellsReady w c ready }
    ensures same { (v : SchedValue) (w : World) (c : Class) (ready : List Bool) → SchedulerStandsFor v w →
        TellsReady w c ready →
        IsSame (picked_station w c) (pick_of_class v c ready) }
    ensures stands { (v u : SchedValue) (w : World) (c : Class) (ready : List Bool) → SchedulerStandsFor v w →
        TellsReady w c ready →
        IsAfterPick (class_rota v c) (pick_of_class v c ready) (class_rota u c) →
        u ≡ with_class_rota v c (class_rota u c) → SchedulerStandsFor u (after_pick w c) }
{}

/// A scheduler that agrees with one world agrees with every other that has the same settings, rotations, live
/// stations, standings and weights.
pub fn the_same_turns()
    ensures { (w u : World) → HasSameRotas w u → LeavesRotas w u }
{}

/// A change of a station that keeps its weight and its deficits does not affect the scheduler: a change of
/// its agreements or their modes, of the flow queues that it lists, of the TID whose turn it is, or of its
/// credit and its service period.
pub fn a_change_of_a_station()
    ensures station { (w : World) (s : ℕ) (f : Station → Station) → KeepsRotas f →
        LeavesRotas w (on_station w s f) }
    ensures tid { (w : World) (s t : ℕ) (f : Tid → Tid) → LeavesRotas w (on_tid w s t f) }
    ensures session { (w : World) (s t : ℕ) (f : Session → Session) → LeavesRotas w (on_session w s t f) }
    ensures receiver { (w : World) (s t : ℕ) (f : Receiver → Receiver) → LeavesRotas w (on_receiver w s t f) }
    ensures mode { (w : World) (s t : ℕ) (mode : Mode) → LeavesRotas w (with_mode w s t mode) }
    ensures queues { (w : World) (s t : ℕ) (r : Rotation) → LeavesRotas w (with_queues w s t r) }
    ensures turn { (w : World) (s : ℕ) (c : Class) (t : ℕ) → LeavesRotas w (after_tid_turn w s c t) }
    ensures spent { (w : World) (x : Exchange) → LeavesRotas w (with_spent w x) }
{}

/// Changes of frames and flow queues do not affect the scheduler.
pub fn a_change_of_frames()
    ensures queue { (w : World) (q : ℕ) (f : Queue → Queue) → LeavesRotas w (on_queue w q f) }
    ensures accepted { (w : World) (note : Note) → LeavesRotas w (with_frame w note) }
    ensures fate { (w : World) (id : ℕ) (fate : Fate) → LeavesRotas w (with_fate w id fate) }
    ensures finished { (w : World) (fate : Fate) (id : ℕ) → LeavesRotas w (with_frame_finished w fate id) }
    ensures all_finished { (w : World) (fate : Fate) (ids : List ℕ) →
        LeavesRotas w (with_frames_finished w fate ids) }
    ensures taken { (w : World) (s t : ℕ) → LeavesRotas w (taken_for_tid w s t).world }
    ensures left { (w : World) (s : ℕ) (tids : List ℕ) → LeavesRotas w (after_tids_left w s tids) }
{}

/// Changes of exchanges do not affect the scheduler: preparing one, an arrival or an answer at its receiver,
/// and settling its numbers. With the setting `pending`, an exchange that opens has its computed airtime
/// taken off, and one that closes has it paid back; without the setting, neither affects the scheduler.
pub fn a_change_of_exchanges()
    ensures filled { (w : World) (s t : ℕ) → LeavesRotas w (aggregate_of w s t).world }
    ensures prepared { (w : World) (s t : ℕ) → LeavesRotas w (prepared_exchange w s t).world }
    ensures opened { (v : SchedValue) (w : World) (x : Exchange) → SchedulerStandsFor v w →
        SchedulerStandsFor (with_pending_charged w.config v x.station x.class x.charge)
        (with_exchange_opened w x) }
    ensures sent { (v : SchedValue) (s t : ℕ) (c : Class) (p : Prepared) → SchedulerStandsFor v p.world →
        SchedulerStandsFor (with_pending_charged p.world.config v s c p.charge)
        (send_outcome s t c p).world }
    ensures told { (w : World) (x y : Exchange) (e : ℕ) → exchange w e ≡ Some x →
        OpenRises 0 w.exchanges w.opened → HasSameAir x y → LeavesRotas w (with_exchange w y) }
    ensures closed { (v : SchedValue) (w : World) (x : Exchange) (e : ℕ) → exchange w e ≡ Some x →
        OpenRises 0 w.exchanges w.opened → SchedulerStandsFor v w →
        SchedulerStandsFor (with_pending_paid_back w.config v x.station x.class x.charge)
        (without_exchange w e) }
    ensures settled { (w : World) (x : Exchange) (heard : Bool) (content : Content) →
        LeavesRotas w (after_done w x heard content) }
{}

/// The calls that do not affect the scheduler, except that they may list a station at their end. `bounded`
/// and `pulled` are parts of a pull after a station is picked: the scheduler does not depend on the bounds,
/// and with the setting `pending`, the computed airtime of what the winner sends is taken off.
pub fn a_call_that_leaves_the_turns()
    ensures enqueued { (w : World) (s t flow len : ℕ) → LeavesRotas w (enqueue_outcome w s t flow len).world }
    ensures rate { (w : World) (s : ℕ) (rate : AskedRate) →
        LeavesRotas w (rate_outcome w s rate).world }
    ensures ticked { (w : World) (by : ℕ) → LeavesRotas w (tick_outcome w by).world }
    ensures pulled { (v : SchedValue) (w : World) (c : Class) (winner : Option ℕ) → SchedulerStandsFor v w →
        SchedulerStandsFor (with_winner_sent w c winner v) (pull_outcome_for w c winner).world }
    ensures arrived { (w : World) (x : Exchange) (e i : ℕ) → exchange w e ≡ Some x →
        OpenRises 0 w.exchanges w.opened → LeavesRotas w (arrive_outcome w x i).world }
    ensures answered { (w : World) (x : Exchange) (e : ℕ) → exchange w e ≡ Some x →
        OpenRises 0 w.exchanges w.opened → LeavesRotas w (answer_outcome w x).world }
    ensures bounded { (w : World) (b : Bounds) → LeavesRotas w (with_bounds w b) }
    ensures stated { (w : World) (s octets : ℕ) → LeavesRotas w (ampdu_outcome w s octets).world }
    ensures stopped { (w : World) (s : ℕ) → LeavesRotas w (stop_outcome w s).world }
    ensures started { (w : World) (s : ℕ) → LeavesRotas w (start_outcome w s).world }
    ensures unsent { (w : World) (x : Exchange) (e i : ℕ) → exchange w e ≡ Some x →
        OpenRises 0 w.exchanges w.opened → LeavesRotas w (unsent_outcome w x i).world }
    ensures given_up { (w : World) (x : Exchange) (e i : ℕ) → exchange w e ≡ Some x →
        OpenRises 0 w.exchanges w.opened → LeavesRotas w (give_up_outcome w x i).world }
    ensures flushed { (w : World) (s t : ℕ) → LeavesRotas w (flush_outcome w s t).world }
    ensures held { (w : World) (s t : ℕ) → LeavesRotas w (hold_outcome w s t).world }
    ensures begun { (w : World) (s t window : ℕ) → LeavesRotas w (begin_outcome w s t window).world }
    ensures freed { (w : World) (s t : ℕ) → LeavesRotas w (free_outcome w s t).world }
    ensures ceased { (w : World) (s t : ℕ) → LeavesRotas w (cease_outcome w s t).world }
    ensures slept { (w : World) (s : ℕ) → LeavesRotas w (sleep_outcome w s).world }
    ensures woken { (w : World) (s : ℕ) → LeavesRotas w (wake_outcome w s).world }
    ensures credited { (w : World) (s : ℕ) → LeavesRotas w (poll_outcome w s).world }
    ensures reaped { (w : World) (ids : List ℕ) → LeavesRotas w (reap_outcome w ids).world }
    ensures grouped { (w : World) (ask : GroupCall) → LeavesRotas w (group_outcome w ask).world }
    ensures served { (w : World) (ask : ServiceAsk) → LeavesRotas w (service_outcome w ask).world }
    ensures moved { (w : World) (s b : ℕ) → LeavesRotas w (bss_outcome w s b).world }
{}

/// Both sides still agree after a whole call. A call that is not refused changes the scheduler as
/// `IsCallDone` says, and then lists the station that it concerns. A call that is refused does not change it,
/// except, without the setting `pending`, a pull for which no station is ready. In the worlds of a run, the
/// open exchanges have rising numbers and are to live stations.
pub fn a_call()
    ensures done { (v u : SchedValue) (w : World) (note : Note) → refusal w note ≡ None →
        OpenRises 0 w.exchanges w.opened → EachOpen (λ x. is_live w x.station ≡ true) w.opened →
        SchedulerStandsFor v w → IsCallDone w note v u →
        SchedulerStandsFor (with_concerned (outcome_of w note).world (concerned_station w note) u)
        (step w note).world }
    ensures refused { (v u : SchedValue) (w : World) (note : Note) (r : Refusal) → refusal w note ≡ Some r →
        SchedulerStandsFor v w → IsRefused w note r v u →
        SchedulerStandsFor u (step w note).world }
{}
