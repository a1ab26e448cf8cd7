//! The laws of the machine: statements that hold after every call of every run, for all settings in their
//! ranges and every history of calls.
//!
//! Each law is a relation over the settings and a history, defined in specs/. A function without a body
//! states it in its contract, and `laws` states all of them together, so a crate that depends on this one
//! cites a law by one name and proves it with one lemma. For example, `FateLaw config history` states that
//! a fate other than Held never changes in this history, and `fate_law` states this for all settings and
//! histories.
#![tactic(auto)]

ghost use Rattle.std.specs.Prelude.{List};
ghost use Rattle.wf_frame.specs.declared.settings.Config.{Config};
ghost use Rattle.wf_frame.specs.Settings.{IsInRange};
ghost use Rattle.wf_def_world.specs.Run.{Entry};
ghost use Rattle.wf_law_runs.specs.Answers.{AnswerLaw};
ghost use Rattle.wf_law_runs.specs.Attempts.{AttemptsLaw};
ghost use Rattle.wf_law_runs.specs.Deficits.{DeficitLaw, WeightLaw, FairnessLaw, QuietLaw};
ghost use Rattle.wf_law_runs.specs.Delay.{DelayLaw};
ghost use Rattle.wf_law_runs.specs.Dequeues.{CodelLaw};
ghost use Rattle.wf_law_runs.specs.Flows.{FlowQueueLaw, FlowReleaseLaw, FlowSendLaw};
ghost use Rattle.wf_law_runs.specs.Delivery.{DeliveryLaw};
ghost use Rattle.wf_law_runs.specs.Offloads.{OffloadLaw};
ghost use Rattle.wf_law_runs.specs.Modes.{ModeLaw, RepeatLaw};
ghost use Rattle.wf_law_runs.specs.Fates.{FateLaw};
ghost use Rattle.wf_law_runs.specs.Finished.{FinishedLaw};
ghost use Rattle.wf_law_runs.specs.Groups.{GroupApartLaw, GroupCountLaw, GroupOrderLaw, DtimLaw, AnnouncedLaw, GroupMoreLaw};
ghost use Rattle.wf_law_runs.specs.InFlight.{InFlightLaw};
ghost use Rattle.wf_law_runs.specs.Kept.{KeptLaw};
ghost use Rattle.wf_law_runs.specs.Laws.{Laws};
ghost use Rattle.wf_law_runs.specs.Numbers.{NumberLaw};
ghost use Rattle.wf_law_runs.specs.Places.{PlaceLaw};
ghost use Rattle.wf_law_runs.specs.Queues.{QueueDeficitLaw, QueueLaw};
ghost use Rattle.wf_law_runs.specs.Ranges.{RangeLaw};
ghost use Rattle.wf_law_runs.specs.Releases.{OnceLaw, ReleaseLaw};
ghost use Rattle.wf_law_runs.specs.Room.{LimitLaw, RoomLaw};
ghost use Rattle.wf_law_runs.specs.Sent.{SentLaw};
ghost use Rattle.wf_law_runs.specs.Services.{GrantedLaw, TriggerLaw, ServiceLimitLaw, ServiceEndLaw, EospLaw, LastLaw, ServiceApartLaw};
ghost use Rattle.wf_law_runs.specs.Shares.{ComputedLaw, ShareLaw, SpentLaw};
ghost use Rattle.wf_law_runs.specs.Sums.{SumLaw};
ghost use Rattle.wf_law_runs.specs.Rotations.{RotationLaw};
ghost use Rattle.wf_law_runs.specs.Tallies.{TallyLaw};
ghost use Rattle.wf_law_runs.specs.Tries.{TriesLaw};
ghost use Rattle.wf_law_runs.specs.TwelveBits.{TwelveBitLaw};
ghost use Rattle.wf_law_runs.specs.Unsettled.{UnsettledLaw};
ghost use Rattle.wf_law_runs.specs.Waiting.{SparseLaw, WaitingLaw};
ghost use Rattle.wf_law_runs.specs.Windows.{WindowLaw};

/// After every entry, the numbers of an agreement's sender and of its receiver stay within a window of each
/// other, or two windows for the scoreboard. A request is due while one is open, an acknowledged number has
/// arrived, and no number is assigned while a request is due (specs/Windows).
pub fn window_law()
    ensures { (config : Config) → (history : List Entry) → WindowLaw config history }
{}

/// From an Answer on and as long as its exchange is open, exactly those numbers of the exchange have
/// arrived that had arrived when the Answer was made (specs/Answers).
pub fn answer_law()
    ensures { (config : Config) → (history : List Entry) → AnswerLaw config history }
{}

/// The replies to one session's arrivals release the ids of its arrived numbers below the receiver's
/// release start, in strictly increasing order of the numbers. Each of these frames was enqueued for this
/// station and TID (specs/Releases).
pub fn release_law()
    ensures { (config : Config) → (history : List Entry) → IsInRange config → ReleaseLaw config history }
{}

/// No id is released twice in a run (specs/Releases).
pub fn once_law()
    ensures { (config : Config) → (history : List Entry) → OnceLaw config history }
{}

/// With `keep_order`, all queued frames of a flow of a TID are in one queue (specs/Flows).
pub fn flow_queue_law()
    ensures { (config : Config) → (history : List Entry) → IsInRange config → FlowQueueLaw config history }
{}

/// With `keep_order`, the ids of each flow that are released in a run increase strictly: each flow of each
/// station is passed up in the order in which it was put in (specs/Flows).
pub fn flow_release_law()
    ensures { (config : Config) → (history : List Entry) → IsInRange config → FlowReleaseLaw config history }
{}

/// With `keep_order`, the ids of each flow increase strictly in the order in which they are sent first in a
/// run: each flow of each station goes on the air in the order in which it was put in (specs/Flows).
pub fn flow_send_law()
    ensures { (config : Config) → (history : List Entry) → IsInRange config → FlowSendLaw config history }
{}

/// Each acknowledged frame was held until a Done of an exchange that sent it ended as heard. By then it had
/// reached the receiver of the station and TID for which it was enqueued (specs/Delivery).
pub fn delivery_law()
    ensures { (config : Config) → (history : List Entry) → IsInRange config → DeliveryLaw config history }
{}

/// An open exchange is a batch exactly if its station is offloaded; no batch is a request, and no request is
/// due for an offloaded station (specs/Offloads).
pub fn offload_law()
    ensures { (config : Config) → (history : List Entry) → IsInRange config → OffloadLaw config history }
{}

/// Without an agreement a TID sends one frame at a time and no request, and a TID's mode changes only by the
/// calls for it (specs/Modes).
pub fn mode_law()
    ensures { (config : Config) → (history : List Entry) → IsInRange config → ModeLaw config history }
{}

/// A receiver that knows a repeated frame by the Retry bit and twelve bits of its number takes a frame for a
/// repeated one exactly if its number has arrived (specs/Modes).
pub fn repeat_law()
    ensures { (config : Config) → (history : List Entry) → IsInRange config → RepeatLaw config history }
{}

/// A call that does not set a station's weight keeps it, and the base of its deficits (specs/Deficits).
pub fn weight_law()
    ensures { (config : Config) → (history : List Entry) → IsInRange config → WeightLaw config history }
{}

/// A fate other than Held never changes (specs/Fates).
pub fn fate_law()
    ensures { (config : Config) → (history : List Entry) → FateLaw config history }
{}

/// As long as a station is joined, each number that its sessions assigned keeps its frame's id, and a
/// number that is acknowledged or failed stays in that state (specs/Kept).
pub fn kept_law()
    ensures { (config : Config) → (history : List Entry) → KeptLaw config history }
{}

/// After every entry, the ids that were reaped and the ids on the finished list are together exactly the
/// ids of the frames with a fate other than Held, without repeats (specs/Finished).
pub fn finished_law()
    ensures { (config : Config) → (history : List Entry) → FinishedLaw config history }
{}

/// Each accepted frame has exactly one fate: the counts of frames by fate add up to the number of accepted
/// frames (specs/Tallies).
pub fn tally_law()
    ensures { (config : Config) → (history : List Entry) → TallyLaw config history }
{}

/// A held frame is in exactly one place: in a flow queue that its TID lists, or at a number of its TID that
/// waits or is on the air. Only held frames are in these places (specs/Places).
pub fn place_law()
    ensures { (config : Config) → (history : List Entry) → IsInRange config → PlaceLaw config history }
{}

/// After every entry, the frames in flow queues, the frames at numbers that wait or are on the air, and the
/// frames on the finished list are together all frames that were accepted and not reaped. There are at most
/// as many of them as the setting `room` (specs/Room).
pub fn room_law()
    ensures { (config : Config) → (history : List Entry) → IsInRange config → RoomLaw config history }
{}

/// If each frame has at least one octet, all flow queues together have at most as many frames as the
/// setting `limit`, after every entry (specs/Room).
pub fn limit_law()
    ensures { (config : Config) → (history : List Entry) → IsInRange config → LimitLaw config history }
{}

/// After every entry, the values of a live station are in their ranges: its number, weight, rate, exponent,
/// stated length of aggregates, BSS and windows. The setting `legacy` allows its rate. Only a sleeping
/// station has a credit or an open service period, and no more frames are left of a service period than its
/// limit. CoDel's count is at least 1 while it drops, and CoDel's counts fit 32 bits (specs/Ranges).
pub fn range_law()
    ensures { (config : Config) → (history : List Entry) → IsInRange config → RangeLaw config history }
{}

/// After every entry, a station's deficit is its quanta less its charges, the deficit and the standing stay
/// between their bounds, and every station that is ready or has debts is listed (specs/Deficits).
pub fn deficit_law()
    ensures { (config : Config) → (history : List Entry) → IsInRange config → DeficitLaw config history }
{}

/// A live station's received airtime in a class is 0 if and only if it had no receive charge there since
/// its join (specs/Deficits).
pub fn quiet_law()
    ensures { (config : Config) → (history : List Entry) → IsInRange config → QuietLaw config history }
{}

/// Two stations that stay on one class's old list, without receive charges, are charged alike in proportion
/// to their weights, within a bound (specs/Deficits).
pub fn fairness_law()
    ensures { (config : Config) → (history : List Entry) → IsInRange config → FairnessLaw config history }
{}

/// No station gets more airtime for its weight than one that stays on the class's old list, up to a constant.
/// With the setting `pending`, this bounds the airtime that is spent: the charges, and the computed airtime
/// of the open exchanges. If each Done charges the computed airtime, the constant does not depend on the
/// setting `inflight` (specs/Shares).
pub fn share_law()
    ensures { (config : Config) → (history : List Entry) → IsInRange config → ShareLaw config history }
{}

/// If the setting `charge` is 0, so that no Done gives an airtime, each Done charges the computed airtime
/// (specs/Shares).
pub fn computed_law()
    ensures { (config : Config) → (history : List Entry) → ComputedLaw config history }
{}

/// If the setting `charge` is 0, what a station spends between two moments is the computed airtime of the
/// exchanges that are opened for it between them (specs/Shares).
pub fn spent_law()
    ensures { (config : Config) → (history : List Entry) → IsInRange config → SpentLaw config history }
{}

/// While a station is ready and sends nothing, it gets few quanta, and no other station gets more than one
/// quantum more (specs/Waiting).
pub fn waiting_law()
    ensures { (config : Config) → (history : List Entry) → IsInRange config → WaitingLaw config history }
{}

/// If a ready station with a positive standing is on the new list, a Pull that sends, sends to this station
/// or to one that is before it on the new list.
pub fn sparse_law()
    ensures { (config : Config) → (history : List Entry) → SparseLaw config history }
{}

/// After every entry, each class lists only live stations, each at most once. A Pull is refused as Idle if
/// and only if the class may open an exchange and no station is ready. With the setting `pending`, a refusal
/// changes nothing. Each pick of a station or a queue has the result of the paper's loop (specs/Rotations).
pub fn rotation_law()
    ensures { (config : Config) → (history : List Entry) → IsInRange config → RotationLaw config history }
{}

/// All numbers of one agreement that are ever compared are within 2047 of each other, so their low twelve
/// bits are enough to compare them (specs/TwelveBits).
pub fn twelve_bit_law()
    ensures { (config : Config) → (history : List Entry) → TwelveBitLaw config history }
{}

/// A queue with frames is listed, and by only one TID. All its frames are for that TID, in the order of
/// their ids and stamps (specs/Queues).
pub fn queue_law()
    ensures { (config : Config) → (history : List Entry) → IsInRange config → QueueLaw config history }
{}

/// The deficit of a listed queue is at most the setting `flow_quantum`, and greater than 0 less the longest
/// frame (specs/Queues).
pub fn queue_deficit_law()
    ensures { (config : Config) → (history : List Entry) → IsInRange config → QueueDeficitLaw config history }
{}

/// After every entry, the computed charge of an open exchange is 1 to 5516 microseconds: the greatest data
/// time, 5400, SIFS and the longest BlockAck. With the setting `legacy` 2 it is at most 19,520: 19,200, SIFS
/// and an Ack of DSSS. A class has at most eight open exchanges. The deficits and standings of live stations
/// are between bounds that are far within 32 bits. If no frame is longer than the greatest body, the deficits
/// of listed queues are too (specs/Numbers).
pub fn number_law()
    ensures { (config : Config) → (history : List Entry) → IsInRange config → NumberLaw config history }
{}

/// A live station's charged airtime in a class is the sum of the charges of its Done calls that were
/// answered Ended since its join. Its received airtime is the sum of the airtimes of its Rx calls that were
/// answered Charged. After m entries the clock is at most 10,000,000 m microseconds, there are at most m
/// accepted frames and at most m exchanges, and the two sums are at most 65,535 m microseconds each
/// (specs/Sums).
pub fn sum_law()
    ensures { (config : Config) → (history : List Entry) → IsInRange config → SumLaw config history }
{}

/// After every entry, a TID has at most as many numbers that wait or are on the air as the setting `inflight`
/// times the setting `agg` (specs/Unsettled).
pub fn unsettled_law()
    ensures { (config : Config) → (history : List Entry) → IsInRange config → UnsettledLaw config history }
{}

/// After every entry, each open exchange has at most 256 transmissions, in strictly increasing order of
/// their numbers. Each has the id of its number's frame and the length of that frame's Enqueue. If no frame
/// is longer than the greatest body and the settings are in their ranges, an exchange of data has at least
/// one transmission (specs/Sent).
pub fn sent_law()
    ensures { (config : Config) → (history : List Entry) → SentLaw config history }
{}

/// After every entry, a number that waits, is on the air or is acknowledged has fewer failed attempts than
/// the setting `attempts`, and a failed number has exactly that many. One that is given up or flushed forgoes
/// those that are left: they count as made (specs/Attempts).
pub fn attempts_law()
    ensures { (config : Config) → (history : List Entry) → IsInRange config → AttemptsLaw config history }
{}

/// In every run, a frame is sent at most as often as the setting `attempts`, all exchanges counted, except
/// those in which it never went on the air. A number that waits or is on the air counts how often its frame
/// was sent. All frames together are sent at most `attempts` times the number of accepted frames, counted in
/// the same way. There are at most as many exchanges of data as frames sent, if no frame is longer than the
/// greatest body. At most as many requests end as heard as frames are dropped for retries or flushed
/// (specs/Tries).
pub fn tries_law()
    ensures { (config : Config) → (history : List Entry) → IsInRange config → TriesLaw config history }
{}

/// After every entry, the computed airtime of all open exchanges exceeds the setting `aql_total` by less than
/// one exchange, if it is not 0. The computed airtime of each station's open exchanges of a class exceeds
/// the setting `aql` by less than one exchange, if it is not 0 (specs/InFlight).
pub fn in_flight_law()
    ensures { (config : Config) → (history : List Entry) → IsInRange config → InFlightLaw config history }
{}

/// In every run, CoDel's state of a queue is that after the dequeues of the queue since it was new or calmed.
/// CoDel drops a frame only if each look of the last interval saw a standing queue, and only a limited number
/// of frames in a time. Each frame that CoDel drops is dropped by a dequeue of the Pull with which it gets
/// this fate (specs/Dequeues).
pub fn codel_law()
    ensures { (config : Config) → (history : List Entry) → CodelLaw config history }
{}

/// If exchanges end in the order of their numbers from the Pull of an exchange to its Done, and the setting
/// `aql_total` is not 0, the computed airtime that ends until then, that of the exchange included, exceeds
/// the setting by less than one exchange (specs/Delay).
pub fn delay_law()
    ensures { (config : Config) → (history : List Entry) → IsInRange config → DelayLaw config history }
{}

/// A call about the group frames or a beacon of a BSS changes nothing but the state of the group frames of
/// that BSS: no share, no rotation and no session. Every other call leaves that state as it is
/// (specs/Groups).
pub fn group_apart_law()
    ensures { GroupApartLaw }
{}

/// After every entry, each group frame of a BSS that was accepted was sent, is on the air or is queued. At
/// most as many are queued in a BSS as the setting `buffered`, and its DTIM count is below the DTIM period
/// (specs/Groups).
pub fn group_count_law()
    ensures { (config : Config) → (history : List Entry) → GroupCountLaw config history }
{}

/// The group frames of a BSS are accepted, sent and ended in the order of their ids 0, 1, 2 .., each at most
/// once. Their sequence numbers count on, modulo 4096, with each beacon and each group frame of the BSS
/// (specs/Groups; IEEE 802.11-2012, 9.3.2.10).
pub fn group_order_law()
    ensures { (config : Config) → (history : List Entry) → GroupOrderLaw config history }
{}

/// Each group frame of a BSS that is sent while a station of the BSS sleeps was accepted before the latest
/// beacon of the BSS. That was a DTIM beacon, and announced group frames (specs/Groups; IEEE 802.11-2012,
/// 10.2.1.4).
pub fn dtim_law()
    ensures { (config : Config) → (history : List Entry) → DtimLaw config history }
{}

/// A beacon of a BSS announces group frames if, and only if, one of the BSS may go after it while a station
/// of the BSS sleeps (specs/Groups; IEEE 802.11-2012, 8.4.2.7).
pub fn announced_law()
    ensures { (config : Config) → (history : List Entry) → AnnouncedLaw config history }
{}

/// A group frame of a BSS has the More Data bit if, and only if, a station of the BSS sleeps and another
/// group frame of the BSS may go next (specs/Groups; IEEE 802.11-2012, 8.2.4.1.8).
pub fn group_more_law()
    ensures { (config : Config) → (history : List Entry) → GroupMoreLaw config history }
{}

/// An exchange to a station that sleeps is due to a credit for its class, which a poll gave, or is part of
/// its service period (specs/Services; IEEE 802.11-2012, 10.2.1.5 and 10.2.1.6).
pub fn granted_law()
    ensures { (config : Config) → (history : List Entry) → GrantedLaw config history }
{}

/// Only a trigger opens a service period, and only that of its station (specs/Services; IEEE 802.11-2012,
/// 10.2.1.5).
pub fn trigger_law()
    ensures { (config : Config) → (history : List Entry) → TriggerLaw config history }
{}

/// From a trigger until its service period ends, at most as many frames of delivery-enabled classes go to the
/// station as the limit, if there is one (specs/Services; IEEE 802.11-2012, 10.2.1.5).
pub fn service_limit_law()
    ensures { (config : Config) → (history : List Entry) → ServiceLimitLaw config history }
{}

/// A service period ends only by its last exchange, by the call that ends it, or when the station wakes or
/// leaves (specs/Services; IEEE 802.11-2012, 10.2.1.5).
pub fn service_end_law()
    ensures { (config : Config) → (history : List Entry) → ServiceEndLaw config history }
{}

/// An exchange with the EOSP bit is part of a service period, which it ends (specs/Services; IEEE
/// 802.11-2012, 8.2.4.5.3).
pub fn eosp_law()
    ensures { (config : Config) → (history : List Entry) → EospLaw config history }
{}

/// Frames of a service period have the EOSP bit if, and only if, nothing is left of the period after them or
/// they do not have the More Data bit (specs/Services; IEEE 802.11-2012, 8.2.4.1.8 and 8.2.4.5.3).
pub fn last_law()
    ensures { (config : Config) → (history : List Entry) → LastLaw config history }
{}

/// A call about service periods changes no share, no session, no queue and no rotation (specs/Services).
pub fn service_apart_law()
    ensures { ServiceApartLaw }
{}

/// All laws of a history (specs/Laws).
pub fn laws()
    ensures { (config : Config) → (history : List Entry) → IsInRange config → Laws config history }
{}
