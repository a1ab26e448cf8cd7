//! The calls of a transmit half. Each sets the flags of the stations whose readiness it may change.

ghost use Rattle.std.specs.Prelude.{◌≡◌, ◌==◌, ◌<◌, ◌^◌, ℕ, [], true, false, Some, find, nat_le, count_by, IfOk, IfErr, IfSome, IfNone};
ghost use Rattle.wf_frame.specs.Answers.{reply_with};
ghost use Rattle.wf_frame.specs.Classes.{same_class};
ghost use Rattle.wf_frame.specs.Frames.{FrameValue};
ghost use Rattle.wf_frame.specs.declared.answers.Brief.TheVariants.{Refused as Refuses};
ghost use Rattle.wf_frame.specs.declared.notes.Ask.TheVariants.{Join, Plain, Offload, Weight, Leave, Rate, Tick, Pull, Sleep, Wake, Poll, Rx, Reap, Ampdu, Stop, Start, Unsent, GiveUp, Flush, Bss};
ghost use Rattle.wf_frame.specs.declared.notes.Note.TheVariants.{Asked};
ghost use Rattle.wf_frame.specs.declared.notes.Refusal.TheVariants.{Full, Ahead, Idle};
ghost use Rattle.wf_frame.specs.declared.notes.ReplyNote.TheVariants.{Joined, Left, Set, Now, Slept, Woken, Polled, Charged, Accepted, Stopped, Started, Marked, Flushed, Refused};
ghost use Rattle.wf_def_world.specs.World.{World, exchange as exchange_in};
ghost use Rattle.wf_queue_flows_refines.specs.Frames.{with_body, IsBodySettled};
ghost use Rattle.wf_send_half_model.specs.Half.{is_ahead_of};
ghost use Rattle.wf_send_half_model.specs.Standing.{StandsFor, Meets};
ghost use Rattle.wf_send_parts.specs.Exchanges.{airtime_of};
ghost use Rattle.wf_send_half.specs.Bits.{IsChargeSmall, count_shown_of};
ghost use Rattle.wf_send_half.specs.Driven.{IsAfterDone};
ghost use Rattle.wf_send_half.specs.Enqueues.{enqueue_of, as_accepted};
ghost use Rattle.wf_send_half.specs.Half.{HasUnheardWorld, IsReceiptSmall};
ghost use Rattle.wf_send_half.specs.Marks.{HasNotArrived, bodies_unsent};
ghost use Rattle.wf_send_half.specs.Replies.{bodies_sent, reaped_reply, reply_of_result};

use crate::enqueue::Admitted;
use crate::{Admission, Ended, Transmit};
use wf_frame::{AskedRate, Brief, Class, Limits, Pairs, Refusal};
use wf_octets::bits::Bits256;
use wf_octets::seq12::Seq12;
use wf_queue_parts::chain::Parcel;

impl Transmit {
    /// Accepts a frame. If the queues hold `limit` frames, the head of the longest queue is dropped. Refused
    /// as BadStation, BadTid, NoStation, Room if `room` frames are inside, or Sleeping if the station sleeps
    /// and `sleeping` frames of the class are queued for it; a refused frame is returned.
    pub fn enqueue(&mut self, parcel: Parcel) -> Result<Admission, (Refusal, Parcel)>
        requires small { self.old.tally.accepted < 2 ^ 62 }
        ensures meets { IfOk result (λ given. (w : World) (bodies : ℕ → FrameValue) →
            StandsFor self.old w bodies →
            Meets w (with_body bodies (as_accepted self.old parcel)) (enqueue_of parcel) self.new
            (Accepted given.id given.dropped)) }
        ensures refuses { IfErr result (λ given. (w : World) (bodies : ℕ → FrameValue) →
            StandsFor self.old w bodies →
            Meets w bodies (enqueue_of parcel) self.new (Refused given.0)) }
        ensures refused { IfErr result (λ _. self.new ≡ self.old) }
        ensures handed_back { IfErr result (λ given. given.1 ≡ parcel) }
        ensures unheard { HasUnheardWorld self.new }
    {
        let frame = parcel.frame();
        let (station, tid, _octets) = (frame.station(), frame.tid(), frame.len());
        let accepted = self.half.enqueue(parcel)?;
        let Admitted { id, lost, is_ready } = accepted;
        let class = Class::of_tid(tid);
        self.ready.set(station, class, is_ready);
        let Some(lost) = lost else {
            return Ok(Admission { id, dropped: None });
        };
        let other = Class::of_tid(lost.tid);
        self.ready
            .set_other(&self.half, lost.station, other, (station, class));
        Ok(Admission {
            id,
            dropped: Some(lost.id),
        })
    }

    /// Opens the next exchange of a class. The station whose turn it is sends on one of its TIDs a request
    /// if one is due, else an aggregate within these limits, or one frame if the TID has no agreement; one
    /// frame goes whatever they are. The frames are written to `pairs`, each by its id and its sequence
    /// number, and each of these frames counts one more send. Refused as Full if as many
    /// exchanges of the class are open as the setting `inflight` allows, as Ahead if the computed airtime of
    /// all open exchanges has reached the setting `aql_total` and this is not 0, or as Idle if no station is
    /// ready in the class. A refused pull changes nothing with the setting `pending`; without it an idle one
    /// may turn the lists.
    pub fn pull(&mut self, class: Class, limits: Limits, pairs: &mut Pairs) -> Brief
        requires clock { self.old.clock < 2 ^ 62 }
        requires exchanges { self.old.exchanges < 2 ^ 62 }
        ensures meets { (w : World) (bodies : ℕ → FrameValue) → StandsFor self.old w bodies →
            Meets w (bodies_sent (reply_with result pairs.new []) bodies) (Asked (Pull class limits)) self.new
            (reply_with result pairs.new []) }
        ensures full { nat_le self.old.config.inflight
            (count_by (λ x. same_class x.class class) self.old.opened) ≡ true →
            (result ≡ Refuses (Full (count_by (λ x. same_class x.class class) self.old.opened))) ×
            (self.new ≡ self.old) }
        ensures ahead { nat_le self.old.config.inflight
            (count_by (λ x. same_class x.class class) self.old.opened) ≡ false →
            is_ahead_of self.old ≡ true →
            (result ≡ Refuses (Ahead (airtime_of self.old.opened))) × (self.new ≡ self.old) }
        ensures idle { self.old.config.pending ≡ 1 → result ≡ Refuses Idle → self.new ≡ self.old }
        ensures unheard { HasUnheardWorld self.new }
    {
        let is_idle = !self.ready.has_any(class);
        let pulled = self
            .half
            .pull(class, limits, self.ready.of(class), is_idle, pairs);
        if let Brief::Send { station, eosp, .. } = pulled.brief {
            if eosp {
                // Without its service period the station may not be ready in other classes.
                self.ready.set_all(&self.half, station);
            } else {
                self.ready.set(station, class, pulled.is_ready);
            }
        }
        pulled.brief
    }

    /// Ends an exchange: its station is charged, and each frame that it sent is settled. `heard` is the start
    /// and the bits of the BlockAck that was heard (IEEE 802.11-2012, 8.3.1.9), if one was; the first 64 bits
    /// count, or all 256 if the TID's window is above 64. An Ack is given as a BlockAck that shows the number
    /// of the frame. A number that never went on the air waits again, whatever the BlockAck shows. Each other
    /// number that it shows is acknowledged; each number that it does not show fails if it is given up or was
    /// sent `attempts` times, if the exchange is a batch, or if it is sent without an agreement and is 2,048
    /// or more above the last acknowledged number, else it waits again. A request is heard if anything was.
    /// If `air` is given, the station is charged `air` microseconds instead of the computed charge. Refused
    /// as NoExchange if the exchange is not open, as NoAnswer if something was heard though nothing of the
    /// exchange went on the air and it is no batch, then as BadAir if `air` is 0 or above the setting
    /// `charge`.
    pub fn done(
        &mut self,
        exchange: u64,
        heard: Option<(Seq12, Bits256)>,
        air: Option<u32>,
    ) -> Result<Ended, Refusal>
        requires small { IsChargeSmall self.old exchange }
        ensures ended { IsAfterDone self.old self.new exchange heard air result }
        ensures acked { IfOk result (λ ended. IfSome (find (λ x. x.number == exchange) self.old.opened) (λ x.
            ended.acked ≡ count_shown_of self.old heard x)) }
        ensures unheard { HasUnheardWorld self.new }
    {
        match self.half.done(exchange, heard, air) {
            Ok(closed) => {
                self.ready
                    .set(closed.station, closed.class, closed.is_ready);
                Ok(closed.ended)
            }
            Err(reason) => Err(reason),
        }
    }

    /// Records that transmission `index` of an open exchange, counted from 0, never went on the air. Its
    /// frame counts one transmission less at once. When the exchange ends, its number waits again, and no
    /// attempt is counted. Refused as NoExchange if the exchange is not open, as BadIndex if it has no such
    /// transmission, or as Marked if the transmission has a mark already. A caller that knows receivers calls
    /// it neither for a transmission that arrived nor after the answer.
    pub fn unsent(&mut self, exchange: u64, index: u16) -> Result<(), Refusal>
        ensures meets { (w : World) (bodies : ℕ → FrameValue) → StandsFor self.old w bodies →
            HasNotArrived w exchange index →
            Meets w (bodies_unsent (exchange_in w exchange) index (reply_of_result (λ _. Marked) result)
            bodies)
            (Asked (Unsent exchange index)) self.new (reply_of_result (λ _. Marked) result) }
        ensures refused { IfErr result (λ _. self.new ≡ self.old) }
        ensures unheard { HasUnheardWorld self.new }
    {
        self.half.unsent(exchange, index)
    }

    /// Records that the device will not try transmission `index` of an open exchange again, counted from 0.
    /// When the exchange ends, its number fails, unless the BlockAck shows it. Refused as NoExchange if the
    /// exchange is not open, as BadIndex if it has no transmission with this index, or as Marked if the
    /// transmission has a mark already.
    pub fn give_up(&mut self, exchange: u64, index: u16) -> Result<(), Refusal>
        ensures meets { (w : World) (bodies : ℕ → FrameValue) → StandsFor self.old w bodies →
            Meets w bodies (Asked (GiveUp exchange index)) self.new (reply_of_result (λ _. Marked) result) }
        ensures refused { IfErr result (λ _. self.new ≡ self.old) }
        ensures unheard { HasUnheardWorld self.new }
    {
        self.half.give_up(exchange, index)
    }

    /// Drops all frames of a TID that are not on the air, as Flushed, and returns how many they were. They go
    /// last on the finished list: first those of the numbers that wait, by number, which fail; then those of
    /// the flow queues, by queue. Refused as BadStation, BadTid or NoStation.
    pub fn flush(&mut self, station: u16, tid: u8) -> Result<u32, Refusal>
        ensures meets { (w : World) (bodies : ℕ → FrameValue) → StandsFor self.old w bodies →
            Meets w bodies (Asked (Flush station tid)) self.new (reply_of_result Flushed result) }
        ensures refused { IfErr result (λ _. self.new ≡ self.old) }
        ensures unheard { HasUnheardWorld self.new }
    {
        match self.half.flush(station, tid) {
            Ok(dropped) => {
                self.ready.set_all(&self.half, station);
                Ok(dropped)
            }
            Err(reason) => Err(reason),
        }
    }

    /// A station joins: its window in frames, 1 to 256, and its first sequence number, 0 to 4095, on each
    /// TID; its maximum A-MPDU length exponent, 0 to 3 (IEEE 802.11-2012, 8.4.2.58.3); its weight, 1 to 16
    /// quanta. Refused as BadStation, BadWindow, BadStart, BadExponent, BadWeight or Live.
    pub fn join(
        &mut self,
        station: u16,
        window: u16,
        start: u16,
        exponent: u8,
        weight: u8,
    ) -> Result<(), Refusal>
        ensures meets { (w : World) (bodies : ℕ → FrameValue) → StandsFor self.old w bodies →
            Meets w bodies (Asked (Join station window start exponent weight)) self.new
            (reply_of_result (λ _. Joined) result) }
        ensures refused { IfErr result (λ _. self.new ≡ self.old) }
        ensures unheard { HasUnheardWorld self.new }
    {
        match self.half.join(station, window, start, exponent, weight) {
            Ok(()) => {
                self.ready.set_all(&self.half, station);
                Ok(())
            }
            Err(reason) => Err(reason),
        }
    }

    /// A station joins without agreements: its first sequence number, 0 to 4095, on each TID; its maximum
    /// A-MPDU length exponent, 0 to 3 (IEEE 802.11-2012, 8.4.2.58.3); its weight, 1 to 16. Refused as
    /// BadStation, BadStart, BadExponent, BadWeight or Live.
    pub fn plain(
        &mut self,
        station: u16,
        start: u16,
        exponent: u8,
        weight: u8,
    ) -> Result<(), Refusal>
        ensures meets { (w : World) (bodies : ℕ → FrameValue) → StandsFor self.old w bodies →
            Meets w bodies (Asked (Plain station start exponent weight)) self.new
            (reply_of_result (λ _. Joined) result) }
        ensures refused { IfErr result (λ _. self.new ≡ self.old) }
        ensures unheard { HasUnheardWorld self.new }
    {
        match self.half.plain(station, start, exponent, weight) {
            Ok(()) => {
                self.ready.set_all(&self.half, station);
                Ok(())
            }
            Err(reason) => Err(reason),
        }
    }

    /// A station joins whose device numbers, aggregates and repeats its frames: its maximum A-MPDU length
    /// exponent, 0 to 3 (IEEE 802.11-2012, 8.4.2.58.3), and its weight, 1 to 16. Refused as BadStation,
    /// BadExponent, BadWeight or Live.
    pub fn offload(&mut self, station: u16, exponent: u8, weight: u8) -> Result<(), Refusal>
        ensures meets { (w : World) (bodies : ℕ → FrameValue) → StandsFor self.old w bodies →
            Meets w bodies (Asked (Offload station exponent weight)) self.new
            (reply_of_result (λ _. Joined) result) }
        ensures refused { IfErr result (λ _. self.new ≡ self.old) }
        ensures unheard { HasUnheardWorld self.new }
    {
        match self.half.offload(station, exponent, weight) {
            Ok(()) => {
                self.ready.set_all(&self.half, station);
                Ok(())
            }
            Err(reason) => Err(reason),
        }
    }

    /// Sets the weight of a station, 1 to 16. Its quantum is the setting `quantum` times its weight from now
    /// on, and each of its deficits is at most this, and the airtime in flight that it covers. Refused as
    /// BadStation, BadWeight or NoStation.
    pub fn weight(&mut self, station: u16, weight: u8) -> Result<(), Refusal>
        ensures meets { (w : World) (bodies : ℕ → FrameValue) → StandsFor self.old w bodies →
            Meets w bodies (Asked (Weight station weight)) self.new (reply_of_result (λ _. Set) result) }
        ensures refused { IfErr result (λ _. self.new ≡ self.old) }
        ensures unheard { HasUnheardWorld self.new }
    {
        self.half.weight(station, weight)
    }

    /// A station leaves, and its frames are dropped as Left. Returns how many they were. They go last on the
    /// finished list, by TID: first those that have a number, by their numbers, then those of the flow
    /// queues, by queue. Refused as BadStation or NoStation, or as Open if exchanges of the station are open.
    pub fn leave(&mut self, station: u16) -> Result<u32, Refusal>
        ensures meets { (w : World) (bodies : ℕ → FrameValue) → StandsFor self.old w bodies →
            Meets w bodies (Asked (Leave station)) self.new (reply_of_result Left result) }
        ensures refused { IfErr result (λ _. self.new ≡ self.old) }
        ensures unheard { HasUnheardWorld self.new }
    {
        match self.half.leave(station) {
            Ok(dropped) => {
                self.ready.set_all(&self.half, station);
                Ok(dropped)
            }
            Err(reason) => Err(reason),
        }
    }

    /// Sets the rate at which a station is sent to from now on. Refused as BadStation, BadRate, NoStation or
    /// Agreed.
    pub fn rate(&mut self, station: u16, asked: AskedRate) -> Result<(), Refusal>
        ensures meets { (w : World) (bodies : ℕ → FrameValue) → StandsFor self.old w bodies →
            Meets w bodies (Asked (Rate station asked)) self.new
            (reply_of_result (λ _. Set) result) }
        ensures refused { IfErr result (λ _. self.new ≡ self.old) }
        ensures unheard { HasUnheardWorld self.new }
    {
        self.half.rate(station, asked)
    }

    /// Advances the clock by at most 10,000,000 microseconds, and returns it. Refused as BadTick if it would
    /// advance further.
    pub fn tick(&mut self, by: u32) -> Result<u64, Refusal>
        requires small { self.old.clock < 2 ^ 62 }
        ensures meets { (w : World) (bodies : ℕ → FrameValue) → StandsFor self.old w bodies →
            Meets w bodies (Asked (Tick by)) self.new (reply_of_result Now result) }
        ensures refused { IfErr result (λ _. self.new ≡ self.old) }
        ensures unheard { HasUnheardWorld self.new }
    {
        self.half.tick(by)
    }

    /// Aggregates of VHT and HE to a station have at most `octets` octets from now on, 4,096 to 6,500,631
    /// (IEEE 802.11ax-2021, 26.6.1). Refused as BadStation, BadAmpdu or NoStation.
    pub fn ampdu(&mut self, station: u16, octets: u32) -> Result<(), Refusal>
        ensures meets { (w : World) (bodies : ℕ → FrameValue) → StandsFor self.old w bodies →
            Meets w bodies (Asked (Ampdu station octets)) self.new
            (reply_of_result (λ _. Set) result) }
        ensures refused { IfErr result (λ _. self.new ≡ self.old) }
        ensures unheard { HasUnheardWorld self.new }
    {
        self.half.ampdu(station, octets)
    }

    /// A station is of this BSS from now on, 0 to `bsses` - 1: the beacons that it hears while it sleeps are
    /// those of the BSS. Refused as BadStation, BadBss, NoStation or Asleep.
    pub fn set_bss(&mut self, station: u16, bss: u8) -> Result<(), Refusal>
        ensures meets { (w : World) (bodies : ℕ → FrameValue) → StandsFor self.old w bodies →
            Meets w bodies (Asked (Bss station bss)) self.new (reply_of_result (λ _. Set) result) }
        ensures refused { IfErr result (λ _. self.new ≡ self.old) }
        ensures unheard { HasUnheardWorld self.new }
    {
        self.half.set_bss(station, bss)
    }

    /// Stops a station: no pull picks it until it is started. Refused as BadStation, NoStation or Stopped.
    pub fn stop(&mut self, station: u16) -> Result<(), Refusal>
        ensures meets { (w : World) (bodies : ℕ → FrameValue) → StandsFor self.old w bodies →
            Meets w bodies (Asked (Stop station)) self.new (reply_of_result (λ _. Stopped) result) }
        ensures refused { IfErr result (λ _. self.new ≡ self.old) }
        ensures unheard { HasUnheardWorld self.new }
    {
        match self.half.stop(station) {
            Ok(()) => {
                self.ready.set_all(&self.half, station);
                Ok(())
            }
            Err(reason) => Err(reason),
        }
    }

    /// Starts a station: pulls may pick it again. Refused as BadStation, NoStation or Started.
    pub fn start(&mut self, station: u16) -> Result<(), Refusal>
        ensures meets { (w : World) (bodies : ℕ → FrameValue) → StandsFor self.old w bodies →
            Meets w bodies (Asked (Start station)) self.new (reply_of_result (λ _. Started) result) }
        ensures refused { IfErr result (λ _. self.new ≡ self.old) }
        ensures unheard { HasUnheardWorld self.new }
    {
        match self.half.start(station) {
            Ok(()) => {
                self.ready.set_all(&self.half, station);
                Ok(())
            }
            Err(reason) => Err(reason),
        }
    }

    /// A station goes to sleep (IEEE 802.11-2012, 10.2.1). Refused as BadStation, NoStation or Asleep.
    pub fn sleep(&mut self, station: u16) -> Result<(), Refusal>
        ensures meets { (w : World) (bodies : ℕ → FrameValue) → StandsFor self.old w bodies →
            Meets w bodies (Asked (Sleep station)) self.new (reply_of_result (λ _. Slept) result) }
        ensures refused { IfErr result (λ _. self.new ≡ self.old) }
        ensures unheard { HasUnheardWorld self.new }
    {
        match self.half.sleep(station) {
            Ok(()) => {
                self.ready.set_all(&self.half, station);
                Ok(())
            }
            Err(reason) => Err(reason),
        }
    }

    /// A station wakes. Refused as BadStation, NoStation or Awake.
    pub fn wake(&mut self, station: u16) -> Result<(), Refusal>
        ensures meets { (w : World) (bodies : ℕ → FrameValue) → StandsFor self.old w bodies →
            Meets w bodies (Asked (Wake station)) self.new (reply_of_result (λ _. Woken) result) }
        ensures refused { IfErr result (λ _. self.new ≡ self.old) }
        ensures unheard { HasUnheardWorld self.new }
    {
        match self.half.wake(station) {
            Ok(()) => {
                self.ready.set_all(&self.half, station);
                Ok(())
            }
            Err(reason) => Err(reason),
        }
    }

    /// A sleeping station asks for one frame (PS-Poll, 10.2.1.6). Returns the most urgent class in which the
    /// station can send; it may then be sent one exchange of this class. Refused as BadStation, NoStation,
    /// Awake, Polled or Nothing.
    pub fn poll(&mut self, station: u16) -> Result<Class, Refusal>
        ensures meets { (w : World) (bodies : ℕ → FrameValue) → StandsFor self.old w bodies →
            Meets w bodies (Asked (Poll station)) self.new (reply_of_result Polled result) }
        ensures refused { IfErr result (λ _. self.new ≡ self.old) }
        ensures unheard { HasUnheardWorld self.new }
    {
        match self.half.poll(station) {
            Ok(class) => {
                self.ready.set_all(&self.half, station);
                Ok(class)
            }
            Err(reason) => Err(reason),
        }
    }

    /// Charges a station for the airtime that it used in a class to send, 1 to 65,535 microseconds, and
    /// returns its deficit. Refused as BadStation, BadAir, NoStation, or as Debt if the deficit would fall
    /// further below 0 than the setting `debt`.
    pub fn rx(&mut self, station: u16, class: Class, air: u32) -> Result<i64, Refusal>
        requires small { IsReceiptSmall self.old station class }
        ensures meets { (w : World) (bodies : ℕ → FrameValue) → StandsFor self.old w bodies →
            Meets w bodies (Asked (Rx station class air)) self.new (reply_of_result Charged result) }
        ensures refused { IfErr result (λ _. self.new ≡ self.old) }
        ensures unheard { HasUnheardWorld self.new }
    {
        self.half.rx(station, class, air)
    }

    /// Takes the first frame off the finished list. None exactly if no frame is finished, which the machine
    /// refuses as Nothing.
    pub fn reap(&mut self) -> Option<Parcel>
        ensures meets { (w : World) (bodies : ℕ → FrameValue) → StandsFor self.old w bodies →
            Meets w bodies (Asked Reap) self.new (reaped_reply result) }
        ensures parcel { IfSome result (λ p. (w : World) (bodies : ℕ → FrameValue) →
            StandsFor self.old w bodies → IsBodySettled bodies p) }
        ensures refused { IfNone result (self.new ≡ self.old) }
        ensures unheard { HasUnheardWorld self.new }
    {
        self.half.reap()
    }
}
