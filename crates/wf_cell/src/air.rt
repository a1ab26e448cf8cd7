//! Transmissions that arrive at stations, and the BlockAcks that answer them.

ghost use Rattle.std.specs.Prelude.{◌≡◌, ◌<◌, ◌≤◌, ◌==◌, nat_lt, ℕ, true, Some, None, [], length, position, take, option_map, IfOk, IfSome, if◌then◌else◌};
ghost use Rattle.wf_frame.specs.Frames.{FrameValue};
ghost use Rattle.wf_frame.specs.Answers.{reply_of};
ghost use Rattle.wf_frame.specs.declared.answers.Brief.TheVariants.{Ack, Ba};
ghost use Rattle.wf_frame.specs.declared.notes.Ask.TheVariants.{Arrive, Answer as Answers, Done, Unsent};
ghost use Rattle.wf_frame.specs.declared.notes.Note.TheVariants.{Asked};
ghost use Rattle.wf_frame.specs.declared.notes.ReplyNote.TheVariants.{Released};
ghost use Rattle.wf_def_lists.specs.Table.{bits_word};
ghost use Rattle.wf_def_world.specs.Refusals.{refusal};
ghost use Rattle.wf_def_world.specs.Exchanges.{transmissions};
ghost use Rattle.wf_def_world.specs.World.{World, Exchange, exchange as exchange_in, is_live};
ghost use Rattle.std.specs.Result.{result_err};
ghost use Rattle.wf_send_half_model.specs.Standing.{StandsFor};
ghost use Rattle.wf_recv_marks.specs.Marks.{with_answer, with_changed};
ghost use Rattle.wf_cell_model.specs.Arriving.{CarriesId};
ghost use Rattle.wf_cell_model.specs.Hearing.{agreement_of};
ghost use Rattle.wf_cell_model.specs.Refusing.{told_refusal, answer_refusal, done_refusal, mark_in};
ghost use Rattle.wf_path.specs.Addresses.{made_up};
ghost use Rattle.wf_path.specs.Transmissions.{sent_of};
ghost use Rattle.wf_path.specs.Jobs.{changes_nothing};
ghost use Rattle.wf_path.specs.Paths.{IsSmall};
ghost use Rattle.wf_send_half.specs.Marks.{bodies_unsent};
ghost use Rattle.wf_law_runs.specs.Delivery.{is_batch};
ghost use Rattle.wf_cell_model.specs.Catching.{peers_caught_up};
ghost use Rattle.wf_cell.specs.Engines.{EngineHasWorld, IsArriving, EngineIsIn, IsOnAir, EngineMeets, IsToldBy, heard_by};
ghost use Rattle.wf_cell.specs.Octets.{IsSentTo};

use crate::engine::Engine;
use wf_frame::{Answer, Brief, Config, Ids, Refusal};
use wf_octets::bits::Bits256;
use wf_octets::header::GREATEST_MPDU;
use wf_octets::seq12::Seq12;
use wf_path::{Path, PathAsk, PathJob, Sent};
use wf_recv_marks::Mark;

// Returns why a transmission neither arrives nor turns out not to have been on the air, if so: what arrived
// of its exchange, which has this mark and `count` transmissions, is against both.
fn told_refusal(mark: &Mark, count: u16, index: u16) -> Option<Refusal>
    requires { count < 257 }
    ensures { result ≡ told_refusal (Some mark.now) count index }
{
    if count <= index {
        Some(Refusal::BadIndex)
    } else if mark.answer.is_some() {
        Some(Refusal::Answered)
    } else if mark.has_arrived(index) {
        Some(Refusal::Arrived)
    } else {
        None
    }
}

// Returns why a station does not answer an exchange with this mark, if it does not. A batch has no answer.
fn answering_refusal(mark: &Mark, batch: bool) -> Option<Refusal>
    ensures { result ≡ answer_refusal (Some mark.now) batch }
{
    if mark.answer.is_some() {
        Some(Refusal::Answered)
    } else if batch || !mark.has_any() {
        Some(Refusal::Nothing)
    } else {
        None
    }
}

// Returns why an exchange with this mark does not end, if it does not. A batch needs no answer.
fn ending_refusal(
    settings: &Config,
    mark: &Mark,
    batch: bool,
    heard: bool,
    air: Option<u32>,
) -> Option<Refusal>
    ensures { result ≡ done_refusal settings.now (Some mark.now) batch heard air }
{
    if heard && (!batch && mark.answer.is_none()) {
        Some(Refusal::NoAnswer)
    } else if settings.is_bad_air(air) {
        Some(Refusal::BadAir)
    } else {
        None
    }
}

// The mark of an exchange that may end.
#[derive(Clone, Copy)]
struct Found {
    // Its place among the marks.
    place: usize,
    // The BlockAck that was heard, if any; of a batch, one that shows exactly the numbers that arrived.
    heard: Option<(Seq12, Bits256)>,
    // The frames or the request that the exchange sends.
    sent: Sent,
}

// Returns the answer to an exchange: an Ack if it is plain, else this BlockAck.
fn ack_or(plain: bool, ba: Brief) -> Brief
    ensures { result ≡ (if plain then Ack else ba) }
{
    if plain { Brief::Ack } else { ba }
}

// Writes a transmission of an open exchange, and returns its length in octets.
fn written(path: &Path, exchange: u64, index: u16, octets: &mut [u8; GREATEST_MPDU]) -> usize
    requires on_air { IsOnAir path.now.half exchange index }
    requires made_up { path.now.addresses ≡ made_up }
    ensures within { result ≤ 2330 }
    ensures says { (w : World) (bodies : ℕ → FrameValue) (x : Exchange) → StandsFor path.now.half w bodies →
        exchange_in w exchange ≡ Some x →
        index < transmissions x.content → IsSentTo x.station x.tid index x.content (take result octets.new) }
{
    match path.mpdu_with_zeros(exchange, index, octets) {
        Ok(len) => len,
        Err(_) => unreachable!(),
    }
}

// The id of the frame in a transmission of an open exchange; 0 for a request.
fn carried_id(path: &Path, exchange: u64, index: u16) -> u64
    ensures { (w : World) (bodies : ℕ → FrameValue) (x : Exchange) → StandsFor path.now.half w bodies →
        exchange_in w exchange ≡ Some x →
        index < transmissions x.content → CarriesId result index x.content }
{
    path.frame_id(exchange, index).unwrap_or(0)
}

impl Engine {
    // A transmission of an open exchange arrives at its station, or is refused.
    pub(crate) fn arrive(&mut self, exchange: u64, index: u16, answer: &mut Answer)
        requires { EngineHasWorld self.old }
        ensures meets { (w : World) (bodies : ℕ → FrameValue) → EngineIsIn self.old w bodies →
            EngineMeets w bodies (Asked (Arrive exchange index)) self.new (reply_of answer.new) }
        ensures path_kept { self.new.half ≡ self.old.half }
    {
        match self.check_arrival(exchange, index) {
            Err(reason) => answer.brief = Brief::Refused(reason),
            Ok(sent) => {
                self.pass_on(sent, exchange, index, &mut answer.ids);
                if self.path.is_batch(exchange) {
                    answer.ids.clear();
                }
                answer.brief = Brief::Released;
            }
        }
    }

    // Returns what an exchange sends, or why this transmission of it does not arrive.
    fn check_arrival(&self, exchange: u64, index: u16) -> Result<Sent, Refusal>
        requires { EngineHasWorld self.now }
        ensures refused { (w : World) (bodies : ℕ → FrameValue) → EngineIsIn self.now w bodies →
            result_err result ≡ refusal w (Asked (Arrive exchange index)) }
        ensures sent { IfOk result (λ sent. (w : World) (bodies : ℕ → FrameValue) →
            EngineIsIn self.now w bodies →
            option_map sent_of (exchange_in w exchange) ≡ Some sent) }
    {
        match self.check_told(exchange, index) {
            Err(reason) => Err(reason),
            Ok(_) if self.path.is_unsent(exchange, index) => Err(Refusal::Marked),
            Ok(sent) => Ok(sent),
        }
    }

    // Returns what an exchange sends, or why this transmission of it neither arrives nor turns out not to
    // have been on the air, by what arrived of the exchange.
    fn check_told(&self, exchange: u64, index: u16) -> Result<Sent, Refusal>
        requires { EngineHasWorld self.now }
        ensures told { (w : World) (bodies : ℕ → FrameValue) → EngineIsIn self.now w bodies →
            IsToldBy w exchange index (result_err result) }
        ensures sent { IfOk result (λ sent. (w : World) (bodies : ℕ → FrameValue) →
            EngineIsIn self.now w bodies →
            option_map sent_of (exchange_in w exchange) ≡ Some sent) }
        ensures index { IfOk result (λ _. index < 256) }
    {
        match self.marks.find(exchange) {
            None => Err(Refusal::NoExchange),
            Some(mark) => match self.path.sent(exchange) {
                None => Err(Refusal::NoExchange),
                Some(sent) => match told_refusal(mark, sent.count, index) {
                    Some(reason) => Err(reason),
                    None => Ok(sent),
                },
            },
        }
    }

    // A transmission of an open exchange never went on the air, or is refused.
    pub(crate) fn unsent(&mut self, exchange: u64, index: u16, answer: &mut Answer)
        requires some { EngineHasWorld self.old }
        requires small { IsSmall self.old.half }
        ensures meets { (w : World) (bodies : ℕ → FrameValue) → EngineIsIn self.old w bodies →
            EngineMeets w (bodies_unsent (exchange_in w exchange) index (reply_of answer.new) bodies)
            (Asked (Unsent exchange index)) self.new (reply_of answer.new) }
        ensures path_kept { changes_nothing (reply_of answer.new) ≡ true →
            self.new.half ≡ self.old.half }
    {
        match self.check_told(exchange, index) {
            Err(reason) => answer.brief = Brief::Refused(reason),
            Ok(_) => {
                let ask = PathAsk::Unsent { exchange, index };
                let _ = self.path.call(PathJob::Call(ask), answer);
            }
        }
    }

    // A transmission of an open exchange arrives at its station. `up` gets the frames that the station passes
    // up, of which the reply has none for a batch.
    fn pass_on(&mut self, sent: Sent, exchange: u64, index: u16, up: &mut Ids)
        requires { IsArriving self.old exchange index sent }
        ensures meets { (w : World) (bodies : ℕ → FrameValue) → EngineIsIn self.old w bodies →
            refusal w (Asked (Arrive exchange index)) ≡ None →
            EngineMeets w bodies (Asked (Arrive exchange index)) self.new
            (Released (if is_batch (exchange_in w exchange) then [] else up.new)) }
        ensures path_kept { self.new.half ≡ self.old.half }
    {
        let id = carried_id(&self.path, exchange, index);
        let len = written(&self.path, exchange, index, &mut self.octets);
        up.clear();
        self.peers
            .receive(sent.station, &self.octets[..len], id, up);
        self.marks.arrive(exchange, index);
    }

    // A station answers an open exchange with a BlockAck, or with an Ack if the exchange is plain, or is
    // refused.
    pub(crate) fn answer(&mut self, exchange: u64, answer: &mut Answer)
        requires { EngineHasWorld self.old }
        ensures meets { (w : World) (bodies : ℕ → FrameValue) → EngineIsIn self.old w bodies →
            EngineMeets w bodies (Asked (Answers exchange)) self.new (reply_of answer.new) }
        ensures path_kept { self.new.half ≡ self.old.half }
    {
        match self.check_answer(exchange) {
            Err(reason) => answer.brief = Brief::Refused(reason),
            Ok(sent) => {
                let plain = self.path.is_plain(exchange);
                let ba = self.keep_answer(sent, exchange);
                answer.brief = ack_or(plain, ba);
            }
        }
    }

    // Returns what an exchange sends, or why it is not answered.
    fn check_answer(&self, exchange: u64) -> Result<Sent, Refusal>
        requires { EngineHasWorld self.now }
        ensures refused { (w : World) (bodies : ℕ → FrameValue) → EngineIsIn self.now w bodies →
            result_err result ≡ refusal w (Asked (Answers exchange)) }
        ensures sent { IfOk result (λ sent. (w : World) (bodies : ℕ → FrameValue) →
            EngineIsIn self.now w bodies →
            option_map sent_of (exchange_in w exchange) ≡ Some sent) }
    {
        match self.marks.find(exchange) {
            None => Err(Refusal::NoExchange),
            Some(mark) => match self.path.sent(exchange) {
                None => Err(Refusal::NoExchange),
                Some(sent) => match answering_refusal(mark, self.path.is_batch(exchange)) {
                    Some(reason) => Err(reason),
                    None => Ok(sent),
                },
            },
        }
    }

    // Keeps a station's BlockAck in the mark, and returns it as an answer. The mark of a plain exchange keeps
    // what its Ack shows in the same form.
    fn keep_answer(&mut self, sent: Sent, exchange: u64) -> Brief
        requires within { sent.station < length self.old.peers }
        requires tid { sent.tid < 8 }
        ensures kept { let board = (agreement_of self.old.peers sent.station sent.tid).board in
            self.new ≡ record self.old {
              marks = with_changed exchange
                  (with_answer board.start board.offsets) self.old.marks;
            } }
        ensures brief { let board = (agreement_of self.old.peers sent.station sent.tid).board in
            result ≡ Ba board.start (bits_word 0 board.offsets) (bits_word 1 board.offsets)
            (bits_word 2 board.offsets) (bits_word 3 board.offsets)
            (nat_lt 64 board.size) }
    {
        let ba = self.peers.answer(sent.station, sent.tid);
        self.marks.keep(exchange, ba.start, ba.bits);
        Brief::Ba {
            start: ba.start.raw(),
            b0: ba.bits.word(0),
            b1: ba.bits.word(1),
            b2: ba.bits.word(2),
            b3: ba.bits.word(3),
            wide: ba.wide,
        }
    }

    // Ends an exchange. If it was heard, the kept answer is its BlockAck.
    pub(crate) fn done(&mut self, exchange: u64, heard: bool, air: Option<u32>, answer: &mut Answer)
        requires some { EngineHasWorld self.old }
        requires small { IsSmall self.old.half }
        ensures meets { (w : World) (bodies : ℕ → FrameValue) → EngineIsIn self.old w bodies →
            EngineMeets w bodies (Asked (Done exchange heard air)) self.new (reply_of answer.new) }
        ensures path_kept { changes_nothing (reply_of answer.new) ≡ true →
            self.new.half ≡ self.old.half }
    {
        match self.check_done(exchange, heard, air) {
            Err(reason) => answer.brief = Brief::Refused(reason),
            Ok(found) => {
                self.marks.close_at(found.place);
                answer.brief = self.path.done_bits(exchange, found.heard, air);
                self.catch_up(found.sent.station, found.sent.tid, &mut answer.ids);
            }
        }
    }

    // The receive half moves to the start of the window of a TID without an agreement: the device of an
    // offloaded station announces the start of the window to its peer, and a receiver of single frames takes
    // each of them. `up` is for the frames that it passes up, which no answer shows.
    pub(crate) fn catch_up(&mut self, station: u16, tid: u8, up: &mut Ids)
        requires tid { tid < 8 }
        requires within { station < length self.old.peers }
        ensures path_kept { self.new.half ≡ self.old.half }
        ensures marks_kept { self.new.marks ≡ self.old.marks }
        ensures peers { (w : World) (bodies : ℕ → FrameValue) → StandsFor self.old.half w bodies →
            is_live w station ≡ true → self.new.peers ≡ peers_caught_up w station tid self.old.peers }
    {
        if let Some(start) = self.path.start_announced(station, tid) {
            up.clear();
            self.peers.move_to(station, tid, start, up);
        }
    }

    // Returns the mark of an exchange that may end, or why it does not end.
    fn check_done(&self, exchange: u64, heard: bool, air: Option<u32>) -> Result<Found, Refusal>
        ensures refused { (w : World) (bodies : ℕ → FrameValue) → EngineIsIn self.now w bodies →
            result_err result ≡ refusal w (Asked (Done exchange heard air)) }
        ensures heard { IfOk result (λ found. IfSome (mark_in self.now.marks exchange) (λ m.
            (w : World) (bodies : ℕ → FrameValue) → StandsFor self.now.half w bodies →
            found.heard ≡ heard_by self.now.half m (is_batch (exchange_in w exchange)) heard)) }
        ensures sent { IfOk result (λ found. (w : World) (bodies : ℕ → FrameValue) →
            EngineIsIn self.now w bodies →
            option_map sent_of (exchange_in w exchange) ≡ Some found.sent) }
        ensures place { IfOk result (λ found. position (λ m. m.number == exchange) self.now.marks
            ≡ Some found.place) }
        ensures within { IfOk result (λ found. found.place < length self.now.marks) }
    {
        let settings = self.path.config();
        let Some((place, mark)) = self.marks.find_at(exchange) else {
            return Err(Refusal::NoExchange);
        };
        let Some(sent) = self.path.sent(exchange) else {
            return Err(Refusal::NoExchange);
        };
        let batch = self.path.is_batch(exchange);
        match ending_refusal(&settings, mark, batch, heard, air) {
            Some(reason) => Err(reason),
            None => Ok(Found {
                place,
                heard: self.heard_of(mark, batch, heard),
                sent,
            }),
        }
    }

    // Returns the BlockAck by which an exchange ends, if any: the answer that its mark keeps, if it was
    // heard, or of a batch one that shows exactly the numbers that arrived.
    fn heard_of(&self, mark: &Mark, batch: bool, heard: bool) -> Option<(Seq12, Bits256)>
        ensures { result ≡ heard_by self.now.half mark.now batch heard }
    {
        if batch {
            self.path.shown_at(mark.number, &mark.arrived)
        } else if heard {
            mark.answer
        } else {
            None
        }
    }
}
