//! Bursts: several calls in one.

ghost use Rattle.std.specs.Prelude.{◌≡◌, ◌⊎◌, ◌<◌, ◌≤◌, ◌^◌, true, is_some, ℕ, Some, pos, length, slice_get, None, IfErr, OnOk, OnErr};
ghost use Rattle.wf_frame.specs.Frames.{FrameValue};
ghost use Rattle.wf_frame.specs.declared.notes.Ask.{Ask};
ghost use Rattle.wf_frame.specs.declared.notes.Note.TheVariants.{Asked};
ghost use Rattle.wf_path.specs.Driver.{IsEnded};
ghost use Rattle.wf_path.specs.Jobs.{job_of};
ghost use Rattle.wf_path.specs.Paths.{HasCountsBelow, IsSmall, RiseLittle};
ghost use Rattle.wf_path.specs.declared.job.Job.TheVariants.{Call, Give};
ghost use Rattle.wf_c.specs.Bursts.{HoldsBelow, IsBurst, IsBurstEnd, IsMade, RestStays, StopsPath, StopsPathAt, is_of_path, no_call_code};
ghost use Rattle.wf_c.specs.CallNumbers.{call_noted};
ghost use Rattle.wf_c.specs.Calls.{Becomes, IsCalled};
ghost use Rattle.wf_c.specs.Numbers.{numbers_of};
ghost use Rattle.wf_c.specs.Bodies.{IsGivenToC, small_buffer};

use crate::cell::calls::CallNumbers;
use crate::exchanges::SMALL_BUFFER;
use crate::frames::BAD_LENGTH;
use crate::held::Held;
use crate::make::NO_MEMORY;
use crate::reply::{Reply, refusal_code};
use crate::slot::PathSlot;
use std::alloc::Global;
use wf_frame::{Answer, Ask, GREATEST_BODY, Note, Refusal};
use wf_path::{ExchangeAsk, Path, PathJob};

/// The code of numbers that show no call.
pub(crate) const BAD_CALL: i32 = 63;

/// Why a burst ends before a call.
#[derive(Clone, Copy)]
pub(crate) enum NoCall {
    /// The numbers show no call, or one that a path does not take.
    BadCall,
    /// The call enqueues a frame, and its length is 0 or above 2304.
    BadLength,
    /// The call enqueues a frame, and there is no memory for it.
    NoMemory,
    /// The history of the cell is full.
    HistoryFull,
}

impl NoCall {
    // Its code.
    pub(crate) fn code(self) -> i32
        ensures { result ≡ pos (no_call_code self) }
    {
        match self {
            NoCall::BadCall => BAD_CALL,
            NoCall::BadLength => BAD_LENGTH,
            NoCall::NoMemory => NO_MEMORY,
            NoCall::HistoryFull => refusal_code(Refusal::HistoryFull),
        }
    }
}

/// How far a burst went.
#[derive(Clone, Copy)]
pub(crate) struct BurstEnd {
    /// The number of calls that were made.
    pub(crate) made: usize,
    /// The code: 0 if all were made.
    pub(crate) code: i32,
}

// Returns whether a frame may have a body of this length.
pub(crate) fn is_body_length(len: u16) -> bool
    ensures fits { result ≡ true → (0 < len) × (len ≤ 2304) }
    ensures cause { (result ≡ true) ⊎ ((len ≡ 0) ⊎ (2304 < len)) }
{
    0 < len && len <= GREATEST_BODY
}

// Writes a reply at its place.
pub(crate) fn put_reply(replies: &mut [Reply], place: usize, shown: Reply)
    requires within { place < length replies.old }
    ensures put { slice_get replies.new place ≡ Some shown }
    ensures before { (i : ℕ) → i < place → slice_get replies.new i ≡ slice_get replies.old i }
    ensures after { (i : ℕ) → place < i → slice_get replies.new i ≡ slice_get replies.old i }
    ensures size { length replies.new ≡ length replies.old }
{
    replies[place] = shown;
}

// Writes an answer at its place.
#[inline(never)]
fn put_answer(answer: &Answer, replies: &mut [Reply], place: usize)
    requires within { place < length replies.old }
    ensures put { slice_get replies.new place ≡ Some (numbers_of answer.now.brief) }
    ensures before { (i : ℕ) → i < place → slice_get replies.new i ≡ slice_get replies.old i }
    ensures after { (i : ℕ) → place < i → slice_get replies.new i ≡ slice_get replies.old i }
    ensures size { length replies.new ≡ length replies.old }
{
    put_reply(replies, place, Reply::of(answer.brief));
}

// Ends an exchange whose answer was not heard.
#[inline(never)]
fn end_unheard(path: &mut Path, answer: &mut Answer, exchange: u64, air: Option<u32>)
    requires small { IsSmall path.old.half }
    ensures ended { IsEnded path.old exchange None air path.new answer.new.brief }
{
    answer.brief = path.done_bits(exchange, None, air);
}

impl Held {
    // Makes a call of the path, and frees the frame that it returns, if any; the reserve may keep its node.
    fn take(&mut self, job: PathJob)
        requires small { IsSmall self.old.path.half }
        ensures called { (ask : Ask) → job_of job ≡ Call ask →
            IsCalled self.old ask self.new (numbers_of self.new.answer.brief) }
        ensures given { (f : FrameValue) → job_of job ≡ Give f →
            IsGivenToC self.old f self.new (numbers_of self.new.answer.brief) }
        ensures rises { RiseLittle self.old.path.half self.new.path.half }
    {
        let back = self.path.call(job, &mut self.answer);
        self.reserve.keep_any(back);
    }

    // Makes a call of a burst that brings no frame, if a path takes it.
    fn make_ask(&mut self, ask: Ask) -> Result<(), NoCall>
        requires small { IsSmall self.old.path.half }
        ensures made { OnOk result (IsMade (Asked ask) self.old self.new (numbers_of self.new.answer.brief)) }
        ensures taken { OnOk result (is_of_path (Asked ask) ≡ true) }
        ensures stopped { IfErr result (λ why. StopsPath why (Asked ask) self.old) }
        ensures unchanged { OnErr result (self.new ≡ self.old) }
        ensures rises { OnOk result (RiseLittle self.old.path.half self.new.path.half) }
    {
        match PathJob::of(ask) {
            Ok(job) => {
                self.take(job);
                Ok(())
            }
            Err(
                ExchangeAsk::Done {
                    exchange,
                    heard: false,
                    air,
                },
            ) => {
                end_unheard(&mut self.path, &mut self.answer, exchange, air);
                Ok(())
            }
            Err(_) => Err(NoCall::BadCall),
        }
    }

    // Makes a call of a burst, if a path takes it.
    fn make(&mut self, alloc: Global, note: Note) -> Result<(), NoCall>
        requires small { IsSmall self.old.path.half }
        ensures made { OnOk result (IsMade note self.old self.new (numbers_of self.new.answer.brief)) }
        ensures taken { OnOk result (is_of_path note ≡ true) }
        ensures stopped { IfErr result (λ why. StopsPath why note self.old) }
        ensures unchanged { OnErr result (self.new ≡ self.old) }
        ensures rises { OnOk result (RiseLittle self.old.path.half self.new.path.half) }
    {
        match note {
            Note::Asked(ask) => self.make_ask(ask),
            Note::Enqueue {
                station,
                tid,
                flow,
                len,
            } => {
                if !is_body_length(len) {
                    return Err(NoCall::BadLength);
                }
                match self.reserve.bare_node(alloc, station, tid, flow, len) {
                    Some(parcel) => {
                        self.take(PathJob::Give(parcel));
                        Ok(())
                    }
                    None => Err(NoCall::NoMemory),
                }
            }
        }
    }

    // Makes the calls of a burst in order, up to the first that is not made.
    fn burst(&mut self, alloc: Global, calls: &[CallNumbers], replies: &mut [Reply]) -> BurstEnd
        requires low { HasCountsBelow (2 ^ 61) self.old.path.half }
        requires few { length calls.now < 2 ^ 32 }
        requires room { length calls.now ≤ length replies.old }
        ensures made { IsBurst self.old self.new calls.now replies.new result.made }
        ensures rest { RestStays replies.old replies.new result.made }
        ensures ends { IsBurstEnd (λ why c. StopsPathAt why c self.new) calls.now result }
    {
        for i in 0..calls.len() {
            let Some(note) = calls[i].call_noted() else {
                return BurstEnd {
                    made: i,
                    code: BAD_CALL,
                };
            };
            match self.make(alloc, note) {
                Ok(()) => put_answer(&self.answer, replies, i),
                Err(why) => {
                    return BurstEnd {
                        made: i,
                        code: why.code(),
                    };
                }
            }
        }
        BurstEnd {
            made: calls.len(),
            code: 0,
        }
    }
}

/// Makes calls in order, each reply at its place, up to the first that is not made. An enqueue is of a frame
/// whose octets stay with its owner; a reaped frame is freed; the end of an exchange was not heard. `made` is
/// how many were made. Returns 0 if all were; 63 for numbers that show no call that a path takes; 61 for an
/// enqueue of a length that no frame has; 60 if there is no memory; or 62 if there are fewer replies than
/// calls, and then no call is made.
#[unsafe(no_mangle)]
pub extern "C" fn wf_path_burst(
    alloc: Global,
    path: &mut PathSlot,
    calls: &[CallNumbers],
    replies: &mut [Reply],
    made: &mut usize,
) -> i32
    requires open { is_some path.old.value ≡ true }
    requires low { HoldsBelow (2 ^ 61) path.old.value }
    requires few { length calls.now < 2 ^ 32 }
    ensures made { Becomes (λ h k. IsBurst h k calls.now replies.new made.new) path.old.value path.new.value }
    ensures rest { RestStays replies.old replies.new made.new }
    ensures ends { length calls.now ≤ length replies.old → Becomes (λ h k. IsBurstEnd
        (λ why c. StopsPathAt why c k) calls.now (record { made = made.new; code = result }))
        path.old.value path.new.value }
    ensures small { length replies.old < length calls.now → (made.new ≡ 0) × (result ≡ pos small_buffer) }
{
    if replies.len() < calls.len() {
        *made = 0;
        return SMALL_BUFFER;
    }
    let end = path.held().burst(alloc, calls, replies);
    *made = end.made;
    end.code
}
