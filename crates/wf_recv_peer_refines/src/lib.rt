//! Proves that a receive half with 12-bit numbers does what the receiver of the definitions does.
//!
//! The scoreboard and the reordering buffer (`wf_recv_peer::recipient`) follow the rules of IEEE 802.11-2012,
//! 9.21.7.3 to 9.21.7.6, modulo 4096, for every sequence of numbers. A receiver (`wf_def_agreement`) has
//! unbounded numbers: those that arrived, and the starts of requests. The two agree as long as each number
//! that arrives is within reach. The window law says that each frame and each request in flight is. Each law
//! is a function without a body; its contract states it.
#![tactic(auto)]

ghost use Rattle.std.specs.Prelude.{◌≡◌, ℕ, ◌+◌, ◌%◌, ◌≤◌, true, [], map, Some, None, if◌then◌else◌};
ghost use Rattle.wf_def_lists.specs.Table.{has, bits_word};
ghost use Rattle.wf_def_agreement.specs.Receiver.{Receiver, new_receiver, with_arrived, with_start, release_start, score_start, released_between, score, bitmap_word};
ghost use Rattle.wf_octets.specs.Distance.{distance};
ghost use Rattle.wf_recv_peer.specs.Board.{Board, empty_board, after_number as board_arrived, after_start as board_requested};
ghost use Rattle.wf_recv_peer.specs.Buffer.{Buffer, empty_buffer, number_outcome as buffer_arrived, request_outcome as buffer_requested};
ghost use Rattle.wf_recv_peer_refines.specs.Half.{ReceiveHalfStandsFor, resized, IsPastAll, IsInReach, IsRequestInReach, ComparesRight, ComparesBoth};

/// Two numbers that are at most 2047 apart compare by their 12 bits as they do themselves (8.2.4.4.2). So if
/// the half compares a number within reach with either of its starts, it gets the same result as for the
/// unbounded numbers.
pub fn comparisons_are_whole()
    ensures near { (n b : ℕ) → n ≤ b + 2047 → b ≤ n + 2047 → ComparesRight n b }
    ensures data { (ids : ℕ → ℕ) (r : Receiver) (board : Board) (buffer : Buffer) (n : ℕ) →
        ReceiveHalfStandsFor ids r board buffer → IsInReach r n → ComparesBoth r n }
    ensures request { (ids : ℕ → ℕ) (r : Receiver) (board : Board) (buffer : Buffer) (f : ℕ) →
        ReceiveHalfStandsFor ids r board buffer → IsRequestInReach r f → ComparesBoth r f }
{}

/// For a new agreement (9.21.2), an empty scoreboard and an empty buffer from the first number on represent a
/// new receiver of that number, for every window of 1 to 256.
pub fn a_new_agreement()
    ensures { (ids : ℕ → ℕ) (capacity first size : ℕ) → 1 ≤ size → size ≤ 256 →
        ReceiveHalfStandsFor ids (new_receiver first size) (empty_board (first % 4096) size)
        (empty_buffer capacity (first % 4096) size) }
{}

/// A number within reach arrives with its id. Then the half represents the receiver with that number. The
/// scoreboard shows it (9.21.7.3). The buffer stores it and passes up, in order, the ids of exactly the
/// numbers that the receiver passes up (9.21.7.6.2). It returns the id if, and only if, the number had
/// arrived before.
pub fn a_number_arrives()
    ensures stands { (ids : ℕ → ℕ) (r : Receiver) (board : Board) (buffer : Buffer) (n : ℕ) →
        ReceiveHalfStandsFor ids r board buffer → IsInReach r n →
        ReceiveHalfStandsFor ids (with_arrived n r) (board_arrived (n % 4096) board)
        (buffer_arrived (n % 4096) (ids n) buffer).after }
    ensures up { (ids : ℕ → ℕ) (r : Receiver) (board : Board) (buffer : Buffer) (n : ℕ) →
        ReceiveHalfStandsFor ids r board buffer → IsInReach r n →
        (buffer_arrived (n % 4096) (ids n) buffer).up ≡ map ids (released_between r (with_arrived n r)) }
    ensures back { (ids : ℕ → ℕ) (r : Receiver) (board : Board) (buffer : Buffer) (n : ℕ) →
        ReceiveHalfStandsFor ids r board buffer → IsInReach r n →
        (buffer_arrived (n % 4096) (ids n) buffer).back ≡ (if has r.arrived n then Some (ids n) else None) }
{}

/// The start of a BlockAckReq within reach arrives. Then the half represents the receiver with that start.
/// The windows of the scoreboard and of the buffer move to it, or are unchanged if it is before them
/// (9.21.7.3, 9.21.7.6.3). The buffer passes up, in order, the ids of exactly the numbers that the receiver
/// passes up.
pub fn a_request_arrives()
    ensures stands { (ids : ℕ → ℕ) (r : Receiver) (board : Board) (buffer : Buffer) (f : ℕ) →
        ReceiveHalfStandsFor ids r board buffer → IsRequestInReach r f →
        ReceiveHalfStandsFor ids (with_start f r) (board_requested (f % 4096) board)
        (buffer_requested (f % 4096) buffer).after }
    ensures up { (ids : ℕ → ℕ) (r : Receiver) (board : Board) (buffer : Buffer) (f : ℕ) →
        ReceiveHalfStandsFor ids r board buffer → IsRequestInReach r f →
        (buffer_requested (f % 4096) buffer).up ≡ map ids (released_between r (with_start f r)) }
    ensures back { (ids : ℕ → ℕ) (r : Receiver) (board : Board) (buffer : Buffer) (f : ℕ) →
        ReceiveHalfStandsFor ids r board buffer → IsRequestInReach r f →
        (buffer_requested (f % 4096) buffer).back ≡ None }
{}

/// An agreement begins or ends when all numbers are settled. The receiver gets the start of the session,
/// and its window gets another size. Then an empty scoreboard and an empty buffer from that start on
/// represent it. If that start was the next number to be passed up, nothing is passed up.
pub fn an_agreement_is_resized()
    ensures stands { (ids : ℕ → ℕ) (r : Receiver) (board : Board) (buffer : Buffer) (capacity f size : ℕ) →
        ReceiveHalfStandsFor ids r board buffer → IsPastAll r f → 1 ≤ size → size ≤ 256 →
        ReceiveHalfStandsFor ids (resized f size r) (empty_board (f % 4096) size)
        (empty_buffer capacity (f % 4096) size) }
    ensures nothing { (ids : ℕ → ℕ) (r : Receiver) (board : Board) (buffer : Buffer) (f : ℕ) →
        ReceiveHalfStandsFor ids r board buffer → IsPastAll r f → release_start r ≡ f →
        released_between r (with_start f r) ≡ [] }
{}

/// The content of a BlockAck (9.21.7.5): its start is the score's modulo 4096, and its offsets and their
/// words are the score's. A number from the start to 2047 past it is shown if, and only if, it arrived.
pub fn the_answer_is_the_score()
    ensures start { (ids : ℕ → ℕ) (r : Receiver) (board : Board) (buffer : Buffer) →
        ReceiveHalfStandsFor ids r board buffer →
        board.start ≡ (score r).start % 4096 }
    ensures offsets { (ids : ℕ → ℕ) (r : Receiver) (board : Board) (buffer : Buffer) →
        ReceiveHalfStandsFor ids r board buffer →
        board.offsets ≡ (score r).offsets }
    ensures words { (ids : ℕ → ℕ) (r : Receiver) (board : Board) (buffer : Buffer) (k : ℕ) →
        ReceiveHalfStandsFor ids r board buffer →
        bits_word k board.offsets ≡ bitmap_word (score r) k }
    ensures shown { (ids : ℕ → ℕ) (r : Receiver) (board : Board) (buffer : Buffer) (n : ℕ) →
        ReceiveHalfStandsFor ids r board buffer →
        score_start r ≤ n → n ≤ score_start r + 2047 →
        has board.offsets (distance (n % 4096) board.start) ≡ has r.arrived n }
{}

/// Only the ids of numbers that arrived matter: the half also represents the receiver if other numbers have
/// other ids, as they do when fresh numbers are given.
pub fn only_arrived_ids_matter()
    ensures { (ids others : ℕ → ℕ) (r : Receiver) (board : Board) (buffer : Buffer) →
        ((n : ℕ) → has r.arrived n ≡ true → ids n ≡ others n) → ReceiveHalfStandsFor ids r board buffer →
        ReceiveHalfStandsFor others r board buffer }
{}
