//! The ghost state of a seat, and the rule of the gate's table. `View`, `Face`, `Stage` and `Opening` are
//! types of proofs only; no value of them exists at run time.
use atomic_table::TableRule;
use std::collections::LinkedList;
use std::marker::PhantomData;
use std::snapshot::Snapshot;
use wf_machine::Machine;

/// The machine at the moment when the gate was made, and the quotas by seat number.
pub struct Opening<S> {
    pub machine: S,
    pub quotas: LinkedList<u32>,
}

/// The entries that one seat has seen, its own calls, and its tries that did not get a turn.
pub struct Face<N> {
    pub number: u32,
    /// The entries made since the gate was made, as far as the seat has seen them. An entry is a caller and a
    /// note.
    pub seen: LinkedList<(u32, N)>,
    /// The indices in `seen` of the seat's own calls.
    pub own: LinkedList<u64>,
    /// For each try that did not get a turn: the number loaded from the serving word, and the ticket that the
    /// exchange found.
    pub looks: LinkedList<(u64, u64)>,
}

/// Whether a seat has tickets, and whether the first of them is served. The tickets of a seat have
/// consecutive numbers.
pub enum Stage {
    Idle,
    Waits { first: u64, count: u64 },
    Served { first: u64, count: u64 },
}

/// The ghost state of one seat. It has no opening if its seat was joined into another.
pub struct View<S, N> {
    pub opening: Option<Opening<S>>,
    pub face: Face<N>,
    pub stage: Stage,
    /// The number last loaded from the serving word, if no step has used it yet.
    pub read: Option<u64>,
    /// The faces of the seats that were joined into this one.
    pub records: LinkedList<Face<N>>,
    /// The numbers that this seat may still give to seats that are split off.
    pub give: LinkedList<u32>,
}

/// What the table's rule depends on, fixed when the table is made.
#[derive(Drop)]
pub struct Key<M> {
    pub machine: Snapshot<M>,
    pub quotas: Vec<u32>,
}

/// The rule of the gate's table.
pub struct Turns<M> {
    machine: PhantomData<M>,
}

impl<M: Machine> TableRule<Option<M>, View<M, M::Note>, Key<M>> for Turns<M> {
    ghost use Rattle.wf_gate.specs.Turns.{Kept, opening_of, first_view};

    ghost holds = { λ key. Kept M.past M.settings M.calls_left (opening_of key) };

    ghost first = { λ key. first_view (opening_of key) };
}

/// The part of the table that threads share.
pub type Shared<M> = atomic_table::Shared<
    Option<M>,
    View<M, <M as Machine>::Note>,
    Key<M>,
    Turns<M>,
>;

/// The token with which a thread makes steps on the table.
pub type Pass<M> = atomic_table::Seat<Option<M>, View<M, <M as Machine>::Note>>;

/// The index of the word with the next ticket.
pub const TICKET: usize = 0;

/// The index of the word with the ticket that is served, which is the number of calls made since the gate was
/// made.
pub const SERVING: usize = 1;

/// The index of the slot that contains the machine.
pub const MACHINE: usize = 0;
