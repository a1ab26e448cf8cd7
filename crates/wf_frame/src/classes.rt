//! Access classes, and the table of fates, which are the ends of a frame.

ghost use Rattle.std.specs.Prelude.{◌≡◌, ◌<◌, ◌≤◌, [], ◌∷◌, length};
ghost use Rattle.wf_frame.specs.Classes.{all_classes, class_number, class_of, lower_tid, upper_tid, class_named, class_word, has_class, tid_number, fate_number, fate_word, fate_numbered};

/// An access category of IEEE 802.11-2012 (9.2.4.2). The least urgent comes first.
#[derive(Clone, Copy, Debug, PartialEq, Eq)]
pub enum Class {
    /// Background: TID 1 and 2.
    Bk,
    /// Best effort: TID 0 and 3.
    Be,
    /// Video: TID 4 and 5.
    Vi,
    /// Voice: TID 6 and 7.
    Vo,
}

impl Class {
    /// Returns the four classes, the least urgent first.
    pub fn all() -> [Class; 4]
        ensures { result ≡ all_classes }
    {
        [Class::Bk, Class::Be, Class::Vi, Class::Vo]
    }

    /// Returns its place among the four, the least urgent first: 0 to 3.
    pub fn number(self) -> usize
        ensures place { result ≡ class_number self }
        ensures range { result < 4 }
    {
        match self {
            Class::Bk => 0,
            Class::Be => 1,
            Class::Vi => 2,
            Class::Vo => 3,
        }
    }

    /// Returns the class of a TID, 0 to 7.
    pub fn of_tid(tid: u8) -> Class
        requires { tid < 8 }
        ensures { result ≡ class_of tid }
    {
        match tid {
            0 | 3 => Class::Be,
            1 | 2 => Class::Bk,
            4 | 5 => Class::Vi,
            _ => Class::Vo,
        }
    }

    /// Returns the two TIDs of the class, the lower first.
    pub fn tids(self) -> [u8; 2]
        ensures { result ≡ lower_tid self ∷ upper_tid self ∷ [] }
    {
        match self {
            Class::Bk => [1, 2],
            Class::Be => [0, 3],
            Class::Vi => [4, 5],
            Class::Vo => [6, 7],
        }
    }

    /// Returns whether the class is in a set of classes: class number c is, if bit c of `classes` is 1.
    pub fn is_in(self, classes: u8) -> bool
        ensures { result ≡ has_class classes self }
    {
        match self {
            Class::Bk => classes % 2 == 1,
            Class::Be => classes / 2 % 2 == 1,
            Class::Vi => classes / 4 % 2 == 1,
            Class::Vo => classes / 8 % 2 == 1,
        }
    }

    /// Returns the word of the class in texts: `bk`, `be`, `vi` or `vo`.
    pub fn word(self) -> &'static [u8]
        ensures word { result.now ≡ class_word self }
        ensures short { length result.now ≡ 2 }
    {
        match self {
            Class::Bk => b"bk",
            Class::Be => b"be",
            Class::Vi => b"vi",
            Class::Vo => b"vo",
        }
    }

    /// Returns the class with this word, or `None` if there is none.
    pub fn named(word: &[u8]) -> Option<Class>
        ensures { result ≡ class_named word.now }
    {
        match word {
            b"bk" => Some(Class::Bk),
            b"be" => Some(Class::Be),
            b"vi" => Some(Class::Vi),
            b"vo" => Some(Class::Vo),
            _ => None,
        }
    }
}

/// Returns the number of a station's TID among the TIDs of all stations: the eight of station 0 come first.
pub fn tid_number(station: u16, tid: u8) -> u32
    ensures { result ≡ tid_number station tid }
{
    8 * u32::from(station) + u32::from(tid)
}

/// Why a frame was dropped.
#[derive(Clone, Copy, Debug, PartialEq, Eq)]
pub enum Cause {
    /// Dropped when the flow queues held `limit` frames: it was the head of the longest.
    Overlimit,
    /// Dropped by CoDel (RFC 8289).
    Codel,
    /// Dropped after its last transmission: it was sent `attempts` times or given up, and never acknowledged.
    Retries,
    /// Dropped when its station left.
    Left,
    /// Dropped when its TID was flushed.
    Flushed,
    /// Dropped when the agreement of its TID ended.
    Ended,
}

/// The end of an accepted frame. The comment of each variant, and of each cause, is its sentence in
/// include/wf.h.
#[derive(Clone, Copy, Debug, PartialEq, Eq)]
pub enum Fate {
    /// Inside: queued, waiting for a transmission or on the air; no reaped frame is held.
    Held,
    /// Acknowledged: a BlockAck showed that it arrived.
    Acked,
    /// It was dropped, for this cause.
    Dropped(Cause),
}

// The fates by their numbers.
const FATES: [Fate; 8] = [
    Fate::Held,
    Fate::Acked,
    Fate::Dropped(Cause::Overlimit),
    Fate::Dropped(Cause::Codel),
    Fate::Dropped(Cause::Retries),
    Fate::Dropped(Cause::Left),
    Fate::Dropped(Cause::Flushed),
    Fate::Dropped(Cause::Ended),
];

impl Fate {
    // The row of the table: the number and the word.
    fn row(self) -> (u8, &'static [u8])
        ensures number { result.0 ≡ fate_number self }
        ensures word { result.1.now ≡ fate_word self }
        ensures range { result.0 < 8 }
        ensures short { length result.1.now ≤ 9 }
    {
        match self {
            Fate::Held => (0, b"held"),
            Fate::Acked => (1, b"acked"),
            Fate::Dropped(Cause::Overlimit) => (2, b"overlimit"),
            Fate::Dropped(Cause::Codel) => (3, b"codel"),
            Fate::Dropped(Cause::Retries) => (4, b"retries"),
            Fate::Dropped(Cause::Left) => (5, b"left"),
            Fate::Dropped(Cause::Flushed) => (6, b"flushed"),
            Fate::Dropped(Cause::Ended) => (7, b"ended"),
        }
    }

    /// Returns the number of the fate in C: 0 to 7.
    pub fn number(self) -> u8
        ensures number { result ≡ fate_number self }
        ensures range { result < 8 }
    {
        self.row().0
    }

    /// Returns the word of the fate in texts.
    pub fn word(self) -> &'static [u8]
        ensures word { result.now ≡ fate_word self }
        ensures short { length result.now ≤ 9 }
    {
        self.row().1
    }

    /// Returns the fate with this number, or `None` if there is none.
    pub fn of_number(number: u32) -> Option<Fate>
        ensures { result ≡ fate_numbered number }
    {
        FATES
            .iter()
            .copied()
            .find(|fate| u32::from(fate.number()) == number)
    }
}
