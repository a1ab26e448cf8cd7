//! The table of refusals: the number of each, and its word.

ghost use Rattle.std.specs.Prelude.{◌≡◌, ◌<◌, ◌≤◌, length};
ghost use Rattle.wf_frame.specs.Refusals.{refusal_number, refusal_word, number_told, refusal_numbered};

use crate::Refusal;

// The refusals by their numbers. A number that follows the word is 0.
const REFUSALS: [Refusal; 43] = [
    // begin list: tools/tables writes these lines
    Refusal::BadStation,
    Refusal::BadWindow,
    Refusal::BadStart,
    Refusal::BadExponent,
    Refusal::BadRate,
    Refusal::BadTick,
    Refusal::BadTid,
    Refusal::BadAir,
    Refusal::BadIndex,
    Refusal::Live,
    Refusal::NoStation,
    Refusal::NoExchange,
    Refusal::NoAnswer,
    Refusal::Open { count: 0 },
    Refusal::Room { inside: 0 },
    Refusal::Sleeping { queued: 0 },
    Refusal::Full { count: 0 },
    Refusal::Idle,
    Refusal::Answered,
    Refusal::Arrived,
    Refusal::Nothing,
    Refusal::Asleep,
    Refusal::Awake,
    Refusal::Polled,
    Refusal::Debt { deficit: 0 },
    Refusal::HistoryFull,
    Refusal::BadWeight,
    Refusal::Ahead { owed: 0 },
    Refusal::BadAmpdu,
    Refusal::Stopped,
    Refusal::Started,
    Refusal::Marked,
    Refusal::Offloaded,
    Refusal::Agreed,
    Refusal::Held,
    Refusal::NotHeld,
    Refusal::NotAgreed,
    Refusal::Waits { count: 0 },
    Refusal::Legacy,
    Refusal::Buffered { queued: 0 },
    Refusal::Flying,
    Refusal::BadClasses,
    Refusal::BadBss,
    // end list
];

impl Refusal {
    // The row of the table: the number and the word.
    fn row(self) -> (u8, &'static [u8])
        ensures number { result.0 ≡ refusal_number self }
        ensures word { result.1.now ≡ refusal_word self }
        ensures range { (0 < result.0) × (result.0 ≤ 43) }
        ensures short { length result.1.now ≤ 12 }
    {
        match self {
            // begin rows: tools/tables writes these lines
            Refusal::BadStation => (1, b"bad-station"),
            Refusal::BadWindow => (2, b"bad-window"),
            Refusal::BadStart => (3, b"bad-start"),
            Refusal::BadExponent => (4, b"bad-exponent"),
            Refusal::BadRate => (5, b"bad-rate"),
            Refusal::BadTick => (6, b"bad-tick"),
            Refusal::BadTid => (7, b"bad-tid"),
            Refusal::BadAir => (8, b"bad-air"),
            Refusal::BadIndex => (9, b"bad-index"),
            Refusal::Live => (10, b"live"),
            Refusal::NoStation => (11, b"no-station"),
            Refusal::NoExchange => (12, b"no-exchange"),
            Refusal::NoAnswer => (13, b"no-answer"),
            Refusal::Open { .. } => (14, b"open"),
            Refusal::Room { .. } => (15, b"room"),
            Refusal::Sleeping { .. } => (16, b"sleeping"),
            Refusal::Full { .. } => (17, b"full"),
            Refusal::Idle => (18, b"idle"),
            Refusal::Answered => (19, b"answered"),
            Refusal::Arrived => (20, b"arrived"),
            Refusal::Nothing => (21, b"nothing"),
            Refusal::Asleep => (22, b"asleep"),
            Refusal::Awake => (23, b"awake"),
            Refusal::Polled => (24, b"polled"),
            Refusal::Debt { .. } => (25, b"debt"),
            Refusal::HistoryFull => (26, b"history-full"),
            Refusal::BadWeight => (27, b"bad-weight"),
            Refusal::Ahead { .. } => (28, b"ahead"),
            Refusal::BadAmpdu => (29, b"bad-ampdu"),
            Refusal::Stopped => (30, b"stopped"),
            Refusal::Started => (31, b"started"),
            Refusal::Marked => (32, b"marked"),
            Refusal::Offloaded => (33, b"offloaded"),
            Refusal::Agreed => (34, b"agreed"),
            Refusal::Held => (35, b"held"),
            Refusal::NotHeld => (36, b"not-held"),
            Refusal::NotAgreed => (37, b"not-agreed"),
            Refusal::Waits { .. } => (38, b"waits"),
            Refusal::Legacy => (39, b"legacy"),
            Refusal::Buffered { .. } => (40, b"buffered"),
            Refusal::Flying => (41, b"flying"),
            Refusal::BadClasses => (42, b"bad-classes"),
            Refusal::BadBss => (43, b"bad-bss"),
            // end rows
        }
    }

    /// Returns the number of the refusal in C: 1 to 43.
    pub fn number(self) -> u8
        ensures number { result ≡ refusal_number self }
        ensures range { (0 < result) × (result ≤ 43) }
    {
        self.row().0
    }

    /// Returns the word of the refusal in texts.
    pub fn word(self) -> &'static [u8]
        ensures word { result.now ≡ refusal_word self }
        ensures short { length result.now ≤ 12 }
    {
        self.row().1
    }

    /// Returns the refusal with this number, or `None` if there is none. A number that follows its word is
    /// 0.
    pub fn of_number(number: u32) -> Option<Refusal>
        ensures { result ≡ refusal_numbered number }
    {
        REFUSALS
            .iter()
            .copied()
            .find(|refusal| u32::from(refusal.number()) == number)
    }

    /// Returns the number that follows the word of the refusal, or `None` if none does: the number of open
    /// exchanges, of frames inside, of frames queued or of numbers that wait, or the deficit or the airtime
    /// in flight in microseconds.
    pub fn number_told(self) -> Option<i64>
        ensures { result ≡ number_told self }
    {
        match self {
            // begin number: tools/tables writes these lines
            Refusal::Open { count } | Refusal::Full { count } | Refusal::Waits { count } => {
                Some(i64::from(count))
            }
            Refusal::Room { inside } => Some(i64::from(inside)),
            Refusal::Sleeping { queued } | Refusal::Buffered { queued } => Some(i64::from(queued)),
            Refusal::Debt { deficit } => Some(deficit),
            Refusal::Ahead { owed } => Some(i64::from(owed)),
            // end number
            _ => None,
        }
    }
}
