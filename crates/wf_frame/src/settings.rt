//! The table of settings: the number of each, its word, and its least and its greatest value.

ghost use Rattle.std.specs.Prelude.{◌≡◌, ◌↔◌, ◌≤◌, None, length};
ghost use Rattle.wf_frame.specs.Settings.{standard, device, standard_of, fields, setting_number, setting_word, setting_named, setting_numbered, lowest_of, greatest_of, value_of, with_value, is_in_range, first_out_of_range, is_bad_air, IsInRange};

/// The settings of a cell. `Field::least` and `Field::most` return the range of each, and `Config::check`
/// returns the first that is out of its range.
#[derive(Clone, Copy, Debug, PartialEq, Eq)]
pub struct Config {
    // begin fields: tools/tables writes these lines
    /// The number of stations: their numbers are 0 to below this.
    pub stations: u32,
    /// The number of flow queues, which all stations share.
    pub flows: u32,
    /// The most frames in all flow queues and overflow queues together.
    pub limit: u32,
    /// The most frames that are accepted and not yet reaped.
    pub room: u32,
    /// The quantum of a flow queue, in octets of frame bodies.
    pub flow_quantum: u32,
    /// The quantum of a station of weight 1, in microseconds of airtime.
    pub quantum: u32,
    /// The most open exchanges of one class.
    pub inflight: u32,
    /// The most transmissions of one frame.
    pub attempts: u32,
    /// The most frames in one aggregate.
    pub agg: u32,
    /// The longest data time of one aggregate, in microseconds.
    pub cap: u32,
    /// The most frames queued for a sleeping station in one class.
    pub sleeping: u32,
    /// The most entries of a history.
    pub calls: u32,
    /// The greatest airtime that a Done may give, in microseconds. If it is 0, a Done may give none.
    pub charge: u32,
    /// How far below 0 a receive charge may bring a deficit, in microseconds.
    pub debt: u32,
    /// The limit on the computed airtime of all open exchanges of all classes, in microseconds. 0 is no
    /// limit.
    pub aql_total: u32,
    /// Whether frames of one flow keep their order: 1, or 0.
    pub keep_order: u32,
    /// Whether CoDel forgets its dropping state when a queue is listed: 1, or 0.
    pub codel_reset: u32,
    /// The limit on the computed airtime of a station's open exchanges of one class, in microseconds. 0 is
    /// no limit.
    pub aql: u32,
    /// Whether a station's airtime in flight counts against its deficit at a pick: 1, or 0.
    pub pending: u32,
    /// The octets of encryption that each MPDU has in addition to its header, body and check sequence.
    pub overhead: u32,
    /// The longest data time of one aggregate of class Vi, in microseconds. 0 means `cap`.
    pub cap_vi: u32,
    /// The longest data time of one aggregate of class Vo, in microseconds. 0 means `cap`.
    pub cap_vo: u32,
    /// Whether BlockAcks and BlockAckReqs go at 6, 12 or 24 Mbit/s by the rate of the data: 1, or 0, always
    /// at 24.
    pub answers: u32,
    /// Whether a credit blocks the next poll only while the station can send in the credit's class: 1, or
    /// 0, always.
    pub credits: u32,
    /// Which rates a station may have: those of HT, VHT and HE with 0, also of OFDM with 1, and also of
    /// OFDM and DSSS with 2.
    pub legacy: u32,
    /// The DTIM period: the number of beacons from one DTIM beacon to the next. 0 means 1.
    pub period: u32,
    /// The most group frames that are queued. With 0 none is accepted.
    pub buffered: u32,
    /// The number of BSSs: their numbers are 0 to below this. 0 means 1.
    pub bsses: u32,
    // end fields
}

/// A setting. The comment of each variant is its sentence in include/wf.h, docs/TRACE.md and
/// sim/settings.json.
#[derive(Clone, Copy, Debug, PartialEq, Eq)]
pub enum Field {
    // begin variants: tools/tables writes these lines
    /// Greatest number of stations, which are numbered 0 to `stations` - 1.
    Stations,
    /// Shared flow queues.
    Flows,
    /// Frames in flow and overflow queues.
    Limit,
    /// Frames accepted and not yet reaped.
    Room,
    /// Octets per flow visit.
    FlowQuantum,
    /// Microseconds per station visit, for weight 1.
    Quantum,
    /// Open exchanges per class.
    Inflight,
    /// Transmissions of one frame.
    Attempts,
    /// Frames in one aggregate.
    Agg,
    /// Data time of one aggregate, microseconds.
    Cap,
    /// Frames queued per sleeping station and class.
    Sleeping,
    /// Limit on the calls in a history, such as that of a trace; a path has none.
    Calls,
    /// Greatest airtime that `done` may give, in microseconds; with 0 it may give none.
    Charge,
    /// How far below 0 `rx` may bring a deficit, in microseconds.
    Debt,
    /// Limit on the airtime in flight of all classes together, in microseconds; 0 means no limit.
    AqlTotal,
    /// Whether the frames of a flow keep their order.
    KeepOrder,
    /// Whether CoDel starts outside its dropping state when a queue joins a TID's list.
    CodelReset,
    /// Limit on the airtime in flight of one station in one class, in microseconds; 0 means no limit.
    Aql,
    /// Whether the airtime in flight counts against a station when a pull picks one.
    Pending,
    /// Octets of encryption that each MPDU has in addition to its header, body and check sequence.
    Overhead,
    /// Data time of one aggregate of `vi`, microseconds; 0 means `cap`.
    CapVi,
    /// Data time of one aggregate of `vo`, microseconds; 0 means `cap`.
    CapVo,
    /// Whether BlockAcks and BlockAckReqs go at 6, 12 or 24 Mbit/s by the rate of the data; with 0 always
    /// at 24.
    Answers,
    /// Whether a credit blocks the next poll only while the station can send in the credit's class.
    Credits,
    /// Which rates a station may have: HT, VHT and HE; with 1 also OFDM; with 2 also OFDM and DSSS.
    Legacy,
    /// DTIM period: the number of beacons from one DTIM beacon to the next; 0 means 1.
    Period,
    /// Group frames that may be queued; with 0 none is accepted.
    Buffered,
    /// BSSs, which are numbered 0 to `bsses` - 1; 0 means 1.
    Bsses,
    // end variants
}

// The settings, in the order in which they are checked.
const FIELDS: [Field; 28] = [
    // begin list: tools/tables writes these lines
    Field::Stations,
    Field::Flows,
    Field::Limit,
    Field::Room,
    Field::FlowQuantum,
    Field::Quantum,
    Field::Inflight,
    Field::Attempts,
    Field::Agg,
    Field::Cap,
    Field::Sleeping,
    Field::Calls,
    Field::Charge,
    Field::Debt,
    Field::AqlTotal,
    Field::KeepOrder,
    Field::CodelReset,
    Field::Aql,
    Field::Pending,
    Field::Overhead,
    Field::CapVi,
    Field::CapVo,
    Field::Answers,
    Field::Credits,
    Field::Legacy,
    Field::Period,
    Field::Buffered,
    Field::Bsses,
    // end list
];

impl Field {
    /// Returns the settings, in the order in which they are checked.
    pub fn all() -> [Field; 28]
        ensures { result ≡ fields }
    {
        FIELDS
    }

    // The row of the table: the number, the word, the least and the greatest value.
    fn row(self) -> (u8, &'static [u8], u32, u32)
        ensures number { result.0 ≡ setting_number self }
        ensures word { result.1.now ≡ setting_word self }
        ensures least { result.2 ≡ lowest_of self }
        ensures greatest { result.3 ≡ greatest_of self }
        ensures numbered { (1 ≤ result.0) × (result.0 ≤ 28) }
        ensures short { length result.1.now ≤ 12 }
    {
        match self {
            // begin rows: tools/tables writes these lines
            Field::Stations => (1, b"stations", 1, 256),
            Field::Flows => (2, b"flows", 1, 4096),
            Field::Limit => (3, b"limit", 1, 65_535),
            Field::Room => (4, b"room", 1, 131_072),
            Field::FlowQuantum => (5, b"flow_quantum", 64, 65_535),
            Field::Quantum => (6, b"quantum", 100, 10_000),
            Field::Inflight => (7, b"inflight", 1, 8),
            Field::Attempts => (8, b"attempts", 1, 64),
            Field::Agg => (9, b"agg", 1, 256),
            Field::Cap => (10, b"cap", 3000, 5400),
            Field::Sleeping => (11, b"sleeping", 1, 65_535),
            Field::Calls => (12, b"calls", 1, u32::MAX),
            Field::Charge => (13, b"charge", 0, 65_535),
            Field::Debt => (14, b"debt", 0, 1_000_000),
            Field::AqlTotal => (15, b"aql_total", 0, 262_144),
            Field::KeepOrder => (16, b"keep_order", 0, 1),
            Field::CodelReset => (17, b"codel_reset", 0, 1),
            Field::Aql => (18, b"aql", 0, 262_144),
            Field::Pending => (19, b"pending", 0, 1),
            Field::Overhead => (20, b"overhead", 0, 32),
            Field::CapVi => (21, b"cap_vi", 0, 5400),
            Field::CapVo => (22, b"cap_vo", 0, 5400),
            Field::Answers => (23, b"answers", 0, 1),
            Field::Credits => (24, b"credits", 0, 1),
            Field::Legacy => (25, b"legacy", 0, 2),
            Field::Period => (26, b"period", 0, 255),
            Field::Buffered => (27, b"buffered", 0, 65_535),
            Field::Bsses => (28, b"bsses", 0, 16),
            // end rows
        }
    }

    /// Returns the number of the setting in C: 1 to 28.
    pub fn number(self) -> u8
        ensures number { result ≡ setting_number self }
        ensures range { (1 ≤ result) × (result ≤ 28) }
    {
        self.row().0
    }

    /// Returns the word of the setting in the head of a trace.
    pub fn word(self) -> &'static [u8]
        ensures word { result.now ≡ setting_word self }
        ensures short { length result.now ≤ 12 }
    {
        self.row().1
    }

    /// Returns the least value of the setting.
    pub fn least(self) -> u32
        ensures { result ≡ lowest_of self }
    {
        self.row().2
    }

    /// Returns the greatest value of the setting.
    pub fn most(self) -> u32
        ensures { result ≡ greatest_of self }
    {
        self.row().3
    }

    /// Returns the standard value of the setting: its value if a head does not set it.
    pub fn standard(self) -> u32
        ensures { result ≡ standard_of self }
    {
        self.value(&Config::standard())
    }

    /// Returns the setting with this word, or `None` if there is none.
    pub fn named(word: &[u8]) -> Option<Field>
        ensures { result ≡ setting_named word.now }
    {
        Field::all()
            .iter()
            .copied()
            .find(|field| field.word() == word)
    }

    /// Returns the setting with this number, or `None` if there is none.
    pub fn of_number(number: u32) -> Option<Field>
        ensures { result ≡ setting_numbered number }
    {
        Field::all()
            .iter()
            .copied()
            .find(|field| u32::from(field.number()) == number)
    }

    /// Returns the value of the setting.
    pub fn value(self, config: &Config) -> u32
        ensures { result ≡ value_of config.now self }
    {
        match self {
            // begin value: tools/tables writes these lines
            Field::Stations => config.stations,
            Field::Flows => config.flows,
            Field::Limit => config.limit,
            Field::Room => config.room,
            Field::FlowQuantum => config.flow_quantum,
            Field::Quantum => config.quantum,
            Field::Inflight => config.inflight,
            Field::Attempts => config.attempts,
            Field::Agg => config.agg,
            Field::Cap => config.cap,
            Field::Sleeping => config.sleeping,
            Field::Calls => config.calls,
            Field::Charge => config.charge,
            Field::Debt => config.debt,
            Field::AqlTotal => config.aql_total,
            Field::KeepOrder => config.keep_order,
            Field::CodelReset => config.codel_reset,
            Field::Aql => config.aql,
            Field::Pending => config.pending,
            Field::Overhead => config.overhead,
            Field::CapVi => config.cap_vi,
            Field::CapVo => config.cap_vo,
            Field::Answers => config.answers,
            Field::Credits => config.credits,
            Field::Legacy => config.legacy,
            Field::Period => config.period,
            Field::Buffered => config.buffered,
            Field::Bsses => config.bsses,
            // end value
        }
    }

    /// Sets the value of the setting; the other settings stay unchanged. The value is not checked.
    pub fn set(self, config: &mut Config, value: u32)
        ensures { config.new ≡ with_value config.old self value }
    {
        match self {
            // begin set: tools/tables writes these lines
            Field::Stations => config.stations = value,
            Field::Flows => config.flows = value,
            Field::Limit => config.limit = value,
            Field::Room => config.room = value,
            Field::FlowQuantum => config.flow_quantum = value,
            Field::Quantum => config.quantum = value,
            Field::Inflight => config.inflight = value,
            Field::Attempts => config.attempts = value,
            Field::Agg => config.agg = value,
            Field::Cap => config.cap = value,
            Field::Sleeping => config.sleeping = value,
            Field::Calls => config.calls = value,
            Field::Charge => config.charge = value,
            Field::Debt => config.debt = value,
            Field::AqlTotal => config.aql_total = value,
            Field::KeepOrder => config.keep_order = value,
            Field::CodelReset => config.codel_reset = value,
            Field::Aql => config.aql = value,
            Field::Pending => config.pending = value,
            Field::Overhead => config.overhead = value,
            Field::CapVi => config.cap_vi = value,
            Field::CapVo => config.cap_vo = value,
            Field::Answers => config.answers = value,
            Field::Credits => config.credits = value,
            Field::Legacy => config.legacy = value,
            Field::Period => config.period = value,
            Field::Buffered => config.buffered = value,
            Field::Bsses => config.bsses = value,
            // end set
        }
    }
}

impl Config {
    /// Returns the standard settings: those of a head that sets none.
    pub fn standard() -> Config
        ensures { result ≡ standard }
    {
        Config {
            // begin standard: tools/tables writes these lines
            stations: 16,
            flows: 1024,
            limit: 8192,
            room: 65_536,
            flow_quantum: 300,
            quantum: 300,
            inflight: 2,
            attempts: 10,
            agg: 32,
            cap: 4000,
            sleeping: 64,
            calls: 1_048_576,
            charge: 0,
            debt: 1_000_000,
            aql_total: 0,
            keep_order: 0,
            codel_reset: 0,
            aql: 0,
            pending: 0,
            overhead: 0,
            cap_vi: 0,
            cap_vo: 0,
            answers: 0,
            credits: 0,
            legacy: 0,
            period: 0,
            buffered: 0,
            bsses: 0,
            // end standard
        }
    }

    /// Returns the settings for devices: several exchanges are in flight, what is in flight counts and is
    /// limited, debts age, each flow keeps its order, and the end of an exchange may give its airtime.
    pub fn device() -> Config
        ensures settings { result ≡ device }
        ensures in_range { first_out_of_range result ≡ None }
    {
        Config {
            // begin device: tools/tables writes these lines
            stations: 16,
            flows: 1024,
            limit: 8192,
            room: 65_536,
            flow_quantum: 300,
            quantum: 300,
            inflight: 4,
            attempts: 10,
            agg: 32,
            cap: 4000,
            sleeping: 64,
            calls: 1_048_576,
            charge: 65_535,
            debt: 20_000,
            aql_total: 24_000,
            keep_order: 1,
            codel_reset: 1,
            aql: 12_000,
            pending: 1,
            overhead: 0,
            cap_vi: 0,
            cap_vo: 0,
            answers: 0,
            credits: 1,
            legacy: 0,
            period: 0,
            buffered: 0,
            bsses: 0,
            // end device
        }
    }

    /// Returns the first setting that is out of its range, or `None` if all are in range.
    #[tactic(auto, using(crate::proofs::Ranges::checked))]
    pub fn check(&self) -> Option<Field>
        ensures first { result ≡ first_out_of_range self.now }
        ensures in_range { (result ≡ None) ↔ IsInRange self.now }
    {
        self.first_failing()
    }

    /// Returns whether the end of an exchange may not give this airtime: it is 0 microseconds, or above the
    /// setting `charge`. An end that gives no airtime is always allowed.
    pub fn is_bad_air(&self, air: Option<u32>) -> bool
        ensures { result ≡ is_bad_air self.now air }
    {
        match air {
            Some(air) => air == 0 || air > self.charge,
            None => false,
        }
    }

    fn first_failing(&self) -> Option<Field>
        ensures { result ≡ first_out_of_range self.now }
    {
        FIELDS.iter().copied().find(|field| !self.holds(*field))
    }

    fn holds(&self, field: Field) -> bool
        ensures { result ≡ is_in_range self.now field }
    {
        let value = field.value(self);
        field.least() <= value && value <= field.most()
    }
}
