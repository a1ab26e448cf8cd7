//! The settings of a path, in a struct of the caller's.

ghost use Rattle.std.specs.Prelude.{◌≡◌, ◌<◌, ◌==◌, not, position, replicate, IfSome};
ghost use Rattle.wf_frame.specs.Settings.{standard, device};
ghost use Rattle.wf_c.specs.Making.{bad_place, config_of, first_set};

use wf_frame::Config;

// The place of the first reserved number: it follows the settings.
const FIRST_RESERVED: u8 = 29;

/// The settings of a path: those of `wf_frame::Config`, in its order, with the same units and ranges.
#[repr(C)]
#[derive(Clone, Copy)]
pub struct Settings {
    // begin fields: tools/tables writes these lines
    pub stations: u32,
    pub flows: u32,
    pub limit: u32,
    pub room: u32,
    pub flow_quantum: u32,
    pub quantum: u32,
    pub inflight: u32,
    pub attempts: u32,
    pub agg: u32,
    pub cap: u32,
    pub sleeping: u32,
    pub calls: u32,
    pub charge: u32,
    pub debt: u32,
    pub aql_total: u32,
    pub keep_order: u32,
    pub codel_reset: u32,
    pub aql: u32,
    pub pending: u32,
    pub overhead: u32,
    pub cap_vi: u32,
    pub cap_vo: u32,
    pub answers: u32,
    pub credits: u32,
    pub legacy: u32,
    pub period: u32,
    pub buffered: u32,
    pub bsses: u32,
    // end fields
    /// Room for later settings: each has to be 0.
    pub reserved: [u32; 4],
}

impl Settings {
    // The settings as a `Config`.
    pub(crate) fn config(&self) -> Config
        ensures { result ≡ config_of self.now }
    {
        Config {
            // begin config: tools/tables writes these lines
            stations: self.stations,
            flows: self.flows,
            limit: self.limit,
            room: self.room,
            flow_quantum: self.flow_quantum,
            quantum: self.quantum,
            inflight: self.inflight,
            attempts: self.attempts,
            agg: self.agg,
            cap: self.cap,
            sleeping: self.sleeping,
            calls: self.calls,
            charge: self.charge,
            debt: self.debt,
            aql_total: self.aql_total,
            keep_order: self.keep_order,
            codel_reset: self.codel_reset,
            aql: self.aql,
            pending: self.pending,
            overhead: self.overhead,
            cap_vi: self.cap_vi,
            cap_vo: self.cap_vo,
            answers: self.answers,
            credits: self.credits,
            legacy: self.legacy,
            period: self.period,
            buffered: self.buffered,
            bsses: self.bsses,
            // end config
        }
    }

    // The place of the first setting that is out of its range.
    #[tactic(auto, unfolding(crate::specs::Making::bad_place))]
    pub(crate) fn fault(&self) -> Option<u8>
        ensures { result ≡ bad_place self.now }
    {
        match self.config().check() {
            Some(field) => Some(field.number()),
            None => self.reserved_fault(),
        }
    }

    // The place of the first reserved number that is not 0.
    fn reserved_fault(&self) -> Option<u8>
        ensures { result ≡ first_set self.now.reserved }
    {
        match self.first_set() {
            Some(i) => Some(FIRST_RESERVED + i as u8),
            None => None,
        }
    }

    // The index of the first reserved number that is not 0.
    fn first_set(&self) -> Option<usize>
        ensures index { result ≡ position (λ number. not (number == 0)) self.now.reserved }
        ensures inside { IfSome result (λ i. i < 4) }
    {
        self.reserved.iter().position(|number| *number != 0)
    }
}

// The settings as the caller's struct has them.
fn shown(config: &Config) -> Settings
    ensures config { config_of result ≡ config.now }
    ensures reserved { result.reserved ≡ replicate 4 0 }
{
    Settings {
        // begin shown: tools/tables writes these lines
        stations: config.stations,
        flows: config.flows,
        limit: config.limit,
        room: config.room,
        flow_quantum: config.flow_quantum,
        quantum: config.quantum,
        inflight: config.inflight,
        attempts: config.attempts,
        agg: config.agg,
        cap: config.cap,
        sleeping: config.sleeping,
        calls: config.calls,
        charge: config.charge,
        debt: config.debt,
        aql_total: config.aql_total,
        keep_order: config.keep_order,
        codel_reset: config.codel_reset,
        aql: config.aql,
        pending: config.pending,
        overhead: config.overhead,
        cap_vi: config.cap_vi,
        cap_vo: config.cap_vo,
        answers: config.answers,
        credits: config.credits,
        legacy: config.legacy,
        period: config.period,
        buffered: config.buffered,
        bsses: config.bsses,
        // end shown
        reserved: [0; 4],
    }
}

/// Writes the standard settings, which a trace has unless it gives others.
#[unsafe(no_mangle)]
pub extern "C" fn wf_settings_standard(settings: &mut Settings)
    ensures config { config_of settings.new ≡ standard }
    ensures reserved { settings.new.reserved ≡ replicate 4 0 }
{
    *settings = shown(&Config::standard());
}

/// Writes the settings for devices (`Config::device`).
#[unsafe(no_mangle)]
pub extern "C" fn wf_settings_device(settings: &mut Settings)
    ensures config { config_of settings.new ≡ device }
    ensures reserved { settings.new.reserved ≡ replicate 4 0 }
{
    *settings = shown(&Config::device());
}
