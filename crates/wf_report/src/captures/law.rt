//! The law that `frames` lists the capture of a run.

ghost use Rattle.std.specs.Prelude.{◌≤◌, List, length};
ghost use Rattle.wf_frame.specs.Settings.{IsInRange};
ghost use Rattle.wf_frame.specs.declared.settings.Config.{Config};
ghost use Rattle.wf_report.specs.ListedPackets.{most_octets_read};
ghost use Rattle.wf_report.specs.ListingLaw.{IsListed};
ghost use Rattle.wf_law_runs.specs.Lengths.{HasLengths};
ghost use Rattle.wf_def_world.specs.Run.{Entry};
ghost use Rattle.wf_report.specs.Captures.{most_calls_timed, packets_in, capture_of};

/// The command `frames` lists each packet of the capture of a history in order, with its time and its length,
/// and no fault, if the history has at most 429,496,729 calls and the capture at most 1,099,511,627,776
/// octets.
pub fn captured_run_is_listed()
    ensures { (config : Config) (history : List Entry) → IsInRange config → HasLengths history →
        length history ≤ most_calls_timed →
        length (capture_of config history) ≤ most_octets_read → IsListed (packets_in config history) }
{}
