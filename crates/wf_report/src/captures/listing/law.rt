//! The law that `frames` lists every capture that `write_head` and `write_packet` of `wf_io::pcap` write.

ghost use Rattle.std.specs.Prelude.{List, ◌≤◌, length};
ghost use Rattle.wf_report.specs.ListedPackets.{most_octets_read};
ghost use Rattle.wf_report.specs.ListingLaw.{Sent, AreWritable, capture_of_packets, IsListed};

/// A capture of at most 1,099,511,627,776 octets that is written packet by packet has no fault, and each of
/// its packets is listed in order, with its time, its length and its octets.
pub fn written_capture_is_listed()
    ensures { (packets : List Sent) → AreWritable packets →
        length (capture_of_packets packets) ≤ most_octets_read → IsListed packets }
{}
