//! Laws by which the readers of capture files read what the writers write. Each is a function without a body,
//! whose contract states the law.

ghost use Rattle.std.specs.Prelude.{◌≡◌, ℕ, ◌/◌, ◌%◌, ◌*◌, ◌^◌, ◌<◌, ◌≤◌, ◌++◌, List, None, length, drop};
ghost use Rattle.wf_io.specs.Capture.{IsHead, written_form, file_head_octets, packet_octets, packet_in};
ghost use Rattle.wf_io.specs.CaptureFaults.{head_fault, packet_fault};

/// `read_head` reads what `write_head` writes as little-endian and in microseconds, whatever follows it.
pub fn head_is_read_back()
    ensures read { (rest : List ℕ) → IsHead (file_head_octets ++ rest) written_form }
    ensures no_fault { (rest : List ℕ) → head_fault (file_head_octets ++ rest) ≡ None }
{}

/// `read_packet` reads what `write_packet` writes with the same time and number of octets, whatever follows
/// it, and the packet's octets follow the 16 of its header.
pub fn packet_is_read_back()
    ensures read { (at : ℕ) (octets rest : List ℕ) → at < 2 ^ 32 * 1000000 → length octets ≤ 65535 →
        packet_in written_form (packet_octets at octets ++ rest)
        ≡ record {
          seconds = at / 1000000;
          fraction = at % 1000000;
          captured = length octets;
          original = length octets;
        } }
    ensures no_fault { (at : ℕ) (octets rest : List ℕ) → length octets ≤ 65535 →
        packet_fault written_form (packet_octets at octets ++ rest) ≡ None }
    ensures octets { (at : ℕ) (octets rest : List ℕ) →
        drop 16 (packet_octets at octets ++ rest) ≡ octets ++ rest }
{}
