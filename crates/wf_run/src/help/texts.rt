//! The texts of the help. The contracts cite these constants, the script ./wf prints them from this file if
//! no program is built, and checks/help compares both outputs.

/// The text that `wf --version` writes. The number is in the file VERSION at the top of the repository.
pub const VERSION: &[u8] = b"wf 1.0.0
";

/// The text for words that are no command.
pub const USAGE: &str = "usage: wf replay [--pcap] < TRACE
       wf frames < CAPTURE
       wf session < SCRIPT
       wf uplink < SCRIPT
       wf soak SEED CALLS [device | agreements]
       wf live SEED SENDERS FRAMES
       wf help [COMMAND]
       wf --version
";

/// All commands, one per line.
pub const OVERVIEW: &[u8] = b"wf: the transmit path of a Wi-Fi access point, driven by text

  wf replay < TRACE             runs a trace of calls, and writes an answer line for each call
  wf replay --pcap < TRACE      writes what the trace puts on the air, as a capture file
  wf frames < CAPTURE           lists the packets of a capture file
  wf session < SCRIPT           runs a script of ADDBA messages on both ends of an agreement
  wf uplink < SCRIPT            runs a script of received frames, and lists those passed up
  wf soak SEED CALLS            runs a random history of calls, and writes its summary
  wf live SEED SENDERS FRAMES   runs threads that share a cell; writes their trace and summary
  wf help COMMAND               describes a command, as wf COMMAND --help does
  wf help faults                lists what can be wrong with a trace or a script
  wf --version                  writes the version

Commands read standard input and take no file names: wf replay < FILE.

Status: 0 done, 1 not a command, 2 a fault in the input, 3 a read failed, 4 a write failed,
5 out of memory. After a fault the last line on standard output is: fault line N KIND.

Example: wf replay < examples/one-frame.trace
";

/// The help on `replay`.
pub const REPLAY: &[u8] = b"wf replay < TRACE
wf replay --pcap < TRACE

Reads a trace of calls from standard input. Writes an answer line for each call before it
reads on, and a summary after the line end. With --pcap, it writes a capture file instead:
what the trace puts on the air.

A trace is a head, then calls, then the line end:

  cell [NAME=NUMBER ..]           the head, with settings (below)
  join S W START X [WEIGHT]       station and window, 0..65535; first number, 0..65535;
                                  exponent, 0..255; weight, 0..255 (default 1)
  leave S                         station, 0..65535
  rate S MCS MHZ GUARD            HT: MCS, 0..255; MHz, 0..255; long or short
  rate S vht MCS MHZ GUARD N      VHT: and streams, 0..255
  rate S he MCS MHZ GUARD N       HE: the guard interval in nanoseconds, 0..65535
  rate S ofdm MBIT                OFDM: Mbit/s, 0..255
  rate S dsss HALF_MBIT           DSSS: half Mbit/s, 0..255
  tick MICROSECONDS               0..4294967295
  enq S TID FLOW LENGTH           TID, 0..255; flow, 0..4294967295; octets, 1..2304
  pull CLASS                      bk, be, vi or vo
  pull CLASS frames N             and at most N frames, 1..65535
  pull CLASS air MICROSECONDS     and at most this airtime, 1..4294967295
  pull CLASS frames N air MICROSECONDS     and both limits
  arrive EXCHANGE INDEX           exchange, 0..4294967295; index, 0..65535
  answer EXCHANGE
  done EXCHANGE HEARD             heard or lost
  done EXCHANGE HEARD air MICROSECONDS     and the airtime, 0..4294967295
  sleep S
  wake S
  poll S
  rx S CLASS MICROSECONDS
  reap
  ampdu S OCTETS                  octets, 0..4294967295
  stop S
  start S
  unsent EXCHANGE INDEX
  giveup EXCHANGE INDEX
  flush S TID
  offload S X [G]                 S, 0..65535; X, 0..255; G, 0..255
  weight S G                      S, 0..65535; G, 0..255
  plain S START X [G]             S, 0..65535; START, 0..65535; X, 0..255; G, 0..255
  hold S TID                      S, 0..65535; TID, 0..255
  begin S TID W                   S, 0..65535; TID, 0..255; W, 0..65535
  free S TID                      S, 0..65535; TID, 0..255
  cease S TID                     S, 0..65535; TID, 0..255
  group LENGTH [B]                LENGTH, 1..2304; B, 0..255
  beacon [B]                      B, 0..255
  gpull [B]                       B, 0..255
  gdone [B]                       B, 0..255
  apsd S CLASSES MAX              S, 0..65535; CLASSES, 0..255; MAX, 0..255
  trigger S                       S, 0..65535
  eosp S                          S, 0..65535
  bss S B                         S, 0..65535; B, 0..255
  end

Settings: stations=1..256 flows=1..4096 limit=1..65535 room=1..131072 flow_quantum=64..65535
quantum=100..10000 inflight=1..8 attempts=1..64 agg=1..256 cap=3000..5400 sleeping=1..65535
calls=1..4294967295 charge=0..65535 debt=0..1000000 aql_total=0..262144 keep_order=0..1
codel_reset=0..1 aql=0..262144 pending=0..1 overhead=0..32 cap_vi=0..5400 cap_vo=0..5400
answers=0..1 credits=0..1 legacy=0..2 period=0..255 buffered=0..65535 bsses=0..16

Words are separated by spaces. A line that begins with #, after any spaces, is a comment and
is skipped. A call line may begin with its caller, @0 to @65535. A number has 1 to 10 decimal
digits and no leading zeros. A line has at most 160 printable ASCII characters.

Example: (echo cell; echo join 0 64 100 3; echo enq 0 0 7 1500; echo end) | wf replay

docs/TRACE.md describes traces, docs/MACHINE.md the calls, and docs/CAPTURES.md captures.
";

/// The help on `soak`.
pub const SOAK: &[u8] = b"wf soak SEED CALLS [device | agreements]

Reads nothing. Runs a random history of CALLS calls, and writes its summary. The same words
always give the same history. With the word device, some stations are offloaded, pulls have
limits, transmissions get marks, and stations leave, join, stop, start and change weights.
With the word agreements, some stations also join without agreements, and agreements begin
and end.

  SEED     0..18446744073709551615
  CALLS    1..1000000

Example: wf soak 1 200000

docs/TRACE.md describes the history and the summary.
";

/// The help on `live`.
pub const LIVE: &[u8] = b"wf live SEED SENDERS FRAMES

Reads nothing. Runs threads that share one cell: senders, each with FRAMES frames, and four
drivers. Writes the trace of all their calls in the order in which they were made, and then
the summary. wf replay accepts the trace.

  SEED     0..18446744073709551615
  SENDERS  1..8
  FRAMES   1..10000, for each sender

Example: wf live 1 4 100

docs/TRACE.md describes traces and the summary.
";

/// The help on `session`.
pub const SESSION: &[u8] = b"wf session < SCRIPT

Reads a script from standard input, and runs it on both ends of a block acknowledgement
agreement: a, the originator, which asks for it, and b, the recipient, which makes it. After
each event it writes the state of both ends before it reads on, and after the line end how
many messages each end sent.

  ask W START    a asks for a window of W numbers, 1..256, from START on, 0..4095
  again          a sends its last request again
  to X I         the other end's message I, counted from 0, arrives at X, which is a or b
  close X        X ends its agreement
  restart X      X loses its state, except its last token
  end

At most 65536 events. Lines, words and comments are as in a trace (wf help replay).

Example: (echo ask 64 100; echo to b 0; echo to a 0; echo end) | wf session

docs/SESSION.md describes scripts and answers.
";

/// The help on `uplink`.
pub const UPLINK: &[u8] = b"wf uplink < SCRIPT

Reads a script of what stations send from standard input. After each event it writes which
frames are passed up, in order, before it reads on, and after the line end how many.

  open S W START          station, 0..255; window, 1..256; first number, 0..4095
  plain S                 station, 0..255, whose TIDs have no agreement
  rate S MCS MHZ GUARD    MCS, 0..15; 20 or 40; long or short
  tick MICROSECONDS       0..10000000
  frame HEX               received octets: 2 to 100 digits 0-9 and a-f, an even number of them
  bar HEX                 the octets of a received BlockAckReq, likewise
  end

Lines, words and comments are as in a trace (wf help replay).

Example: wf uplink < examples/hole.uplink

docs/UPLINK.md describes scripts and answers.
";

/// The help on `frames`.
pub const FRAMES: &[u8] = b"wf frames < CAPTURE

Reads a capture file (pcap, version 2.4, link type 105: IEEE 802.11) from standard input, and
writes a line for each packet before it reads the next: its time, its length, for data,
BlockAckReq and BlockAck the TID and the number, and for beacons and group frames the number. A
packet has at most 262144 octets.

Example: wf frames < examples/five.pcap

docs/CAPTURES.md describes captures and their faults.
";

/// The help on faults of traces and scripts.
pub const FAULTS: &[u8] = b"A fault ends a trace or a script.

The last line on standard output is then: fault line N KIND. Lines count from 1, including
skipped ones. A fault at the end of the input is on the line after the last. If a line has
several faults, the first of these kinds is reported:

  too-big    the line does not end within the first 1099511627776 octets of the input; until
             then a line without an end is read, and not answered
  long-line  the line has more than 160 characters (comments too)
  not-ascii  an octet is not in 32..126 (comments too): a tab (9), a letter outside ASCII, or a
             carriage return (13), as at the ends of lines from Windows (use dos2unix)
  word       a call, an event, a setting or another word is unknown or not allowed there; words
             are in small letters: bk be vi vo, long short, heard lost, a b
  count      there are too many or too few words; a comment after a call counts as words
  number     a number is malformed: expected 1 to 10 digits without leading zeros
  range      a number is out of its range (wf help replay, wf help session, wf help uplink)
  no-head    the first line of a trace is not cell
  no-end     the input ends without the line end
  too-long   there are more calls than the head allows, or more than 65536 events in a session

docs/TRACE.md describes faults in full. The faults of captures are in docs/CAPTURES.md.
";
