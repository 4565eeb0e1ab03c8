//! The texts that the help of the service prints after its words.

/// The text after the commands in the help of the program.
pub const STATUSES: &str = "\
Each fault is a line on standard error. The exit status:
  0  done
  1  plan: NAME at PATH; try: a message was refused or couldn't be read
  2  wrong words on the command line; limit: connections
  3  file: PLAN; device: read, write, random or listen NAME; memory
  4  audit: NAME
  5  stop now: messages were left undelivered, each named on standard error
  6  store: a write or sync failed; what was acknowledged is in the store
  7  store: damaged, or of another program or version
  8  store: in use by another process

Example: hl7_service run plan.toml --store store";

/// The two forms of `run`.
pub const RUN_USAGE: &str = "\
hl7_service run <PLAN> --store <FOLDER> [OPTIONS]
       hl7_service run <PLAN> --memory [OPTIONS]";

/// What is wrong with a `run` that has neither of the options that say where the history is kept, or both.
pub const ONE_PLACE: &str = "exactly one of '--store <FOLDER>' and '--memory' has to be given";

/// What is wrong with a `run` with an HTTP address that is none.
pub const HTTP_ADDRESS: &str =
    "the address of '--http <ADDRESS>' has to be an IP address and a port, as 127.0.0.1:9180";

/// What is wrong with a `run` with a word for where the words of answers are shown that is none.
pub const ANSWER_TEXT: &str = "the word of '--answer-text <WHERE>' has to be none, commands or log";

/// The text after the words in the help of `run`.
pub const RUNNING: &str = "\
N connections times the channels of the plan are at most 9999; else 'limit: connections', status 2.

Commands are read from standard input, a line each, and answered on standard output. Each answer ends with an empty
line. The end of standard input ends nothing.
  status         what each channel, each destination, the book and the connections have done
  metrics        the same numbers in the text format of Prometheus
  links          whether each destination is connected, its last fault, and when it is tried next
  message N      where message N is, when and from where it was received, and how its deliveries went
  show N         the text of message N as it was received, a segment a line
  show N NAME    the text of message N as it is or was sent to this destination
  export N PATH  the bytes of message N as they were received, into a new file
  find ID        the numbers of the messages with this control id (MSH-10), at most 100
  waiting NAME   the first 100 messages in a destination's queue, since when they wait and the last answer or fault
  failed NAME    the last 100 messages that failed at a destination, newest first, when, why and the last answer or fault
  hold NAME      sends this destination no further message: what it would be sent waits
  release NAME   sends messages to this destination again
  plan           where the plan in force comes from, since when it is, and its SHA-256
  plan text      the document of the plan in force
  deploy PATH    takes the plan in this file in place of the one in force
  prune          forgets what is settled, but for the last messages that are kept
  cancel N       does not deliver message N where it waits, if that is one destination
  cancel N NAME  does not deliver message N at this destination
  cancel N all   does not deliver message N wherever it waits
  cancel waiting NAME            changes nothing: how many wait at this destination, and the line that cancels them
  cancel waiting NAME through N  does not deliver the messages up to N that wait at this destination
  stop           reads no further block, delivers what waits, and ends
  stop now       ends without waiting for deliveries

With --http requests by GET are answered at that address, and nothing else: /metrics for Prometheus, /healthz and /readyz for
probes, / for people, /status, /status.json, /messages/N, /messages?control_id=ID, /destinations/NAME/waiting and
/destinations/NAME/failed. Whoever reaches the address can read them. No text of a message is among them.

Standard error has a log: a line for each event that an operator has to know of.

Example: hl7_service run plan.toml --store store --connections 16 --idle 600 < commands > answers";

/// The text after the words in the help of `try`.
pub const TRYING: &str = "\
Standard input holds MLLP blocks; or, where its first byte isn't 0x0B, one message as text, whose segments end with CR, LF
or CR LF. For each message standard output has the verdict with its cause, whether each route's filter was true, the
payload for each destination, a segment a line, and the acknowledgment. Nothing is kept and nothing is sent.

The status is 1 where a message was refused or couldn't be read.

Example: hl7_service try plan.toml --channel ADT < message.hl7";

/// The text after the words in the help of `check`.
pub const CHECKING: &str = "\
On success standard output has one line, 'plan ok: N channels, M destinations'. With --verbose a table follows: a row for
each route, with the channel, the destination, whether a filter of the channel or of the route has to hold, and the message
types of the channel. A fault is one line on standard error, status 1: 'plan: NAME at PATH', after notes of what was found
and what is wanted there. Warnings about what a plan is unlikely to mean are on standard error too, and leave the status 0.

Example: hl7_service check plan.toml --verbose";

/// The text after the words in the help of `store`.
pub const ASKING: &str = "\
Questions are read from standard input, a line each, and answered on standard output as 'run' answers them, until the end of
standard input. Each answer ends with an empty line.
  status         counts of channels and destinations, the book, the store, and what is held
  message N      where message N is
  show N         the text of message N as it was received, a segment a line
  show N NAME    the text of message N as it is or was sent to this destination
  find ID        the numbers of the messages with this control id (MSH-10), at most 100
  waiting NAME   the first 100 messages in a destination's queue
  failed NAME    the last 100 messages that failed at a destination, newest first, and why
  plan           the SHA-256 of the plan in force, and how many plans were deployed
  plan text      the document of the plan in force
  help           the questions

The store is copied into memory and read there. Its files stay as they are, and so do their owners and modes. What was in
flight when the service ended is shown as in flight. Where a service uses the store the status is 8.

Example: echo 'waiting LAB' | hl7_service store /var/lib/hl7-service";
