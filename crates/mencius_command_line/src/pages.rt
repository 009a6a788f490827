//! Contains the texts of help and of the version, and selects the text that the arguments request.

ghost use Rattle.std.specs.Prelude.{◌≡◌, option_copied};
ghost use Rattle.mencius_command_line.specs.CommandLine.{bytes_of};
ghost use Rattle.mencius_command_line.specs.Help.{first_help, help_for, help_named, shown_for};

use clap::error::ErrorKind;

const VERSION_TEXT: &str = "mencius 0.1.0\n";

const PROGRAM_HELP: &str = "\
An executable reference of Mencius, the replicated state machine for wide area networks

All servers of a cluster live in this one process. They do nothing on their own. A schedule
says which command is submitted at which server, which message reaches which server and when,
which message is lost, which server suspects which other server, and which server executes
next. The cluster follows the schedule step by step, and prints the result.

Usage: mencius <COMMAND>

Commands:
  replay  Steps a new cluster through the scenario on standard input and prints a report
  trace   Steps a new cluster through the scenario on standard input and prints what each event did
  draw    Steps a new cluster through the scenario on standard input and prints a picture of what each event did
  check   Says where the scenario on standard input is wrong
  judge   Judges the log of any replicated store on standard input
  run     Lets workers choose the events of a new cluster and prints a report
  help    Print this message or the help of the given subcommand(s)

Options:
  -h, --help     Print help
  -V, --version  Print version

Examples, at the top of the repository:
  echo '{\"version\":1,\"servers\":1,\"events\":[\"submit 0 1.0 set a x\",
    \"deliver 0 0\",\"deliver 1 0\",\"execute 0\"]}' | ./mencius replay
  ./mencius trace < examples/duelling_revokers.json
  ./mencius run --journal < examples/calm_run.json | sed -n 1p | ./mencius replay

`./mencius replay --help` and `./mencius run --help` describe the input. The help of each task
describes its output. The folder examples/ has schedules and runs to try, and docs/FORMATS.md
describes all formats.
";

const REPLAY_HELP: &str = "\
Steps a new cluster through the scenario on standard input and prints a report

The scenario is one JSON object. It has a version (1 or 2), the number of servers (1 to 7), a
list of events, and optionally beta (0 to 4095). Servers, messages and instances are numbered
from 0, and messages in the order of sending. The ID of a command is CLIENT.NUMBER, two
numbers that the client chose.

  submit S ID set KEY TEXT  A client asks server S to bind KEY to TEXT, which may be empty
  submit S ID get KEY       A client asks server S to look KEY up
  submit S ID del KEY       A client asks server S to remove KEY
  submit S ID cas KEY OLD NEW
                            A client asks server S to bind KEY to NEW if its text is OLD.
                            Only in version 2
  deliver K D               Message K reaches server D, for the first time or again
  lose K D                  Message K can no longer reach server D
  suspect P Q               Server P suspects that Q has stopped. It revokes the instances
                            that Q left open, up to P's own front, and ahead of it by beta
  retry P                   Server P suggests a command again that lost its instance
  execute S                 Server S executes its next instance

The output has these lines, in this order:

  refused INDEX NAME        For each refused event: its place, from 0, and the reason
  servers N messages M events E
                            The numbers of servers, sent messages and accepted events
  server S front F done D history ID ID ..
                            For each server: its next own instance, the number of instances
                            that it executed, and the commands among them, or - for none
  reply ID none             For each submitted command: it found no text at its key,
  reply ID =TEXT            .. or it found this text,
  reply ID pending          .. or it has no reply yet

Usage: mencius replay [OPTIONS] < SCENARIO

Options:
      --strict  Exits with status 1 if any event was refused
  -h, --help    Print help

Exit status:
  0  done
  1  done, but with --strict an event was refused
  2  a bad command line
  3  a bad scenario: 21 NotJson, 22 BadShape, 23 BadLimit
  4  reading or writing failed: 24 ReadFailed, 25 WriteFailed
  5  memory ran out: 26 NoMemory
With status 3 to 5, standard error has the line `mencius: fault NUMBER NAME`. If the scenario
is bad or cannot be read, a second line says where it is wrong, unless memory for that line
ran out. The program then printed nothing, unless writing failed.

Example, at the top of the repository:
  echo '{\"version\":1,\"servers\":1,\"events\":[\"submit 0 1.0 set a x\",
    \"deliver 0 0\",\"deliver 1 0\",\"execute 0\"]}' | ./mencius replay

`mencius trace` prints the effect of each event, and `mencius check` checks a scenario without
stepping an event. docs/FORMATS.md describes the format in full, and examples/ has schedules
to try.
";

const TRACE_HELP: &str = "\
Steps a new cluster through the scenario on standard input and prints what each event did

The scenario is a scenario of `replay`. The help of `replay` describes it. Each line of the
output states one fact. Servers, events, messages and instances are numbered from 0. A value V
is the ID of a command, or no-op.

  servers N                 Once, at the start
  event INDEX TEXT          An event, by its place. The lines up to the next event say what
                            it did:
  refused NAME              the cluster refused the event, so it did nothing
  promises P instance I ballot B count C of M
                            P received a Promise. C servers have promised so far, and M
                            are a majority
  acceptances P instance I ballot B count C of M
                            P received an Accepted. C servers have accepted so far
  ignored REASON            the receiver ignored a message. It promised a greater ballot
                            (promised B), or tries another ballot (tries B), or had already
                            learned a value (learned V), or had already proposed one
  learned P instance I value V
                            P learned the value of an instance
  sent NUMBER KIND from S to D ..
                            a message was sent, to one server or to all. The line shows its
                            content. KIND is Suggest, Skip, Accepted, Prepare, Promise,
                            Propose or Learn. A Skip gives up its sender's instances I to J,
                            without J
  front P F                 the next own instance of P is now F
  executed P instance I value V
                            P executed its next instance
  reply ID none             a command got its reply: there was no text at its key,
  reply ID =TEXT            .. or there was this text

After the last event:

  server S front F executed D next I waiting ID ID ..
                            For each server: its next own instance, the number of instances
                            that it executed, the next one to execute, and the commands that
                            lost their instance and wait for a retry, or - for none
  unheard NUMBER KIND to D  For each message and each addressee, the sender included: the
                            message was neither received there nor lost

Usage: mencius trace [OPTIONS] < SCENARIO

Options:
      --json          Prints a JSON object in each line, with the same facts
      --instance <I>  Prints only the lines that concern this instance
      --command <ID>  Prints only the lines that concern this command: its submission, and the
                      instances that it is suggested for in the whole schedule
      --server <S>    Prints only the lines that concern this server: the events that happen
                      there, and the messages that it sends and that go to it
  -h, --help          Print help

If several of the last three are given, a line must concern all of them. Each line then begins
with `event INDEX`. If a fact is printed, the event that it follows is printed too.

Exit status:
  0  done, even if events were refused
  2  a bad command line, or an I, ID or S that names nothing
  3  a bad scenario: 21 NotJson, 22 BadShape, 23 BadLimit
  4  reading or writing failed: 24 ReadFailed, 25 WriteFailed
  5  memory ran out: 26 NoMemory
With status 3 to 5, standard error has the line `mencius: fault NUMBER NAME`. If the scenario
is bad or cannot be read, a second line says where it is wrong, unless memory for that line
ran out. The program then printed nothing, unless writing failed.

Examples, at the top of the repository:
  ./mencius trace < examples/duelling_revokers.json
  ./mencius trace --command 1.0 < examples/revoked_and_suggested_again.json
  ./mencius trace --json --instance 0 < examples/duelling_revokers.json
  ./mencius run --journal < examples/calm_run.json | sed -n 1p | ./mencius trace

docs/FORMATS.md describes the trace in full, and examples/ has schedules to try.
";

const DRAW_HELP: &str = "\
Steps a new cluster through the scenario on standard input and prints a picture of what each event did

The scenario is a scenario of `replay`. The help of `replay` describes it. The picture is an
SVG file. It has a lane for each server, time runs downwards, and each message that was
received or lost has an arrow. Labels next to the mark of an event show each message that the
server sent, and each value that it learned, executed or replied. The state of a server after
the last event is at the foot of its lane. The picture shows exactly the facts of the trace.

  dot                       an event from outside: a submission, a suspicion, a retry, or an
                            execution
  ring                      a message was received
  cross                     a message was lost. Its arrow has no point
  diamond                   a value was learned
  square                    an instance was executed
  barred ring               the event was refused. A label gives the reason

In a label, i is an instance, b a ballot, and V@b a vote for V in that ballot. A label has the
colour of the server that owns the instance. A key at the foot of the picture explains the rest.

Usage: mencius draw [OPTIONS] < SCENARIO

Options:
      --from <EVENT>  Leaves out the events before this one. Events are numbered from 0
      --to <EVENT>    Leaves out the events after this one
      --dark          Draws light on dark
      --light         Draws dark on light
  -h, --help          Print help

Without --dark and --light, or with both, the picture follows the setting of its reader. If an
arrow starts at an event that is left out, or more than 30 events above its end, the picture
shows only the end, with the number of the event that sent the message.

A picture has at most 50000 levels. An event takes one level, plus one for each of its labels
after the first. A picture with more levels is refused as a BadLimit.

Exit status:
  0  done, even if events were refused
  2  a bad command line, or an EVENT that is not a number
  3  a bad scenario: 21 NotJson, 22 BadShape, 23 BadLimit, or too many levels: 23 BadLimit
  4  reading or writing failed: 24 ReadFailed, 25 WriteFailed
  5  memory ran out: 26 NoMemory
With status 3 to 5, standard error has the line `mencius: fault NUMBER NAME`. If the scenario
is bad, cannot be read or has too many levels, a second line says where it is wrong, unless
memory for that line ran out. The program then printed nothing, unless writing failed.

Examples, at the top of the repository:
  ./mencius draw < examples/duelling_revokers.json > picture.svg
  ./mencius draw --from 5 --to 12 --dark < examples/duelling_revokers.json > part.svg

docs/FORMATS.md describes the picture in full, and examples/ has schedules to try.
";

const CHECK_HELP: &str = "\
Says where the scenario on standard input is wrong

The scenario is for `replay` or for `run`. The help of each describes its scenarios. If it has
no events, but workers, seed, turns, loss or commands, it is checked as a scenario of `run`.
The program steps no event and starts no worker. If the task would accept the scenario, the
program prints one line:

  ok servers N events E     For `replay`: the numbers of servers and of events
  ok servers N workers W turns T commands C C ..
                            For `run`: the numbers of servers and of workers, the number of
                            turns that each worker takes, and the number of commands for
                            each server

Otherwise it prints nothing on standard output. Standard error has the line of the fault that
the task would report, and then a line that says where and what the fault is.

Usage: mencius check < SCENARIO

Options:
  -h, --help  Print help

Exit status:
  0  the task would accept the scenario
  2  a bad command line
  3  a bad scenario: 21 NotJson, 22 BadShape, 23 BadLimit
  4  reading or writing failed: 24 ReadFailed, 25 WriteFailed
  5  memory ran out: 26 NoMemory
With status 3 to 5, standard error has the line `mencius: fault NUMBER NAME`. If the scenario
is bad or cannot be read, a second line says where it is wrong, unless memory for that line
ran out. The program then printed nothing, unless writing failed.

Examples, at the top of the repository. The second reports a superfluous zero:
  ./mencius check < examples/one_command.json
  echo '{\"version\":1,\"servers\":3,\"events\":[\"deliver 00 0\"]}' | ./mencius check

docs/FORMATS.md describes the format in full.
";

const JUDGE_HELP: &str = "\
Judges the log of any replicated store on standard input

The log has one observation per line, in the order in which an observer made them. The program
judges each line as it arrives, and the log may have any length. Servers S and T, a reader R
and a number N are 0 to 4294967295. ID, KEY and TEXT are as in `replay`.

  submit ID set KEY TEXT    A client submitted a command, perhaps again. The others are
                            `get KEY`, `del KEY` and `cas KEY OLD NEW`
  execute S ID              Server S executed this command next
  restore S T N             Server S, which had executed nothing, took over the first N
                            commands of server T. A server that starts anew takes a new number
  reply ID none             A client got the reply to its command: no text was at its key,
  reply ID =TEXT            .. or this text,
  reply ID ok               .. or only that the command took effect,
  reply ID failed           .. or that it changed nothing and never will
  settled S                 Server S claims to have each command that had a reply before this
                            line, other than `failed`
  lookup R KEY none         Reader R looked KEY up, and found no text,
  lookup R KEY =TEXT        .. or this text
  told R S                  Reader R now knows of all commands that server S has executed
  # ..                      This line is skipped, as an empty line is

The first line of the output is the verdict. The program prints a violation at once, and
otherwise one of the first two verdicts at the end:

  ok servers N commands C executed E replies R open 0 lookups L shortest M
                            Every promise is kept. N servers have a history, C commands were
                            submitted, the longest history has E commands and the shortest M,
                            R commands have a reply, and L lookups were made
  unjudged servers N commands C executed E replies R open O lookups L shortest M
                            No promise is broken, but no server has a history, or O commands
                            with a reply are in no history. These replies may be right or
                            wrong. A reply `failed` does not count here
  violation LINE OneCommand command ID
                            A different command was submitted under this ID before
  violation LINE Submitted command ID
                            The executed or replied command was never submitted
  violation LINE Once server S place P command ID
                            S had the command already. Places in a history count from 0
  violation LINE SameOrder server S place P expected ID found ID
                            Another server executed a different command at this place
  violation LINE RealTime server S place P command ID behind ID
                            The second command had its reply before the first was submitted,
                            but does not come before it
  violation LINE OneReply command ID expected =TEXT found none
                            The command had a different reply before
  violation LINE RightReply command ID place P expected none found =TEXT
                            A map that executes only the commands before this place has the
                            expected text at the key, and the reply is not right for it
  violation LINE RightLookup reader R key KEY from N to M found =TEXT
                            The reader had seen N commands. KEY has this text after none of
                            the prefixes with N to M commands
  violation LINE Settled server S command ID
                            S does not have this command, which had a reply before
  violation LINE Restore server S from T place N
                            S has a history already, or T has fewer than N commands

LINE counts all lines of the log from 1. The lines after it do not change the verdict. After a
violation come the lines of the log that prove it, each as `line K: OBSERVATION`, and then a
sentence that says what was expected and why.

With --clients, only the submissions and replies count. The program reads the whole log, of at
most 16777216 bytes, and searches for an order of the commands that explains it. Each command
that had a reply other than `failed` is in the order. A command comes after all commands that
had such a reply before it was submitted. Each reply is right at its command's place. The
verdict is one of these, or a violation of OneCommand, Submitted or OneReply, which come first:

  linearizable commands C replies R lost L keys K
                            There is such an order. C commands of K keys were submitted, R of
                            them have a reply, and L have none
  unjudged commands C replies 0 lost L keys K
                            No command has a reply
  violation LINE Linearizable key KEY
                            There is no such order up to this reply, and there is one before it.
                            The lines about KEY follow, since the last moment at which none of
                            its commands waited for a reply. Then a sentence names replies that
                            would fit the earlier lines about KEY
  undecided LINE key KEY waiting W
                            The search was given up, because W commands of KEY wait for a reply
  undecided LINE key KEY configurations N
                            The search was given up because of --most

Usage: mencius judge [OPTIONS] < LOG

Options:
      --brief    Prints only the line of the verdict
      --json     Prints the verdict, its lines and its sentence as one JSON object
      --clients  Judges only the submissions and replies, as described above
      --most N   With --clients, gives up if a reply makes N possible states of its key or
                 more. N is 0 to 4294967295, and 100000 without this option
      --order    With --clients, prints the order that was found, as lines `execute 0 ID`
  -h, --help     Print help

Exit status:
  0  ok: every promise is kept. Or linearizable
  1  a promise is broken, or the log is unjudged or undecided
  2  a bad command line
  3  a bad line: 22 BadShape, 23 BadLimit
  4  reading or writing failed: 24 ReadFailed, 25 WriteFailed
  5  memory ran out: 26 NoMemory
With status 3 to 5, standard error has the line `mencius: fault NUMBER NAME`. If a line of the
log is bad, a second line gives its number and says which word is wrong, unless memory for that
line ran out. The program then printed nothing, unless writing failed. A line has at most 1024
bytes. The last line must end with a line feed, too. A carriage return before a line feed is
left out.

Examples, at the top of the repository. The second breaks a promise, and the third has an order:
  printf 'submit 1.0 set a x\\nexecute 0 1.0\\nreply 1.0 none\\n' | ./mencius judge
  printf 'submit 1.0 set a x\\nexecute 0 1.0\\nreply 1.0 =y\\n' | ./mencius judge
  printf 'submit 1.0 set a x\\nreply 1.0 none\\n' | ./mencius judge --clients --order

docs/FORMATS.md describes the log in full, and docs/TESTING_A_STORE.md explains how to make one.
";

const RUN_HELP: &str = "\
Lets workers choose the events of a new cluster and prints a report

The workers share the cluster, and each has its own thread. In each turn, a worker draws three
random words. They pick one event: submit the worker's next command, deliver or lose a message,
suspect, retry or execute. The cluster accepts or refuses the event.

The scenario on standard input is one JSON object with exactly these fields. beta is optional:

  version   1 or 2
  servers   1 to 7
  beta      0 to 4095, how far ahead a suspicion looks. The default is 0
  workers   1 to 8
  seed      0 to 18446744073709551615, the start of the random words
  turns     0 to 100000, for each worker
  loss      0 to 32, the number of choices among 64 that lose a message
  commands  a list for each server, with the commands that are submitted there. A command is a
            text, as in a scenario of `replay`: `ID set KEY TEXT`, `ID get KEY` or
            `ID del KEY`, or in version 2 `ID cas KEY OLD NEW`

The output has these lines, in this order:

  {\"events\":[..],\"servers\":N,\"version\":V}
                            With --journal: the accepted events, as a scenario of `replay`.
                            It replays to the same report
  servers .., server .., reply ..
                            The report, as `replay` prints it
  submit .., execute .., reply ..
                            With --observations, in place of the report: the observations
                            of the servers, as a log that `judge` reads
  lookup KEY =TEXT          With --lookup KEY: the longest history leaves this text at KEY,
  lookup KEY none           .. or no text

With one worker, the same scenario always prints the same bytes. With more workers, the machine
decides which worker takes the next turn. The journal records the result.

Usage: mencius run [OPTIONS] < SCENARIO

Options:
      --journal       First prints the accepted events, as a scenario of `replay`
      --observations  Prints the observations of the servers in place of the report
      --lookup <KEY>  Last prints the text that the longest history leaves at KEY
  -h, --help          Print help

Exit status:
  0  done
  2  a bad command line, or a KEY that is not a key
  3  a bad scenario: 21 NotJson, 22 BadShape, 23 BadLimit
  4  reading or writing failed: 24 ReadFailed, 25 WriteFailed
  5  memory ran out: 26 NoMemory, or a thread or the board failed: 27 BoardFailed
With status 3 to 5, standard error has the line `mencius: fault NUMBER NAME`. If the scenario
is bad or cannot be read, a second line says where it is wrong, unless memory for that line
ran out. The program then printed nothing, unless writing failed.

Examples, at the top of the repository. The second replays a run, and the third judges one:
  ./mencius run --lookup a < examples/calm_run.json
  ./mencius run --journal < examples/calm_run.json | sed -n 1p | ./mencius replay
  ./mencius run --observations < examples/lossy_run.json | ./mencius judge

docs/FORMATS.md describes the format in full, and examples/ has runs to try.
";

/// Returns the text to show on standard output if `clap` fails with an error of this `kind` for the arguments. The text
/// is the help that the arguments request, or the version. For a mistake, the result is `None`.
///
/// `-h` and `--help` show the same text. After the name of a task, and after `help` and a name, this is the help of
/// that task.
pub fn text_to_show(kind: ErrorKind, arguments: &[Vec<u8>]) -> Option<&'static str>
    ensures { option_copied result ≡ shown_for kind (bytes_of arguments.now) }
{
    match kind {
        ErrorKind::DisplayHelp => Some(help_for(arguments)),
        ErrorKind::DisplayVersion => Some(VERSION_TEXT),
        _ => None,
    }
}

// Returns the help that the arguments request.
fn help_for(arguments: &[Vec<u8>]) -> &'static str
    ensures { result.now ≡ help_for (bytes_of arguments.now) }
{
    match arguments.split_first() {
        Some((word, rest)) if word.as_slice() == b"help".as_slice() => first_help(rest),
        _ => first_help(arguments),
    }
}

// Returns the help of the task that the first word names. Without words, returns the help of the program.
fn first_help(words: &[Vec<u8>]) -> &'static str
    ensures { result.now ≡ first_help (bytes_of words.now) }
{
    match words.first() {
        Some(name) => help_named(name.as_slice()),
        None => PROGRAM_HELP,
    }
}

// Returns the help of the task with this name. For any other name, returns the help of the program.
fn help_named(name: &[u8]) -> &'static str
    ensures { result.now ≡ help_named name.now }
{
    if name == b"replay".as_slice() {
        return REPLAY_HELP;
    }
    if name == b"trace".as_slice() {
        return TRACE_HELP;
    }
    if name == b"draw".as_slice() {
        return DRAW_HELP;
    }
    if name == b"check".as_slice() {
        return CHECK_HELP;
    }
    if name == b"judge".as_slice() {
        return JUDGE_HELP;
    }
    if name == b"run".as_slice() {
        return RUN_HELP;
    }
    PROGRAM_HELP
}
