//! The commands of the program, with their arguments, options and help.

use self::Verb::{Check, Follow, Mirror, Request, Show, Table};
use crate::pieces::Piece::Text;
use crate::pieces::Pieces;
use clap::builder::ValueParser;
use clap::error::ErrorKind;
use clap::{Arg, ArgAction, Command, Error};
use std::alloc::{AllocError, Global};
use std::slice;

/// The version of the program and its libraries.
const VERSION: &str = "0.3.0";

/// The most entries that a table may have.
pub(crate) const MOST_ENTRIES: u32 = 65536;

/// The values that options list, and those that they have by default.
#[derive(Clone, Copy)]
pub(crate) struct Values<'a> {
    pub kinds: &'a [&'a str],
    pub orders: &'a [&'a str],
    pub depth: &'a str,
    pub entries: &'a str,
}

const EXAMPLES_STATUSES_AND_FILES: &str = "Examples:
  rtnl show links.hex
  rtnl follow links.hex
  rtnl check --explain links.hex
  rtnl table --kind link --seq 1 --port 19050 links.hex
  rtnl mirror --changes mirror.hex
  rtnl request --kind link --seq 1

Exit status:
  0  no datagram was refused; for `table`, the dump is complete; for `mirror`, each table
     that is printed is current at the end
  1  a datagram was refused, the dump is not complete, a table is not current, or a line is
     bad; for `follow` also, a line says that messages were dropped; for `mirror` also, a
     dump was refused
  2  usage error
  3  a read or a write failed
  4  out of memory

Files:
  PREFIX/share/rtnl/rtnl.html  a page that shows recordings in a browser, where it was built";

const SHOW_EXAMPLE: &str = "Example:
  echo 1400000003000200010000003930000000000000 | rtnl show
prints
  datagram 1 bytes 20
  message 3 done flags 0x0002 MULTI seq 1 port 12345
    done status 0 tail -";

const FOLLOW_EXAMPLE: &str = "Example:
  rtnl-record monitor link address route | rtnl follow
prints each datagram when it comes, as `rtnl show` prints it";

const CHECK_EXAMPLE: &str = "Example:
  echo 1100000012000103010000000000000000 | rtnl check
prints
  datagram 1 accepted";

const TABLE_EXAMPLE: &str = "Example:
  echo 20000000 1000 0200 01000000 39300000 00000100 02000000 01000000 00000000 \\
    14000000 0300 0200 01000000 39300000 00000000 |
    rtnl table --kind link --seq 1 --port 12345
prints
  dump link seq 1 port 12345
  entry 1
    link family 0 type 1 index 2 flags 0x00000001 UP change 0x00000000
  end done 0
  entries 1 missed 0 ignored 0 unfed 0 damaged no interrupted no
  received 52 visits 0
  complete yes";

const MIRROR_EXAMPLE: &str = "Example:
  printf '%s\\n' '# seq 1 port 12345 kind link' \\
    '14000000 0300 0200 01000000 39300000 00000000' \\
    '20000000 1000 0000 00000000 00000000 00000100 02000000 01000000 00000000' |
    rtnl mirror --kind link --changes
prints
  = link 0
  + link 1
    link family 0 type 1 index 2 flags 0x00000001 UP change 0x00000000";

const REQUEST_EXAMPLE: &str = "Example:
  rtnl request --kind route --family 2 --seq 7
prints
  1c0000001a0001030700000000000000020000000000000000000000";

/// A command.
#[derive(Clone, Copy)]
enum Verb {
    Show,
    Follow,
    Check,
    Table,
    Mirror,
    Request,
}

impl Verb {
    const ALL: [Verb; 6] = [Show, Follow, Check, Table, Mirror, Request];

    fn name(self) -> &'static str {
        match self {
            Show => "show",
            Follow => "follow",
            Check => "check",
            Table => "table",
            Mirror => "mirror",
            Request => "request",
        }
    }

    /// The command of this name, if there is one.
    fn named(name: &str) -> Option<Verb> {
        Verb::ALL.into_iter().find(|verb| verb.name() == name)
    }

    /// What it does.
    fn about(self) -> &'static str {
        match self {
            Show => "Prints each datagram of a recording: its messages and their attributes",
            Follow => {
                "Prints each datagram of a recording of any length when its line has come, as `show` \
                prints it; a bad line is named on standard error, and following goes on"
            }
            Check => {
                "Prints whether each datagram of a recording is canonical (the very bytes that its \
                messages are written as), accepted though not canonical, or refused, and why"
            }
            Table => {
                "Reads a recording as the answers to a dump, and prints the table of its entries and \
                how the dump ended"
            }
            Mirror => {
                "Keeps the tables of links, addresses, routes, neighbours and rules current by the \
                dumps and notifications of a recording of any length, and prints them at its end, \
                or each change when it comes"
            }
            Request => "Prints the request that begins a dump as one line of hexadecimal",
        }
    }

    fn example(self) -> &'static str {
        match self {
            Show => SHOW_EXAMPLE,
            Follow => FOLLOW_EXAMPLE,
            Check => CHECK_EXAMPLE,
            Table => TABLE_EXAMPLE,
            Mirror => MIRROR_EXAMPLE,
            Request => REQUEST_EXAMPLE,
        }
    }

    /// What it is given, in the order of its help.
    fn rows(self) -> &'static [Row] {
        use Row::*;
        match self {
            Show => &[Order, Format, Bytes, Color, Explain, File],
            Follow => &[
                Order, Format, Bytes, Color, Kind, Seq, Port, Depth, Strict, Explain, File,
            ],
            Check => &[Order, Format, Explain, File],
            Table => &[
                Kind, Seq, Port, Family, Depth, Entries, Order, Format, Explain, File,
            ],
            Mirror => &[
                Kind, Family, Changes, Depth, Entries, Waiting, Order, Format, Strict, Explain,
                File,
            ],
            Request => &[Kind, Seq, Family, Order],
        }
    }
}

/// An argument of a command.
#[derive(Clone, Copy)]
enum Row {
    File,
    Order,
    Format,
    Explain,
    Bytes,
    Color,
    Kind,
    Seq,
    Port,
    Family,
    Depth,
    Entries,
    Waiting,
    Strict,
    Changes,
}

impl Row {
    /// What it is read back by; of an option also what stands behind `--`.
    fn name(self) -> &'static str {
        match self {
            Row::File => "FILE",
            Row::Order => "order",
            Row::Format => "format",
            Row::Explain => "explain",
            Row::Bytes => "bytes",
            Row::Color => "color",
            Row::Kind => "kind",
            Row::Seq => "seq",
            Row::Port => "port",
            Row::Family => "family",
            Row::Depth => "depth",
            Row::Entries => "entries",
            Row::Waiting => "waiting",
            Row::Strict => "strict",
            Row::Changes => "changes",
        }
    }

    /// What help calls the value, where it is an option that has one.
    fn value_name(self) -> Option<&'static str> {
        match self {
            Row::Order => Some("ORDER"),
            Row::Format => Some("FORMAT"),
            Row::Color => Some("WHEN"),
            Row::Kind => Some("KIND"),
            Row::File | Row::Explain | Row::Bytes | Row::Strict | Row::Changes => None,
            _ => Some("N"),
        }
    }

    /// What the value is: one of these names, or a number from one to another.
    fn parser(self, values: Values<'_>) -> ValueParser<'_> {
        match self {
            Row::Order => ValueParser::Names(values.orders),
            Row::Format => ValueParser::Names(&["text", "json"]),
            Row::Color => ValueParser::Names(&["auto", "always", "never"]),
            Row::Kind => ValueParser::Names(values.kinds),
            Row::Family => ValueParser::Signed(0, u8::MAX as i64),
            Row::Depth => ValueParser::Signed(0, 32),
            Row::Entries => ValueParser::Signed(0, MOST_ENTRIES as i64),
            _ => ValueParser::Signed(0, u32::MAX as i64),
        }
    }

    /// The value where none is given.
    fn default(self, values: Values<'_>) -> Option<&str> {
        match self {
            Row::Order => Some("little"),
            Row::Format => Some("text"),
            Row::Color => Some("auto"),
            Row::Family => Some("0"),
            Row::Depth => Some(values.depth),
            Row::Entries | Row::Waiting => Some(values.entries),
            _ => None,
        }
    }

    /// Its help, but where a command has another.
    fn help(self) -> &'static str {
        match self {
            Row::File => {
                "Recording: lines of hexadecimal, one datagram each; `-` or none is standard input"
            }
            Row::Order => "Byte order of the numbers",
            Row::Format => "Lines of text, or of JSON: one object for each datagram or entry",
            Row::Explain => "Say on standard error why something failed or was refused, and where",
            Row::Bytes => "Show the bytes of each datagram beside what they are",
            Row::Color => "Colour the text; `auto` is on a terminal, where NO_COLOR is not set",
            Row::Kind => "What the dump asks for",
            Row::Seq => "Sequence number (nlmsg_seq) of the request and its answers",
            Row::Port => "Port id (nlmsg_pid) of the answers",
            Row::Family => "Address family of the request, 0 to 255; 0 is all (AF_UNSPEC)",
            Row::Depth => "Greatest depth of nested attributes, 0 to 32",
            Row::Entries => "Greatest number of entries in the table, 0 to 65536",
            Row::Waiting => {
                "Greatest number of changes of a kind that wait while a dump of it runs"
            }
            Row::Strict => "End at the first bad line, as `rtnl show` does",
            Row::Changes => "Print what changes when it comes, in place of the tables at the end",
        }
    }

    /// Its help in this command, where the command has another.
    fn help_in(self, verb: Verb) -> Option<&'static str> {
        Some(match (verb, self) {
            // A recording may name its dump.
            (Table, Row::Kind) => {
                "What the dump asks for [default: that of the recording's first line \
                `# seq N port N kind KIND`]"
            }
            (Table, Row::Seq) => {
                "Sequence number (nlmsg_seq) of the request and its answers [default: that of the \
                same line, with a kind or without]"
            }
            (Table, Row::Port) => {
                "Port id (nlmsg_pid) of the answers [default: that of the same line]"
            }
            (Follow, Row::Kind) => {
                "Read the datagrams as the answers to a dump, as `rtnl table` does: print its \
                entries as they come, and how it ended"
            }
            (Mirror, Row::Kind) => "Print what is of this kind alone [default: all]",
            (Mirror, Row::Family) => {
                "Address family that the dumps asked for, 0 to 255; 0 is all (AF_UNSPEC)"
            }
            (Mirror, Row::Entries) => "Greatest number of entries in each table, 0 to 65536",
            _ => return None,
        })
    }

    /// The argument as it is, whatever else is given.
    fn alone<'a>(self, alloc: Global, values: Values<'a>) -> Arg<'a> {
        let name: &'a str = self.name();
        let argument = Arg::new(alloc, name);
        match self.value_name() {
            Some(value) => argument
                .long(name)
                .value_name(value)
                .value_parser(self.parser(values)),
            None if matches!(self, Row::File) => argument,
            None => argument.long(name).action(ArgAction::SetTrue),
        }
    }

    /// The argument in a command, with the help that it has there.
    fn argument<'a>(
        self,
        alloc: Global,
        values: Values<'a>,
        verb: Verb,
    ) -> Result<Arg<'a>, AllocError> {
        let help = self.help_in(verb).unwrap_or(self.help());
        let argument = self.alone(alloc, values).help(help);
        let argument = match self.default(values) {
            Some(default) => argument.default_value(default),
            None => argument,
        };
        match (verb, self) {
            (Request, Row::Kind | Row::Seq) => Ok(argument.required(true)),
            (Follow, Row::Kind) => argument.requires_all(&["seq", "port"]),
            (Follow, Row::Seq | Row::Port) => argument.requires_arg("kind"),
            (Follow, Row::Bytes) => argument.conflicts_with("kind"),
            _ => Ok(argument),
        }
    }
}

/// A command with one argument more.
fn with_row<'a>(
    command: Command<'a>,
    alloc: Global,
    values: Values<'a>,
    verb: Verb,
    row: Row,
) -> Result<Command<'a>, AllocError> {
    command.arg(row.argument(alloc, values, verb)?)
}

/// A command with all that it is given.
fn command<'a>(alloc: Global, values: Values<'a>, verb: Verb) -> Result<Command<'a>, AllocError> {
    let name: &'a str = verb.name();
    let mut command = Command::new(alloc, name)
        .about(verb.about())
        .after_help(verb.example());
    for row in verb.rows() {
        command = with_row(command, alloc, values, verb, *row)?;
    }
    Ok(command)
}

/// The program with one command more.
fn with_verb<'a>(
    program: Command<'a>,
    alloc: Global,
    values: Values<'a>,
    verb: Verb,
) -> Result<Command<'a>, AllocError> {
    program.subcommand(command(alloc, values, verb)?)
}

/// The program. Where its first argument names a command, it has this one alone: all further
/// arguments are the command's own, and making the others is a good part of a short run. Nor is the
/// command `help` named then, which clap adds.
pub(crate) fn rtnl<'a>(
    alloc: Global,
    values: Values<'a>,
    first: Option<&str>,
) -> Result<Command<'a>, AllocError> {
    let named = Verb::named(first.unwrap_or(""));
    let mut program = Command::new(alloc, "rtnl")
        .bin_name("rtnl")?
        .version(VERSION)
        .about("Decodes recorded rtnetlink datagrams. Without a command it is `rtnl show`.")
        .after_help(EXAMPLES_STATUSES_AND_FILES)
        .disable_help_subcommand(named.is_some());
    let verbs = match &named {
        Some(verb) => slice::from_ref(verb),
        None => Verb::ALL.as_slice(),
    };
    for verb in verbs {
        program = with_verb(program, alloc, values, *verb)?;
    }
    Ok(program)
}

/// A command as a usage error shows it.
fn shown_command<'a>(
    alloc: Global,
    values: Values<'a>,
    verb: Verb,
) -> Result<Command<'a>, AllocError> {
    let path = Pieces(&[Text("rtnl "), Text(verb.name())]).to_string(alloc)?;
    command(alloc, values, verb)?.bin_name(path.as_str())
}

/// The command of this name as a usage error shows it, or the program where there is none.
fn shown<'a>(alloc: Global, values: Values<'a>, name: &str) -> Result<Command<'a>, AllocError> {
    match Verb::named(name) {
        Some(verb) => shown_command(alloc, values, verb),
        None => rtnl(alloc, values, None),
    }
}

/// A usage error that the program found itself, with the usage of the command of this name.
pub(crate) fn usage_error(
    alloc: Global,
    values: Values<'_>,
    name: &str,
    message: &str,
) -> Result<Error, AllocError> {
    shown(alloc, values, name)?.error(ErrorKind::InvalidValue, message)
}
