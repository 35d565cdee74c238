//! What the arguments of the program ask for.

ghost use Rattle.std.specs.Prelude.{◌≡◌, ◌&&◌, ◌⊎◌, is_some};
ghost use Rattle.std.specs.Prelude.{Some, IsSome, IsSomeAnd, IfSome, MatchOption};

use crate::commands::{Values, rtnl, usage_error};
use crate::pieces::Piece::{self, Escaped, Reason, Text};
use crate::pieces::{Name, Pieces, is_escaped};
use clap::error::ErrorKind;
use clap::{ArgMatches, Error};
use itoa::Buffer;
use nl_attr::Order;
use rtnl::dump::{Dump, Kind, Seed};
use rtnl::frame::Limits;
use rtnl::{Heading, MirrorSettings, heading_in, is_digits};
use std::alloc::{AllocError, Global};
use std::io;

/// What a usage error says of a name that clap lets through and that is not known here.
const UNKNOWN: &str = "a command or a value is not known";

/// What names standard input in the place of a file.
const STANDARD_INPUT: &str = "-";

/// The most bytes of datagrams of what is followed: as many as limits allow.
const MOST_FOLLOWED: u64 = 1 << 40;

/// The options whose value is a number.
const NUMBERS: [&str; 6] = ["seq", "port", "family", "depth", "entries", "waiting"];

/// A command that reads a recording to its end before it prints.
#[derive(Clone, Copy)]
pub(crate) enum WholeCommand {
    /// Print each datagram, coloured or not.
    Show(Color),
    /// Print the bytes of each datagram beside what they are, coloured or not.
    ShowBytes(Color),
    /// Print of each datagram whether it is canonical, accepted, or why it is refused.
    Check,
    /// Read the datagrams as the answers to a dump, and print its table, which hashes by the seed.
    Table(Dump, Seed),
}

/// How what is found is printed.
#[derive(Clone, Copy, PartialEq, Eq)]
pub(crate) enum Format {
    /// Lines of text.
    Text,
    /// Lines of JSON.
    Json,
}

/// When text is coloured.
#[derive(Clone, Copy, PartialEq, Eq)]
pub(crate) enum Color {
    /// On a terminal, where the variable NO_COLOR isn't set.
    Auto,
    Always,
    Never,
}

/// The dump that a table is of, as far as the options say.
#[derive(Clone, Copy)]
pub(crate) struct Sought {
    pub kind: Option<Kind>,
    pub family: u8,
    pub seq: Option<u32>,
    pub port: Option<u32>,
}

impl Sought {
    /// Whether the options say all that names the dump.
    pub(crate) fn is_whole(self) -> bool
        ensures { result ≡ (is_some self.kind && (is_some self.seq && is_some self.port)) }
    {
        self.kind.is_some() && self.seq.is_some() && self.port.is_some()
    }

    /// What a recording says of the dump, where the options don't say all.
    fn heading(self, input: &[u8]) -> Option<Heading> {
        if self.is_whole() {
            return None;
        }
        heading_in(input)
    }

    /// The dump, of which the options say what they do, and the recording the rest.
    pub(crate) fn dump(self, found: Option<Heading>) -> Option<Dump>
        ensures family { IfSome result (λ dump. dump.family ≡ self.family) }
        ensures kind { IfSome result (λ dump. MatchOption self.kind
            (IsSomeAnd found (λ its. its.kind ≡ Some dump.kind)) (λ given. dump.kind ≡ given)) }
        ensures seq { IfSome result (λ dump. MatchOption self.seq
            (IsSomeAnd found (λ its. dump.seq ≡ its.numbers.seq)) (λ given. dump.seq ≡ given)) }
        ensures port { IfSome result (λ dump. MatchOption self.port
            (IsSomeAnd found (λ its. dump.port ≡ its.numbers.port)) (λ given. dump.port ≡ given)) }
        ensures named { IsSomeAnd found (λ its. IsSome self.kind ⊎ IsSome its.kind)
            → IsSome result }
        ensures whole { IsSome self.kind → IsSome self.seq → IsSome self.port → IsSome result }
    {
        let numbers = found.map(|its| its.numbers);
        Some(Dump {
            kind: self.kind.or(found.and_then(|its| its.kind))?,
            family: self.family,
            seq: self.seq.or(numbers.map(|its| its.seq))?,
            port: self.port.or(numbers.map(|its| its.port))?,
        })
    }
}

/// A command over a whole recording, how what it finds is printed, and under which limits.
#[derive(Clone, Copy)]
pub(crate) struct WholeRun {
    pub command: WholeCommand,
    pub format: Format,
    pub limits: Limits,
}

/// What is printed of a recording that is followed.
#[derive(Clone, Copy)]
pub(crate) enum FollowOutput {
    /// Each datagram, coloured or not.
    Each(Color),
    /// The bytes of each datagram beside what they are, coloured or not.
    Bytes(Color),
    /// The entries of a dump, and how it ended.
    Dump(Dump),
    /// Tables that dumps and notifications keep current, or how they change.
    Mirror(MirrorSettings),
}

/// How a recording is followed, and under which limits.
#[derive(Clone, Copy)]
pub(crate) struct Follow {
    pub output: FollowOutput,
    pub format: Format,
    pub limits: Limits,
    /// Whether it ends at the first bad line.
    pub is_strict: bool,
}

impl Follow {
    /// Whether messages that were dropped spoil what is printed, whatever comes behind them. A
    /// mirror says itself which table they are missing of, and until when.
    pub(crate) fn is_spoilt_by_loss(&self) -> bool {
        !matches!(self.output, FollowOutput::Mirror(_))
    }
}

/// Which tables are kept current, how they are printed, and under which limits.
#[derive(Clone, Copy)]
pub(crate) struct Mirror {
    /// The kind of the table that is printed, where not all are.
    pub kind: Option<Kind>,
    /// The address family that the dumps asked for.
    pub family: u8,
    /// How many changes of a kind may wait for the end of its dump.
    pub waiting: u32,
    /// Whether changes are printed as they come, in place of the tables at the end.
    pub changes: bool,
    pub format: Format,
    pub limits: Limits,
    /// Whether it ends at the first bad line.
    pub is_strict: bool,
}

impl Mirror {
    /// How the recording is followed, with tables that hash by this seed.
    pub(crate) fn follow(&self, seed: Seed) -> Follow
        ensures format { result.format ≡ self.now.format }
        ensures limits { result.limits ≡ self.now.limits }
    {
        Follow {
            output: FollowOutput::Mirror(MirrorSettings {
                limits: self.limits,
                waiting: self.waiting,
                seed,
                family: self.family,
                kind: self.kind,
                changes: self.changes,
            }),
            format: self.format,
            limits: self.limits,
            is_strict: self.is_strict,
        }
    }
}

/// Which table is asked for, how it is printed, and under which limits.
#[derive(Clone, Copy)]
pub(crate) struct Table {
    pub sought: Sought,
    pub format: Format,
    pub limits: Limits,
}

impl Table {
    /// What is done with this recording, where the options or it say which dump it answers.
    pub(crate) fn whole_run(&self, input: &[u8], seed: Seed) -> Option<WholeRun>
        ensures asked { IfSome result (λ run. (run.format ≡ self.now.format)
            × (run.limits ≡ self.now.limits)) }
        ensures whole { IsSome self.now.sought.kind → IsSome self.now.sought.seq
            → IsSome self.now.sought.port → IsSome result }
    {
        let found = self.sought.heading(input);
        Some(WholeRun {
            command: WholeCommand::Table(self.sought.dump(found)?, seed),
            format: self.format,
            limits: self.limits,
        })
    }
}

/// What is done with a recording.
#[derive(Clone, Copy)]
pub(crate) enum RecordingJob {
    /// Read it.
    Whole(WholeRun),
    /// Print each datagram of it when it comes, or what it says of one dump.
    Follow(Follow),
    /// Keep tables current by its dumps and notifications.
    Mirror(Mirror),
    /// Read it as the answers to a dump, which it may name.
    Table(Table),
}

/// What the program is to do.
#[derive(Drop)]
pub(crate) enum Task {
    /// Read a file, or standard input where none or `-` is named.
    Recording {
        job: RecordingJob,
        explain: bool,
        file: Option<String>,
    },
    /// Print the request that begins a dump.
    Request {
        kind: Kind,
        family: u8,
        seq: u32,
        order: Order,
    },
}

/// What the arguments give.
#[derive(Drop)]
pub(crate) enum Parsed {
    Task(Task),
    /// Help, the version, or a usage error.
    Message(Error),
}

/// Asks with the values that options list, and those that they have by default. They stand on the
/// call stack, so that a start takes no memory for them.
fn with_values<R, F: FnOnce(Values<'_>) -> R>(ask: F) -> R
    requires { F.IsAlwaysCallable ask }
{
    let kinds = Kind::ALL.map(|kind| kind.row().name);
    let orders = Order::ALL.map(|order| order.name());
    let standard = Limits::standard();
    let mut depth = Buffer::new();
    let mut entries = Buffer::new();
    ask(Values {
        kinds: kinds.as_slice(),
        orders: orders.as_slice(),
        depth: depth.format(standard.depth().get()),
        entries: entries.format(standard.entries()),
    })
}

fn sought_of(matches: &ArgMatches<'_>) -> Option<Sought> {
    Some(Sought {
        kind: matches.get_one("kind"),
        family: matches.get_one("family")?,
        seq: matches.get_one("seq"),
        port: matches.get_one("port"),
    })
}

/// The standard limits, but for this total, this greatest number of entries, and what the options
/// say of depth and order.
fn limits_of(matches: &ArgMatches<'_>, total: u64, entries: u32) -> Option<Limits> {
    let depth = matches.get_one("depth")?;
    let limits = Limits::new(depth, Limits::standard().datagram(), total, entries).ok()?;
    Some(limits.with_order(matches.get_one("order")?))
}

fn format_of(matches: &ArgMatches<'_>) -> Option<Format> {
    match matches.get_str("format")? {
        "text" => Some(Format::Text),
        "json" => Some(Format::Json),
        _ => None,
    }
}

fn table_of(matches: &ArgMatches<'_>) -> Option<RecordingJob> {
    let total = Limits::standard().total();
    Some(RecordingJob::Table(Table {
        sought: sought_of(matches)?,
        format: format_of(matches)?,
        limits: limits_of(matches, total, matches.get_one("entries")?)?,
    }))
}

fn color_of(matches: &ArgMatches<'_>) -> Option<Color> {
    match matches.get_str("color")? {
        "auto" => Some(Color::Auto),
        "always" => Some(Color::Always),
        "never" => Some(Color::Never),
        _ => None,
    }
}

/// The dump that is followed, where one is named: clap takes all of these options, or none.
fn dump_of(matches: &ArgMatches<'_>) -> Option<Dump> {
    Some(Dump {
        kind: matches.get_one("kind")?,
        family: 0,
        seq: matches.get_one("seq")?,
        port: matches.get_one("port")?,
    })
}

fn follow_of(matches: &ArgMatches<'_>) -> Option<RecordingJob> {
    let output = match dump_of(matches) {
        Some(dump) => FollowOutput::Dump(dump),
        None if matches.get_flag("bytes") => FollowOutput::Bytes(color_of(matches)?),
        None => FollowOutput::Each(color_of(matches)?),
    };
    Some(RecordingJob::Follow(Follow {
        output,
        format: format_of(matches)?,
        limits: limits_of(matches, MOST_FOLLOWED, Limits::standard().entries())?,
        is_strict: matches.get_flag("strict"),
    }))
}

fn mirror_of(matches: &ArgMatches<'_>) -> Option<RecordingJob> {
    Some(RecordingJob::Mirror(Mirror {
        kind: matches.get_one("kind"),
        family: matches.get_one("family")?,
        waiting: matches.get_one("waiting")?,
        changes: matches.get_flag("changes"),
        format: format_of(matches)?,
        limits: limits_of(matches, MOST_FOLLOWED, matches.get_one("entries")?)?,
        is_strict: matches.get_flag("strict"),
    }))
}

fn request_of(matches: &ArgMatches<'_>) -> Option<Task> {
    Some(Task::Request {
        kind: matches.get_one("kind")?,
        family: matches.get_one("family")?,
        seq: matches.get_one("seq")?,
        order: matches.get_one("order")?,
    })
}

/// What a command does with a recording, or none where its name or a value of it isn't known.
fn job_of(name: &str, matches: &ArgMatches<'_>) -> Option<RecordingJob> {
    let command = match name {
        "show" if matches.get_flag("bytes") => WholeCommand::ShowBytes(color_of(matches)?),
        "show" => WholeCommand::Show(color_of(matches)?),
        "check" => WholeCommand::Check,
        "follow" => return follow_of(matches),
        "mirror" => return mirror_of(matches),
        "table" => return table_of(matches),
        _ => return None,
    };
    Some(RecordingJob::Whole(WholeRun {
        command,
        format: format_of(matches)?,
        limits: Limits::standard().with_order(matches.get_one("order")?),
    }))
}

/// The task of the whole program, or none where a name or a value isn't known.
fn task_of(alloc: Global, matches: &ArgMatches<'_>) -> Result<Option<Task>, AllocError> {
    let Some((name, inner)) = matches.subcommand() else {
        let whole = WholeRun {
            command: WholeCommand::Show(Color::Auto),
            format: Format::Text,
            limits: Limits::standard(),
        };
        return Ok(Some(Task::Recording {
            job: RecordingJob::Whole(whole),
            explain: false,
            file: None,
        }));
    };
    if name == "request" {
        return Ok(request_of(inner));
    }
    let Some(job) = job_of(name, inner) else {
        return Ok(None);
    };
    let file = match inner.get_str("FILE") {
        Some(path) if path != STANDARD_INPUT => Some(String::from_str(alloc, path)?),
        _ => None,
    };
    Ok(Some(Task::Recording {
        job,
        explain: inner.get_flag("explain"),
        file,
    }))
}

/// An option whose number has a sign, which clap lets through, and the value.
fn signed_number<'a>(matches: &ArgMatches<'a>) -> Option<(&'static str, &'a str)> {
    NUMBERS.iter().find_map(|option| match matches.get_str(option) {
        Some(value) if !is_digits(value) => Some((*option, value)),
        _ => None,
    })
}

/// The task of what clap found in the arguments, or a usage error.
fn task_in(alloc: Global, values: Values<'_>, matches: &ArgMatches<'_>) -> Result<Task, Error> {
    if let Some((name, inner)) = matches.subcommand()
        && let Some((option, value)) = signed_number(inner)
    {
        let message = Pieces(&[
            Text("invalid value '"),
            Text(value),
            Text("' for '--"),
            Text(option),
            Text(" <N>': a number is digits alone"),
        ])
        .to_string(alloc)?;
        return Err(usage_error(alloc, values, name, message.as_str())?);
    }
    match task_of(alloc, matches)? {
        Some(task) => Ok(task),
        None => Err(usage_error(alloc, values, "", UNKNOWN)?),
    }
}

/// The task of these arguments, or help, the version or a usage error.
fn parse_with(alloc: Global, arguments: &[String], values: Values<'_>) -> Result<Task, Error> {
    let first = arguments.get(1).map(String::as_str);
    let matches = rtnl(alloc, values, first)?.try_get_matches_from(arguments)?;
    task_in(alloc, values, &matches)
}

/// The arguments as they are shown, where one of them has a character that is escaped.
fn escaped(alloc: Global, arguments: &[String]) -> Result<Option<Vec<String>>, AllocError> {
    let is_plain = |argument: &String| !argument.as_str().contains(is_escaped);
    if arguments.iter().all(is_plain) {
        return Ok(None);
    }
    let shown = arguments
        .iter()
        .map(|argument| Pieces(&[Escaped(argument.as_str())]).to_string(alloc))
        .try_collect(alloc)?;
    Ok(Some(shown))
}

/// What the arguments give, where clap's text shows them as they are.
fn given_by(alloc: Global, arguments: &[String]) -> Result<Parsed, AllocError> {
    match with_values(|values| parse_with(alloc, arguments, values)) {
        Ok(task) => Ok(Parsed::Task(task)),
        Err(error) => match error.kind() {
            ErrorKind::OutOfMemory => Err(AllocError),
            _ => Ok(Parsed::Message(error)),
        },
    }
}

/// What the arguments, the program's name first, ask for. It fails only for memory.
pub(crate) fn parse(alloc: Global, arguments: &[String]) -> Result<Parsed, AllocError> {
    let message = match given_by(alloc, arguments)? {
        Parsed::Message(message) => message,
        task => return Ok(task),
    };
    // A text of clap has the arguments in it, so it is made of what is shown of them.
    if let Some(shown) = escaped(alloc, arguments)?
        && let Parsed::Message(message) = given_by(alloc, shown.as_slice())?
    {
        return Ok(Parsed::Message(message));
    }
    Ok(Parsed::Message(message))
}

/// A usage error of `table`: neither its options nor its recording, of which this was found, name
/// the dump. Where the recording could not be opened, `error` says why.
pub(crate) fn unnamed(
    alloc: Global,
    sought: Sought,
    found: Option<Heading>,
    name: Name<'_>,
    error: Option<&io::Error>,
) -> Result<Error, AllocError> {
    let has_numbers = found.is_some();
    let missing = match (
        sought.kind.is_some(),
        has_numbers || sought.seq.is_some(),
        has_numbers || sought.port.is_some(),
    ) {
        (true, true, _) => "--port is",
        (true, false, true) => "--seq is",
        (true, false, false) => "--seq and --port are",
        (false, true, true) => "--kind is",
        (false, true, false) => "--kind and --port are",
        (false, false, true) => "--kind and --seq are",
        (false, false, false) => "--kind, --seq and --port are",
    };
    let kind = if sought.kind.is_some() {
        ""
    } else {
        " kind KIND"
    };
    let why = match error {
        None => Text(" has none"),
        Some(error) => Reason(" cannot be opened: ", *error),
    };
    let message = Pieces(&[
        Text(missing),
        Text(" needed, or a line `# seq N port N"),
        Text(kind),
        Text("` in the recording; "),
        Piece::Name(name),
        why,
    ])
    .to_string(alloc)?;
    with_values(|values| usage_error(alloc, values, "table", message.as_str()))
}

/// What stands where a command should and names none, with the `--` before it; it may be meant as a
/// file.
pub(crate) fn unknown_command<'a>(
    error: &Error,
    arguments: &'a [String],
) -> Option<(&'static str, &'a str)> {
    if error.kind() != ErrorKind::InvalidSubcommand {
        return None;
    }
    match arguments.get(1)?.as_str() {
        "help" => None,
        "--" => Some(("-- ", arguments.get(2)?.as_str())),
        name => Some(("", name)),
    }
}
