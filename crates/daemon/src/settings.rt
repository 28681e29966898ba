//! The words of the command line.

ghost use Rattle.std.specs.Prelude.{◌<◌, ◌≤◌, ◌≡◌, length};

use clap::error::ErrorKind;
use clap::{Arg, ArgAction, ArgMatches, Command, Error, value_parser};
use figures::VERSION;
use grammar::Dialect;
use std::alloc::Global;
use std::net::SocketAddr;

/// The most connections at once that may be asked for.
pub const MOST_CONNECTIONS: u16 = 10000;

/// The longest time without anything after which a connection may be closed, in seconds: some 68 years.
const MOST_IDLE: u32 = 2147483647;

const AFTER: &str =
    "It serves memcached's text protocol until a signal ends it. Without --data all items are gone then.{n}More: man eve_cached (packaging/eve_cached.1 of the source).";

/// What the address of a Unix socket begins with.
const UNIX: &str = "unix:";

/// Where clients are served.
#[derive(Drop)]
pub enum Listen {
    /// At an address of the network.
    Tcp(SocketAddr),
    /// At a Unix socket, whose file has this path.
    Unix(String),
}

/// Where a daemon saves what it answers, before it does.
#[derive(Drop)]
pub struct DataSettings {
    /// The folders, each with a copy: at least one.
    pub paths: Vec<String>,
    /// Nothing is in them yet. Else something is.
    pub is_new: bool,
    /// Each save is synced. Else what was answered stays if the process ends, and not if the machine does.
    pub syncs: bool,
}

/// What a daemon is to do.
#[derive(Drop)]
pub struct Settings {
    /// Where clients are served.
    pub listen: Vec<Listen>,
    /// Where its figures are shown.
    pub status: Option<SocketAddr>,
    /// So many executors may stop, and so many verifiers.
    pub u: u8,
    /// So many connections are served at once.
    pub connections: u16,
    /// A connection on which nothing happens for so many seconds is closed. 0: none is.
    pub idle: u32,
    /// Items with more bytes than this are not added to. 0: there is no limit.
    pub max_bytes: u64,
    /// In which grammar clients' bytes are read.
    pub dialect: Dialect,
    /// Where it saves what it answers. None: nowhere.
    pub data: Option<DataSettings>,
    ghost few: { u < 4 },
}

/// The option for the addresses of clients.
fn listen_option<'a>(alloc: Global) -> Arg<'a> {
    Arg::new(alloc, "listen")
        .long("listen")
        .value_name("ADDR:PORT|unix:PATH")
        .action(ArgAction::Append)
        .default_value("127.0.0.1:11211")
        .help("Where clients are served;{n}may be given more than once")
}

/// The option for the replicas.
fn u_option<'a>(alloc: Global) -> Arg<'a> {
    Arg::new(alloc, "u")
        .long("u")
        .value_name("U")
        .value_parser(value_parser!(u8).range(0..=3))
        .default_value("1")
        .help(
            "2U + 1 executors, which have the items, and 2U + 1 verifiers,{n}which agree; U of each may stop; 0 to 3",
        )
}

/// The option for the connections.
fn connections_option<'a>(alloc: Global) -> Arg<'a> {
    Arg::new(alloc, "connections")
        .long("connections")
        .value_name("N")
        .value_parser(value_parser!(u16).range(1..=i64::from(MOST_CONNECTIONS)))
        .default_value("1024")
        .help("The most connections at once; 1 to 10000")
}

/// The option for connections on which nothing happens.
fn idle_option<'a>(alloc: Global) -> Arg<'a> {
    Arg::new(alloc, "idle")
        .long("idle")
        .value_name("SECONDS")
        .value_parser(value_parser!(u32).range(0..=i64::from(MOST_IDLE)))
        .default_value("0")
        .help("Closes a connection on which nothing happens for so long;{n}0: never")
}

/// The option for the bytes of items.
fn max_bytes_option<'a>(alloc: Global) -> Arg<'a> {
    Arg::new(alloc, "max-bytes")
        .long("max-bytes")
        .value_name("B")
        .help("Refuses to store while the items have more bytes;{n}with K, M or G: KiB, MiB, GiB")
}

/// The option for the grammar of clients' bytes.
fn dialect_option<'a>(alloc: Global) -> Arg<'a> {
    Arg::new(alloc, "dialect")
        .long("dialect")
        .value_name("DIALECT")
        .default_value("memcached")
        .help("memcached: as memcached reads;{n}profile: fewer forms, as eve_serve reads")
}

/// The option for the folder in which all is saved.
fn data_option<'a>(alloc: Global) -> Arg<'a> {
    Arg::new(alloc, "data")
        .long("data")
        .value_name("DIR")
        .action(ArgAction::Append)
        .help(
            "Saves what it answers in this folder before it answers,{n}and goes on from it; given more than once, a copy is in each,{n}and more than half of them have to be there",
        )
}

/// The option for a folder in which nothing is saved yet.
fn new_option<'a>(alloc: Global) -> Arg<'a> {
    Arg::new(alloc, "new")
        .long("new")
        .action(ArgAction::SetTrue)
        .help(
            "Begins with empty folders; to be given at the first start{n}with --data, and not later",
        )
}

/// The option for what is done after each save.
fn sync_option<'a>(alloc: Global) -> Arg<'a> {
    Arg::new(alloc, "sync").long("sync").value_name("MODE").help(
        "turn, or if not given: each save is synced;{n}none: what is saved outlives the process, not the machine",
    )
}

/// The option for the figures.
fn status_option<'a>(alloc: Global) -> Arg<'a> {
    Arg::new(alloc, "status")
        .long("status")
        .value_name("ADDR:PORT")
        .help("Where its figures are shown over HTTP; nowhere if not given")
}

/// All options.
fn command<'a>(alloc: Global) -> Result<Command<'a>, Error> {
    let command = Command::new(alloc, "eve_cached")
        .version(VERSION)
        .about("A memcached server on replicas")
        .after_help(AFTER)
        .arg(listen_option(alloc))?
        .arg(u_option(alloc))?
        .arg(connections_option(alloc))?
        .arg(idle_option(alloc))?
        .arg(max_bytes_option(alloc))?
        .arg(dialect_option(alloc))?
        .arg(data_option(alloc))?
        .arg(new_option(alloc))?
        .arg(sync_option(alloc))?
        .arg(status_option(alloc))?;
    Ok(command)
}

/// The address that the text of this option spells.
fn address(
    alloc: Global,
    command: &mut Command<'_>,
    option: &str,
    text: &str,
) -> Result<SocketAddr, Error> {
    match text.parse::<SocketAddr>() {
        Ok(address) => Ok(address),
        Err(_) => {
            let why = format!(in alloc;
                "'{text}' of --{option}: an address is of the form 127.0.0.1:11211 or [::1]:11211; names are not looked up"
            )?;
            Err(command.error(ErrorKind::ValueValidation, why.as_str())?)
        }
    }
}

/// Where the text says that clients are served.
fn listen_of(alloc: Global, command: &mut Command<'_>, text: &str) -> Result<Listen, Error> {
    match text.strip_prefix(UNIX) {
        Some("") => Err(command.error(
            ErrorKind::ValueValidation,
            "a Unix socket is of the form unix:/run/eve_cached/socket",
        )?),
        Some(path) => Ok(Listen::Unix(String::from_str(alloc, path)?)),
        None => Ok(Listen::Tcp(address(alloc, command, "listen", text)?)),
    }
}

/// The digits of a count of bytes, and how many bytes one of them stands for.
fn parts_of_bytes(text: &str) -> (&str, u64) {
    if let Some(digits) = text.strip_suffix('K') {
        (digits, 1 << 10)
    } else if let Some(digits) = text.strip_suffix('M') {
        (digits, 1 << 20)
    } else if let Some(digits) = text.strip_suffix('G') {
        (digits, 1 << 30)
    } else {
        (text, 1)
    }
}

/// The count of bytes that the text spells, which is not 0.
fn bytes_of(text: &str) -> Option<u64> {
    let (digits, unit) = parts_of_bytes(text);
    let count = digits.parse::<u64>().ok()?.checked_mul(unit)?;
    if count == 0 { None } else { Some(count) }
}

/// The limit of bytes that the text spells.
fn max_bytes(command: &mut Command<'_>, text: &str) -> Result<u64, Error> {
    match bytes_of(text) {
        Some(count) => Ok(count),
        None => Err(command.error(
            ErrorKind::ValueValidation,
            "a count of bytes is of the form 1000000, 512K, 64M or 8G",
        )?),
    }
}

/// The grammar that the text names.
fn dialect(command: &mut Command<'_>, text: &str) -> Result<Dialect, Error> {
    match text {
        "memcached" => Ok(Dialect::Memcached),
        "profile" => Ok(Dialect::Profile),
        _ => Err(command.error(ErrorKind::InvalidValue, "a dialect is memcached or profile")?),
    }
}

/// The limit of bytes that the matches name, for a daemon of this grammar. The profile has no reply for what is refused.
fn limit_of(
    command: &mut Command<'_>,
    matches: &ArgMatches<'_>,
    dialect: Dialect,
) -> Result<u64, Error> {
    match matches.get_str("max-bytes") {
        Some(_) if dialect == Dialect::Profile => Err(command.error(
            ErrorKind::ArgumentConflict,
            "--max-bytes cannot be used with --dialect profile",
        )?),
        Some(text) => max_bytes(command, text),
        None => Ok(0),
    }
}

/// Whether the mode that the text names syncs.
fn syncs(command: &mut Command<'_>, text: &str) -> Result<bool, Error> {
    match text {
        "turn" => Ok(true),
        "none" => Ok(false),
        _ => Err(command.error(ErrorKind::InvalidValue, "--sync is turn or none")?),
    }
}

/// The most folders that may have a copy each.
const MOST_FOLDERS: usize = 9;

/// The paths of folders, of which each is given once.
fn folders(alloc: Global, command: &mut Command<'_>, texts: &[&str]) -> Result<Vec<String>, Error> {
    if MOST_FOLDERS < texts.len() {
        return Err(command.error(ErrorKind::ValueValidation, "at most 9 folders may be given")?);
    }
    let mut paths = Vec::with_capacity(alloc, texts.len())?;
    for (at, path) in texts.iter().enumerate() {
        if path.is_empty() {
            return Err(command.error(
                ErrorKind::ValueValidation,
                "a folder is of the form /var/lib/eve_cached",
            )?);
        }
        if texts[..at].contains(path) {
            return Err(command.error(ErrorKind::ArgumentConflict, "a folder is given twice")?);
        }
        paths.push(String::from_str(alloc, path)?)?;
    }
    Ok(paths)
}

/// The folders at these paths, as the matches say.
fn data_at(
    alloc: Global,
    command: &mut Command<'_>,
    matches: &ArgMatches<'_>,
    paths: &[&str],
) -> Result<DataSettings, Error> {
    let syncs = syncs(command, matches.get_str("sync").unwrap_or("turn"))?;
    Ok(DataSettings {
        paths: folders(alloc, command, paths)?,
        is_new: matches.get_flag("new"),
        syncs,
    })
}

/// Where all is saved, as the matches say.
fn data_of(
    alloc: Global,
    command: &mut Command<'_>,
    matches: &ArgMatches<'_>,
) -> Result<Option<DataSettings>, Error> {
    match matches.get_strs("data") {
        Some(paths) => Ok(Some(data_at(alloc, command, matches, paths)?)),
        None if matches.get_flag("new") => Err(command.error(
            ErrorKind::MissingRequiredArgument,
            "--new needs --data DIR",
        )?),
        None if matches.get_str("sync").is_some() => Err(command.error(
            ErrorKind::MissingRequiredArgument,
            "--sync needs --data DIR",
        )?),
        None => Ok(None),
    }
}

/// Where clients are served.
fn listens(alloc: Global, command: &mut Command<'_>, texts: &[&str]) -> Result<Vec<Listen>, Error> {
    let mut all = Vec::with_capacity(alloc, texts.len())?;
    for text in texts {
        all.push(listen_of(alloc, command, text)?)?;
    }
    Ok(all)
}

/// What the matches of the command say.
fn given(
    alloc: Global,
    command: &mut Command<'_>,
    matches: &ArgMatches<'_>,
) -> Result<Settings, Error> {
    let listen = listens(alloc, command, matches.get_strs("listen").unwrap_or(&[]))?;
    let status = match matches.get_str("status") {
        Some(text) => Some(address(alloc, command, "status", text)?),
        None => None,
    };
    let dialect = dialect(command, matches.get_str("dialect").unwrap_or("memcached"))?;
    let max_bytes = limit_of(command, matches, dialect)?;
    let data = data_of(alloc, command, matches)?;
    match (
        matches.get_one::<u8>("u"),
        matches.get_one::<u16>("connections"),
        matches.get_one::<u32>("idle"),
    ) {
        (Some(u), Some(connections), Some(idle)) if u < 4 => Ok(Settings {
            listen,
            status,
            u,
            connections,
            idle,
            max_bytes,
            dialect,
            data,
        }),
        _ => Err(command.error(ErrorKind::InvalidValue, "a value is not valid")?),
    }
}

/// What the words of a command line say, of which the first is the program's name.
///
/// The error has the text that the user is to see, and by it the program's status: `--help` and `--version` are errors
/// too, of status 0.
pub fn read_settings(alloc: Global, words: &[String]) -> Result<Settings, Error> {
    let mut command = command(alloc)?;
    let matches = command.try_get_matches_from_mut(words)?;
    given(alloc, &mut command, &matches)
}
