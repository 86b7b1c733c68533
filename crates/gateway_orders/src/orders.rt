//! Orders.
#![tactic(auto, using(crate::proofs::Rows::by_rows))]

ghost use Rattle.std.specs.Prelude.{codes, map, string_bytes, true, IfOk, IfSome};
ghost use Rattle.clap.specs.Words.{found_of, rows_of};
ghost use Rattle.gateway_orders.specs.Given.{HasArgument, HasFlag, HasNumberIfAny, HasNumbers};
ghost use Rattle.gateway_orders.specs.Orders.{IsOrder, IsOrderOf};

use crate::commands::{gateway, up};
use clap::error::ErrorKind;
use clap::{ArgMatches, Error};
use std::alloc::{AllocError, Global};
use std::net::SocketAddr;

/// What a command line asks for.
#[derive(Debug, Drop)]
pub enum Order<'a> {
    /// Makes a spool at this path with this many text blocks and the index files of this folder. A file that is there,
    /// is no spool and has a byte other than zero is refused, unless `overwrite` is given. With `standard`, index files
    /// that aren't the standard's are refused. The first upload has the number `first`, or 1.
    Format {
        spool: &'a str,
        blocks: u32,
        indexes: &'a str,
        overwrite: bool,
        standard: bool,
        first: Option<u64>,
    },
    /// Runs standard input as a script over the spool at this path, or over a fresh one in memory for `-`.
    Script {
        spool: &'a str,
    },
    /// Serves a spool over sockets, with an end.
    Serve(Service<'a>),
    /// Serves a spool at this address until the program is ended. `quiet` omits the line at the start; `log` writes a
    /// log to standard error.
    Up {
        spool: &'a str,
        listen: SocketAddr,
        quiet: bool,
        log: bool,
    },
    /// Lists the uploads of the spool at this path, with their metadata or without.
    List {
        spool: &'a str,
        long: bool,
    },
    /// Lists the uploads of the spool at this path, by a line of JSON for each.
    Json {
        spool: &'a str,
    },
    /// Deletes the uploads with these numbers.
    Delete {
        spool: &'a str,
        numbers: Vec<u64>,
    },
    /// Lists the uploads whose last byte hasn't come, or deletes them with `yes`: all but those with some numbers.
    DeleteIncomplete {
        spool: &'a str,
        but: Vec<u64>,
        yes: bool,
    },
    /// Writes the texts of the complete uploads, or of all, into files in this folder.
    Export {
        spool: &'a str,
        folder: &'a str,
        all: bool,
    },
    /// Prints which labels standard input may have, by the index files of this folder: of its first MiB or of all, as
    /// lines for a reader or of JSON.
    Labels {
        indexes: &'a str,
        all: bool,
        json: bool,
    },
    /// Writes standard input as an upload with these labels and this mode would be stored, with the index files of this
    /// folder. If it is strict, it is refused where the text has U+FFFD.
    Text {
        from: &'a str,
        to: &'a str,
        mode: &'a str,
        indexes: &'a str,
        strict: bool,
    },
    /// Upgrades the spool at this path to version 2.
    Upgrade {
        spool: &'a str,
    },
    /// Gives the spool at this path this next number, unless its own is later.
    Raise {
        spool: &'a str,
        number: u64,
    },
}

/// What to serve: the spool in a file, at a port of 127.0.0.1.
#[derive(Clone, Copy, Debug, Drop)]
pub struct Service<'a> {
    /// The path of the file.
    pub spool: &'a str,
    /// The port; 0 means any.
    pub port: u16,
    /// Serving ends once this many connections were closed.
    pub connections: u64,
    /// Serving ends after this many turns.
    pub turns: u64,
}

/// Reads a command line, which begins with the program's name. Unknown, superfluous and missing words are usage faults,
/// and so are requests for help and for the version. An order is the one of the command that the words name, and what
/// is given for each of its arguments is in the field of that name. It is only tested which fault comes for which
/// words, and that `None` doesn't occur: clap requires a command, and each argument that its order needs is required or
/// has a default.
pub fn read_order<'a>(alloc: Global, words: &'a [String]) -> Result<Option<Order<'a>>, Error>
    ensures { IfOk result (λ read. IfSome read (IsOrderOf (map string_bytes words.entry.now))) }
{
    let matches = gateway(alloc)?.try_get_matches_from(words)?;
    match matches.subcommand() {
        Some((name, given)) => order_of(alloc, name, given),
        None => Ok(None),
    }
}

// The order of the command of this name, with what is given for its arguments.
fn order_of<'a>(
    alloc: Global,
    name: &str,
    given: &ArgMatches<'a>,
) -> Result<Option<Order<'a>>, Error>
    ensures { IfOk result (λ read. IfSome read (IsOrder name.now (rows_of (found_of given.now)))) }
{
    match name {
        "format" => Ok(format_order(given)),
        "script" => Ok(script_order(given)),
        "serve" => Ok(serve_order(given)),
        "up" => up_order(alloc, given),
        "list" => Ok(list_order(given)),
        "delete" => Ok(delete_order(alloc, given)?),
        "export" => Ok(export_order(given)),
        "labels" => Ok(labels_order(given)),
        "text" => Ok(text_order(given)),
        "upgrade" => Ok(upgrade_order(given)),
        "raise" => Ok(raise_order(given)),
        _ => Ok(None),
    }
}

fn format_order<'a>(given: &ArgMatches<'a>) -> Option<Order<'a>>
    ensures { IfSome result (IsOrder (codes "format") (rows_of (found_of given.now))) }
{
    Some(Order::Format {
        spool: given.get_str("SPOOL")?,
        blocks: given.get_one::<u32>("blocks")?,
        indexes: given.get_str("indexes")?,
        overwrite: given.get_flag("overwrite"),
        standard: given.get_flag("standard-indexes"),
        first: number_if_any(given, "first")?,
    })
}

// The number of an argument that isn't required. `None` where its text is none, which was refused before.
fn number_if_any(given: &ArgMatches<'_>, name: &str) -> Option<Option<u64>>
    ensures { IfSome result (HasNumberIfAny 64 (rows_of (found_of given.now)) name.now) }
{
    given.try_get_one::<u64>(name).ok()
}

fn script_order<'a>(given: &ArgMatches<'a>) -> Option<Order<'a>>
    ensures { IfSome result (IsOrder (codes "script") (rows_of (found_of given.now))) }
{
    Some(Order::Script {
        spool: given.get_str("SPOOL")?,
    })
}

fn serve_order<'a>(given: &ArgMatches<'a>) -> Option<Order<'a>>
    ensures { IfSome result (IsOrder (codes "serve") (rows_of (found_of given.now))) }
{
    Some(Order::Serve(Service {
        spool: given.get_str("SPOOL")?,
        port: given.get_one::<u16>("port")?,
        connections: given.get_one::<u64>("connections")?,
        turns: given.get_one::<u64>("turns")?,
    }))
}

// An address that can't be parsed is a usage fault.
fn up_order<'a>(alloc: Global, given: &ArgMatches<'a>) -> Result<Option<Order<'a>>, Error>
    ensures { IfOk result (λ read. IfSome read (IsOrder (codes "up") (rows_of (found_of given.now)))) }
{
    let (Some(spool), Some(address)) = (given.get_str("SPOOL"), given.get_str("listen")) else {
        return Ok(None);
    };
    match address.parse::<SocketAddr>() {
        Ok(listen) => Ok(Some(Order::Up {
            spool,
            listen,
            quiet: given.get_flag("quiet"),
            log: given.get_flag("log"),
        })),
        Err(_) => Err(no_address(alloc, address)?),
    }
}

// The error for an address that can't be parsed.
fn no_address(alloc: Global, address: &str) -> Result<Error, Error> {
    let message = format!(in alloc;
        "invalid value '{address}' for '--listen <ADDRESS:PORT>': write it as 127.0.0.1:8080 or [::1]:8080"
    )?;
    Ok(up(alloc)?.error(ErrorKind::ValueValidation, message.as_str())?)
}

fn list_order<'a>(given: &ArgMatches<'a>) -> Option<Order<'a>>
    ensures { IfSome result (IsOrder (codes "list") (rows_of (found_of given.now))) }
{
    let spool = given.get_str("SPOOL")?;
    if given.get_flag("json") {
        return Some(Order::Json { spool });
    }
    Some(Order::List {
        spool,
        long: given.get_flag("long"),
    })
}

fn delete_order<'a>(alloc: Global, given: &ArgMatches<'a>) -> Result<Option<Order<'a>>, AllocError>
    ensures { IfOk result (λ read. IfSome read (IsOrder (codes "delete") (rows_of (found_of given.now)))) }
{
    let Some(spool) = given.get_str("SPOOL") else {
        return Ok(None);
    };
    if given.get_flag("incomplete") {
        return incomplete_order(alloc, given, spool);
    }
    match numbers_of(alloc, given, "NUMBER")? {
        Some(numbers) => Ok(Some(Order::Delete { spool, numbers })),
        None => Ok(None),
    }
}

// The order to delete the uploads that aren't complete, of the spool at this path.
fn incomplete_order<'a>(
    alloc: Global,
    given: &ArgMatches<'a>,
    spool: &'a str,
) -> Result<Option<Order<'a>>, AllocError>
    requires spool { HasArgument (rows_of (found_of given.now)) (codes "SPOOL") spool.now }
    requires incomplete { HasFlag (rows_of (found_of given.now)) (codes "incomplete") true }
    ensures { IfOk result (λ read. IfSome read (IsOrder (codes "delete") (rows_of (found_of given.now)))) }
{
    let but = if given.contains_id("but") {
        numbers_of(alloc, given, "but")?
    } else {
        Some(Vec::new(alloc))
    };
    let Some(but) = but else {
        return Ok(None);
    };
    let yes = given.get_flag("yes");
    Ok(Some(Order::DeleteIncomplete { spool, but, yes }))
}

// The numbers of an argument. `None` where it isn't given; those that can't be parsed were refused before.
fn numbers_of(
    alloc: Global,
    given: &ArgMatches<'_>,
    name: &str,
) -> Result<Option<Vec<u64>>, AllocError>
    ensures { IfOk result (λ read. IfSome read
        (λ numbers. HasNumbers 64 (rows_of (found_of given.now)) name.now numbers.items)) }
{
    let Some(read) = given.get_many::<u64>(name) else {
        return Ok(None);
    };
    let mut numbers = Vec::new(alloc);
    for number in read {
        let Ok(number) = number else {
            return Ok(None);
        };
        numbers.push(number)?;
    }
    Ok(Some(numbers))
}

fn export_order<'a>(given: &ArgMatches<'a>) -> Option<Order<'a>>
    ensures { IfSome result (IsOrder (codes "export") (rows_of (found_of given.now))) }
{
    Some(Order::Export {
        spool: given.get_str("SPOOL")?,
        folder: given.get_str("DIR")?,
        all: given.get_flag("all"),
    })
}

fn labels_order<'a>(given: &ArgMatches<'a>) -> Option<Order<'a>>
    ensures { IfSome result (IsOrder (codes "labels") (rows_of (found_of given.now))) }
{
    Some(Order::Labels {
        indexes: given.get_str("indexes")?,
        all: given.get_flag("all"),
        json: given.get_flag("json"),
    })
}

fn text_order<'a>(given: &ArgMatches<'a>) -> Option<Order<'a>>
    ensures { IfSome result (IsOrder (codes "text") (rows_of (found_of given.now))) }
{
    Some(Order::Text {
        from: given.get_str("from")?,
        to: given.get_str("to")?,
        mode: given.get_str("mode")?,
        indexes: given.get_str("indexes")?,
        strict: given.get_flag("strict"),
    })
}

fn upgrade_order<'a>(given: &ArgMatches<'a>) -> Option<Order<'a>>
    ensures { IfSome result (IsOrder (codes "upgrade") (rows_of (found_of given.now))) }
{
    Some(Order::Upgrade {
        spool: given.get_str("SPOOL")?,
    })
}

fn raise_order<'a>(given: &ArgMatches<'a>) -> Option<Order<'a>>
    ensures { IfSome result (IsOrder (codes "raise") (rows_of (found_of given.now))) }
{
    Some(Order::Raise {
        spool: given.get_str("SPOOL")?,
        number: given.get_one::<u64>("NUMBER")?,
    })
}
