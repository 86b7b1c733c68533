//! The commands of the program, as its help describes them.

ghost use Rattle.std.specs.Prelude.{◌≡◌, Some, IfOk, map};
ghost use Rattle.clap.specs.Lexer.{usize_max};
ghost use Rattle.clap.specs.Words.{app_of, new_rule, rule_of, shape_of};
ghost use Rattle.clap.specs.declared.builder.ArgAction.TheVariants.{Set, SetTrue};
ghost use Rattle.clap.specs.declared.builder.texts.Texts.TheVariants.{One};
ghost use Rattle.clap.specs.declared.builder.value_parser.ValueParser.TheVariants.{Unsigned};
ghost use Rattle.gateway_orders.specs.Program.{numbers_rule, program, rule_for, shape_for};

use clap::{Arg, ArgAction, Command, value_parser};
use std::alloc::{AllocError, Global};
use std::io::{self, Write};

/// The version, which `--version` prints after the program's name.
const VERSION: &str = "1.2.0, for spools of version 1 and 2";

/// The address that `up` listens at by default.
const DOOR: &str = "127.0.0.1:8080";

/// A command: its name, its description in the help, an example, and its arguments.
struct Described {
    name: &'static str,
    about: &'static str,
    example: &'static str,
    takes: &'static [Given],
}

/// An argument: its name, what comes with it, and its description in the help.
struct Given {
    name: &'static str,
    with: With,
    help: &'static str,
}

/// What comes with an argument. An argument that isn't a word by itself comes after `--` and its name. A value without
/// a default is required, but for `U64IfAny`; the text here is its name in the help.
#[derive(Clone, Copy)]
enum With {
    /// A word by itself, which is required.
    Word,
    /// A number below 2⁶⁴ by itself, which is required.
    Number,
    /// One or more numbers by themselves, which are required where none of these arguments is given, and refused beside
    /// them.
    NumbersOr(&'static [&'static str]),
    /// One or more numbers with this name in the help, and this other argument is required beside them.
    NumbersWith(&'static str, &'static str),
    /// Nothing: the argument is given or not.
    Nothing,
    /// Nothing, and this other argument is refused beside it.
    NothingOr(&'static str),
    /// Nothing, and this other argument is required beside it.
    NothingWith(&'static str),
    /// A text.
    Text(&'static str),
    /// A text, or this default.
    TextOr(&'static str, &'static str),
    /// A number below 2¹⁶.
    U16(&'static str),
    /// A number below 2³².
    U32(&'static str),
    /// A number below 2⁶⁴.
    U64(&'static str),
    /// A number below 2⁶⁴, which isn't required.
    U64IfAny(&'static str),
}

/// The path of an existing spool.
const SPOOL: Given = Given {
    name: "SPOOL",
    with: With::Word,
    help: "The file with the spool",
};

/// The folder with the index files.
const INDEXES: Given = Given {
    name: "indexes",
    with: With::Text("DIR"),
    help: "The folder with the index files: index-jis0208.txt and so on",
};

/// The command that serves a spool.
const UP: Described = Described {
    name: "up",
    about: "Serves a spool until the program is ended",
    example: "At another port, and over IPv6:\n\n  gateway up spool --listen [::1]:8081",
    takes: &[
        SPOOL,
        Given {
            name: "listen",
            with: With::TextOr("ADDRESS:PORT", DOOR),
            help: "What to listen at; port 0: any, which is printed",
        },
        Given {
            name: "quiet",
            with: With::Nothing,
            help: "Prints errors and warnings only",
        },
        Given {
            name: "log",
            with: With::Nothing,
            help: "Logs each reply, also without a terminal",
        },
    ],
};

/// All commands, in the order of the help.
static COMMANDS: [Described; 11] = [
    Described {
        name: "format",
        about: "Makes a spool without uploads",
        example: "A spool for 4 MiB of text:\n\n  \
            gateway format spool --blocks 1024 --indexes idx --standard-indexes",
        takes: &[
            Given {
                name: "SPOOL",
                with: With::Word,
                help: "The file to be made. One that is there may have nothing but zeros",
            },
            Given {
                name: "blocks",
                with: With::U32("N"),
                help: "How many blocks of 4,096 bytes there are for texts: 16 to 65536",
            },
            INDEXES,
            Given {
                name: "overwrite",
                with: With::Nothing,
                help: "Overwrites a file that is no spool, whatever it has",
            },
            Given {
                name: "standard-indexes",
                with: With::Nothing,
                help: "Refuses index files that aren't the Encoding Standard's 18",
            },
            Given {
                name: "first",
                with: With::U64IfAny("N"),
                help: "The number of the first upload; 1 if it isn't given",
            },
        ],
    },
    UP,
    Described {
        name: "list",
        about: "Prints the uploads of a spool, by number",
        example: "NUMBER ACCEPTED/DECLARED TEXTLENGTH FROM TO MODE of each:\n\n  gateway list spool",
        takes: &[
            SPOOL,
            Given {
                name: "long",
                with: With::Nothing,
                help: "Prints what each upload has as `Upload-Metadata` too",
            },
            Given {
                name: "json",
                with: With::NothingOr("long"),
                help: "Prints a line of JSON for each upload, and one for the indexes",
            },
        ],
    },
    Described {
        name: "delete",
        about: "Deletes uploads of a spool. There is no way back",
        example: "Uploads 3 and 7, while no gateway serves the spool:\n\n  gateway delete spool 3 7\n\n\
            Those whose last byte hasn't come, after a look at them:\n\n  \
            gateway delete spool --incomplete\n  gateway delete spool --incomplete --but 3 7 --yes",
        takes: &[
            SPOOL,
            Given {
                name: "NUMBER",
                with: With::NumbersOr(&["incomplete", "but", "yes"]),
                help: "The numbers of the uploads, as `list` prints them",
            },
            Given {
                name: "incomplete",
                with: With::Nothing,
                help: "Prints the uploads whose last byte hasn't come; with --yes deletes them",
            },
            Given {
                name: "but",
                with: With::NumbersWith("NUMBER", "incomplete"),
                help: "Keeps the uploads with these numbers",
            },
            Given {
                name: "yes",
                with: With::NothingWith("incomplete"),
                help: "Deletes them",
            },
        ],
    },
    Described {
        name: "export",
        about: "Writes the text of each complete upload into a file of its own",
        example: "Into files as 3.txt, or 3-NAME if an upload has a name, while no gateway serves the spool:\n\n  \
            mkdir texts && gateway export spool texts",
        takes: &[
            SPOOL,
            Given {
                name: "DIR",
                with: With::Word,
                help: "An existing folder. Existing files are kept",
            },
            Given {
                name: "all",
                with: With::Nothing,
                help: "Also incomplete uploads: their text so far",
            },
        ],
    },
    Described {
        name: "labels",
        about: "Prints what each label makes of standard input, the least strange text first",
        example: "What each encoding makes of a letter:\n\n  gateway labels --indexes idx < letter",
        takes: &[
            INDEXES,
            Given {
                name: "all",
                with: With::Nothing,
                help: "Reads all, and not only the first MiB",
            },
            Given {
                name: "json",
                with: With::Nothing,
                help: "Prints them by lines of JSON",
            },
        ],
    },
    Described {
        name: "text",
        about: "Writes standard input as an upload of it would be stored",
        example: "What the label koi8-r makes of a letter:\n\n  gateway text --from koi8-r --indexes idx < letter",
        takes: &[
            Given {
                name: "from",
                with: With::Text("LABEL"),
                help: "The encoding of the bytes, by any of its labels",
            },
            Given {
                name: "to",
                with: With::TextOr("LABEL", "utf-8"),
                help: "The encoding that the text is stored in",
            },
            Given {
                name: "mode",
                with: With::TextOr("MODE", "html"),
                help: "For a character that `--to` lacks: `html` writes `&#NUMBER;`, `fatal` refuses",
            },
            INDEXES,
            Given {
                name: "strict",
                with: With::Nothing,
                help: "Ends with status 2 (43), after the text, if it has U+FFFD, one of its own too",
            },
        ],
    },
    Described {
        name: "upgrade",
        about: "Brings a spool of version 1 to version 2. There is no way back",
        example: "While no gateway serves it:\n\n  cp spool spool.old && gateway upgrade spool",
        takes: &[SPOOL],
    },
    Described {
        name: "raise",
        about: "Gives a spool a later next number. There is no way back",
        example: "A copy that is put back, before a gateway serves it:\n\n  \
            cp spool.old spool && gateway raise spool 1000000",
        takes: &[
            SPOOL,
            Given {
                name: "NUMBER",
                with: With::Number,
                help: "The number of the next upload, unless the spool's own is later",
            },
        ],
    },
    Described {
        name: "serve",
        about: "Serves connections over sockets",
        example: "Ten connections and no more; `up` serves for ever:\n\n  \
            gateway serve spool --port 8080 --connections 10 --turns 18446744073709551615",
        takes: &[
            SPOOL,
            Given {
                name: "port",
                with: With::U16("P"),
                help: "The port of 127.0.0.1 to listen at; 0: any, which is printed",
            },
            Given {
                name: "connections",
                with: With::U64("K"),
                help: "It ends once so many connections were closed",
            },
            Given {
                name: "turns",
                with: With::U64("T"),
                help: "It ends after so many turns over the open connections",
            },
        ],
    },
    Described {
        name: "script",
        about: "Runs standard input as a script of connections",
        example: "Over a fresh spool, which is gone at the end:\n\n  gateway script - < story",
        takes: &[Given {
            name: "SPOOL",
            with: With::Word,
            help: "The file with the spool; `-`: a fresh one in memory, gone when the script ends",
        }],
    },
];

/// All commands. Usage names the program `gateway`, whatever its file is called.
pub(crate) fn gateway<'a>(alloc: Global) -> Result<Command<'a>, AllocError>
    ensures { IfOk result (λ command. app_of command ≡ program) }
{
    let commands = commands_of(alloc, COMMANDS.as_slice())?;
    Command::new(alloc, "gateway")
        .bin_name("gateway")?
        .version(VERSION)
        .about("A gateway for resumable uploads (tus 1.0.0) of text in old and new encodings")
        .after_help(
            "`gateway help COMMAND` says more of a command. First steps:\n\n  \
            gateway format spool --blocks 1024 --indexes idx --standard-indexes\n  gateway up spool",
        )
        .subcommand_required(true)
        .subcommands(commands)
}

fn commands_of<'a>(alloc: Global, all: &[Described]) -> Result<Vec<Command<'a>>, AllocError>
    ensures { IfOk result (λ commands. map shape_of commands.items ≡ map shape_for all.now) }
{
    let mut commands = Vec::new(alloc);
    for described in all {
        commands.push(command(alloc, described)?)?;
    }
    Ok(commands)
}

/// The command `up` by itself, for an error that is found after the parse. `Command::error` changes the command that
/// it is called on, and clap lends those that `gateway` holds only for reading.
pub(crate) fn up<'a>(alloc: Global) -> Result<Command<'a>, AllocError> {
    command(alloc, &UP)?.bin_name("gateway up")
}

/// Writes a line with the names of all commands.
pub(crate) fn write_names<W: Write>(out: &mut W) -> io::Result<()> {
    let mut before = "Commands: ";
    for described in COMMANDS.iter() {
        write!(out, "{before}{}", described.name)?;
        before = ", ";
    }
    writeln!(out)
}

fn command<'a>(alloc: Global, described: &Described) -> Result<Command<'a>, AllocError>
    ensures { IfOk result (λ command. shape_of command ≡ shape_for described.now) }
{
    let mut args = Vec::new(alloc);
    for given in described.takes {
        args.push(argument(alloc, given)?)?;
    }
    Command::new(alloc, described.name)
        .about(described.about)
        .after_help(described.example)
        .args(args)
}

fn argument<'a>(alloc: Global, given: &Given) -> Result<Arg<'a>, AllocError>
    ensures { IfOk result (λ arg. rule_of arg ≡ rule_for given.now) }
{
    let arg = Arg::new(alloc, given.name).help(given.help);
    match given.with {
        With::Word => Ok(arg.required(true)),
        With::Number => Ok(arg.required(true).value_parser(value_parser!(u64))),
        With::NumbersOr(others) => numbers(arg, others),
        With::NumbersWith(value, other) => numbers_after(arg, given.name, value).requires_arg(
            other,
        ),
        With::Nothing => Ok(flag(arg, given.name)),
        With::NothingOr(other) => flag(arg, given.name).conflicts_with(other),
        With::NothingWith(other) => flag(arg, given.name).requires_arg(other),
        With::Text(value) => Ok(option(arg, given.name, value).required(true)),
        With::TextOr(value, text) => Ok(option(arg, given.name, value).default_value(text)),
        With::U16(value) => Ok(
            option(arg, given.name, value)
                .required(true)
                .value_parser(value_parser!(u16)),
        ),
        With::U32(value) => Ok(
            option(arg, given.name, value)
                .required(true)
                .value_parser(value_parser!(u32)),
        ),
        With::U64(value) => Ok(
            option(arg, given.name, value)
                .required(true)
                .value_parser(value_parser!(u64)),
        ),
        With::U64IfAny(value) => {
            Ok(option(arg, given.name, value).value_parser(value_parser!(u64)))
        }
    }
}

// One or more numbers by themselves, for an argument that is required where none of the others is given, and refused
// beside them.
fn numbers<'a>(arg: Arg<'a>, others: &[&'a str]) -> Result<Arg<'a>, AllocError>
    requires { rule_of arg ≡ new_rule arg.id.now }
    ensures { IfOk result (λ numbers. rule_of numbers
        ≡ numbers_rule (map (λ other. other.now) others.now) arg.entry.id.now) }
{
    arg.num_args(1..)
        .value_parser(value_parser!(u64))
        .required_unless_present_any(others)?
        .conflicts_with_all(others)
}

// An argument after `--` and this name, with one or more numbers after it, of this name in the help.
fn numbers_after<'a>(arg: Arg<'a>, name: &'a str, value: &'a str) -> Arg<'a>
    ensures { result ≡ record arg.entry {
      long = Some name.entry;
      action = Some Set;
      val_names = One value.entry;
      num_vals = Some (record { start_inclusive = 1; end_inclusive = usize_max });
      value_parser = Some (Unsigned 0 18446744073709551615);
    } }
{
    option(arg, name, value)
        .num_args(1..)
        .value_parser(value_parser!(u64))
}

// An argument after `--` that is this name, with nothing after it.
fn flag<'a>(arg: Arg<'a>, name: &'a str) -> Arg<'a>
    ensures { result ≡ record arg.entry { long = Some name.entry; action = Some SetTrue } }
{
    arg.long(name).action(ArgAction::SetTrue)
}

// An argument after `--` and this name, with a value of this name in the help.
fn option<'a>(arg: Arg<'a>, name: &'a str, value: &'a str) -> Arg<'a>
    ensures { result ≡ record arg.entry { long = Some name.entry; action = Some Set; val_names = One value.entry } }
{
    arg.long(name).action(ArgAction::Set).value_name(value)
}
