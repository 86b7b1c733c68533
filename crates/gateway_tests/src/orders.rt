//! The gateway's command lines.

use gateway_orders::{USAGE, read_order, report_usage};
use std::alloc::Global;
use std::process::Abort;

/// Command lines, and what each one parses to: an order, a call for help, or a usage error. The errors have a word too
/// few, a word too many, or one that isn't valid.
static LINES: [(&str, &str); 81] = [
    (
        "gateway format new --blocks 16 --indexes idx",
        r#"Format { spool: "new", blocks: 16, indexes: "idx", overwrite: false, standard: false, first: None }"#,
    ),
    (
        "gateway format new --blocks 16 --indexes idx --standard-indexes",
        r#"Format { spool: "new", blocks: 16, indexes: "idx", overwrite: false, standard: true, first: None }"#,
    ),
    (
        "gateway format new --blocks 16 --indexes idx --overwrite",
        r#"Format { spool: "new", blocks: 16, indexes: "idx", overwrite: true, standard: false, first: None }"#,
    ),
    (
        "gateway format new --blocks 16 --indexes idx --first 7",
        r#"Format { spool: "new", blocks: 16, indexes: "idx", overwrite: false, standard: false, first: Some(7) }"#,
    ),
    (
        "gateway format new --first=18446744073709551615 --blocks 16 --indexes idx",
        "Format { spool: \"new\", blocks: 16, indexes: \"idx\", overwrite: false, standard: false, \
            first: Some(18446744073709551615) }",
    ),
    (
        "gateway format new --blocks 16 --indexes idx --first 0",
        r#"Format { spool: "new", blocks: 16, indexes: "idx", overwrite: false, standard: false, first: Some(0) }"#,
    ),
    ("gateway script -", r#"Script { spool: "-" }"#),
    (
        "gateway serve --turns 18446744073709551615 --connections 7 --port=65535 old",
        r#"Serve(Service { spool: "old", port: 65535, connections: 7, turns: 18446744073709551615 })"#,
    ),
    (
        "gateway serve old --port 0 --connections 0 --turns 0",
        r#"Serve(Service { spool: "old", port: 0, connections: 0, turns: 0 })"#,
    ),
    ("gateway list old", r#"List { spool: "old", long: false }"#),
    (
        "gateway list old --long",
        r#"List { spool: "old", long: true }"#,
    ),
    ("gateway list old --json", r#"Json { spool: "old" }"#),
    ("gateway list --json old", r#"Json { spool: "old" }"#),
    ("gateway upgrade old", r#"Upgrade { spool: "old" }"#),
    (
        "gateway raise old 7",
        r#"Raise { spool: "old", number: 7 }"#,
    ),
    (
        "gateway raise old 18446744073709551615",
        r#"Raise { spool: "old", number: 18446744073709551615 }"#,
    ),
    (
        "gateway text --from koi8-r --indexes idx",
        r#"Text { from: "koi8-r", to: "utf-8", mode: "html", indexes: "idx", strict: false }"#,
    ),
    (
        "gateway text --indexes idx --mode fatal --strict --to=latin1 --from utf-8",
        r#"Text { from: "utf-8", to: "latin1", mode: "fatal", indexes: "idx", strict: true }"#,
    ),
    (
        "gateway labels --indexes idx",
        r#"Labels { indexes: "idx", all: false, json: false }"#,
    ),
    (
        "gateway labels --all --json --indexes idx",
        r#"Labels { indexes: "idx", all: true, json: true }"#,
    ),
    (
        "gateway export old texts",
        r#"Export { spool: "old", folder: "texts", all: false }"#,
    ),
    (
        "gateway export --all old texts",
        r#"Export { spool: "old", folder: "texts", all: true }"#,
    ),
    (
        "gateway up old",
        r#"Up { spool: "old", listen: 127.0.0.1:8080, quiet: false, log: false }"#,
    ),
    (
        "gateway up old --quiet --listen [::1]:0",
        r#"Up { spool: "old", listen: [::1]:0, quiet: true, log: false }"#,
    ),
    (
        "gateway up --listen=0.0.0.0:80 old",
        r#"Up { spool: "old", listen: 0.0.0.0:80, quiet: false, log: false }"#,
    ),
    (
        "gateway up old --log",
        r#"Up { spool: "old", listen: 127.0.0.1:8080, quiet: false, log: true }"#,
    ),
    (
        "gateway delete old 3",
        r#"Delete { spool: "old", numbers: [3] }"#,
    ),
    (
        "gateway delete old 7 3 7",
        r#"Delete { spool: "old", numbers: [7, 3, 7] }"#,
    ),
    (
        "gateway delete old --incomplete",
        r#"DeleteIncomplete { spool: "old", but: [], yes: false }"#,
    ),
    (
        "gateway delete --yes old --incomplete",
        r#"DeleteIncomplete { spool: "old", but: [], yes: true }"#,
    ),
    (
        "gateway delete old --incomplete --but 3 7 --yes",
        r#"DeleteIncomplete { spool: "old", but: [3, 7], yes: true }"#,
    ),
    (
        "gateway delete --but=3 --incomplete old",
        r#"DeleteIncomplete { spool: "old", but: [3], yes: false }"#,
    ),
    ("gateway help", "help"),
    ("gateway list --help", "help"),
    ("gateway help delete", "help"),
    ("gateway --version", "help"),
    ("gateway", "usage"),
    ("gateway list", "usage"),
    ("gateway upgrade", "usage"),
    ("gateway up", "usage"),
    ("gateway export old", "usage"),
    ("gateway text --from koi8-r", "usage"),
    ("gateway labels --all", "usage"),
    ("gateway labels old --indexes idx", "usage"),
    ("gateway format new --blocks 16", "usage"),
    ("gateway list old older", "usage"),
    ("gateway list --json", "usage"),
    ("gateway list old --json --long", "usage"),
    ("gateway list old --long --json", "usage"),
    ("gateway list old --json=yes", "usage"),
    ("gateway delete old", "usage"),
    ("gateway delete --incomplete", "usage"),
    ("gateway delete old --incomplete 3", "usage"),
    ("gateway delete old 3 --incomplete", "usage"),
    ("gateway delete old 3 --incomplete --yes", "usage"),
    ("gateway delete old --incomplete --but", "usage"),
    ("gateway delete old --incomplete --but three", "usage"),
    ("gateway delete old --but 3", "usage"),
    ("gateway delete old 3 --but 4", "usage"),
    ("gateway delete old --yes", "usage"),
    ("gateway delete old 3 --yes", "usage"),
    ("gateway delete old three", "usage"),
    ("gateway delete old -3", "usage"),
    ("gateway up old --listen localhost:80", "usage"),
    ("gateway format new --blocks -1 --indexes idx", "usage"),
    (
        "gateway format new --blocks 16 --indexes idx --standard-indexes=no",
        "usage",
    ),
    (
        "gateway serve old --port 65536 --connections 1 --turns 1",
        "usage",
    ),
    ("gateway up old --quiet=yes", "usage"),
    ("gateway raise old", "usage"),
    ("gateway raise", "usage"),
    ("gateway raise old 7 8", "usage"),
    ("gateway raise old seven", "usage"),
    ("gateway raise old -7", "usage"),
    ("gateway raise old 18446744073709551616", "usage"),
    (
        "gateway format new --blocks 16 --indexes idx --first",
        "usage",
    ),
    (
        "gateway format new --blocks 16 --indexes idx --first 7 --first 8",
        "usage",
    ),
    (
        "gateway format new --blocks 16 --indexes idx --first seven",
        "usage",
    ),
    (
        "gateway format new --blocks 16 --indexes idx --first 18446744073709551616",
        "usage",
    ),
    ("gateway format new --first 7", "usage"),
    ("gateway nosuch", "usage"),
    ("gateway help nosuch", "usage"),
];

/// The line that names all commands.
const COMMANDS: &str =
    "Commands: format, up, list, delete, export, labels, text, upgrade, raise, serve, script";

/// Wrong command lines, and a line of each one's message: the usage of the command that was given, the names of all
/// commands where none was, or what is wrong.
static MESSAGES: [(&str, &str); 20] = [
    (
        "gateway format",
        "Usage: gateway format --blocks <N> --indexes <DIR> <SPOOL>",
    ),
    ("gateway list", "Usage: gateway list <SPOOL>"),
    ("gateway list a b", "Usage: gateway list [OPTIONS] <SPOOL>"),
    (
        "gateway list old --json --long",
        "error: the argument '--json' cannot be used with '--long'",
    ),
    (
        "gateway list old --json --long",
        "Usage: gateway list --json <SPOOL>",
    ),
    (
        "gateway up old --listen nonsense",
        "error: invalid value 'nonsense' for '--listen <ADDRESS:PORT>': write it as 127.0.0.1:8080 or [::1]:8080",
    ),
    (
        "gateway up old --listen nonsense",
        "Usage: gateway up [OPTIONS] <SPOOL>",
    ),
    (
        "/usr/bin/gateway-1 up old --listen nonsense",
        "Usage: gateway up [OPTIONS] <SPOOL>",
    ),
    (
        "/usr/bin/gateway-1 up old older",
        "Usage: gateway up [OPTIONS] <SPOOL>",
    ),
    ("gateway delete old", "  <NUMBER>..."),
    (
        "gateway delete old",
        "Usage: gateway delete <SPOOL> <NUMBER>...",
    ),
    (
        "gateway delete old --incomplete 3",
        "error: the argument '--incomplete' cannot be used with '[NUMBER]...'",
    ),
    ("gateway delete old --yes", "  --incomplete"),
    (
        "gateway delete old 3 --yes",
        "error: the argument '[NUMBER]...' cannot be used with '--yes'",
    ),
    ("gateway raise old", "  <NUMBER>"),
    ("gateway raise old", "Usage: gateway raise <SPOOL> <NUMBER>"),
    ("gateway nosuch", "error: unrecognized subcommand 'nosuch'"),
    ("gateway nosuch", COMMANDS),
    ("gateway help nosuch", COMMANDS),
    ("gateway lst", COMMANDS),
];

/// The words of a line.
fn words_of(rt: &impl Abort, alloc: Global, line: &str) -> Vec<String> {
    let mut words = Vec::new(alloc);
    for word in line.split(' ') {
        let word = String::from_str(alloc, word).expect(rt, "memory for a word");
        words.push(word).expect(rt, "memory for words");
    }
    words
}

/// The order that words parse to, or `help` or `usage`. Help goes to standard output with status 0, and errors go to
/// standard error.
fn read(rt: &impl Abort, alloc: Global, words: &[String]) -> String {
    let error = match read_order(alloc, words) {
        Ok(Some(order)) => return format!(in alloc; "{order:?}").expect(rt, "memory for an order"),
        Ok(None) => return String::new(alloc),
        Err(error) => error,
    };
    let mut out = Vec::new(alloc);
    let mut err = Vec::new(alloc);
    let kind = match report_usage(&error, &mut out, &mut err).expect(rt, "lines") {
        0 => "help",
        USAGE => "usage",
        _ => "",
    };
    assert_eq!(rt;
        (out.is_empty(), err.is_empty()),
        (kind == "usage", kind == "help")
    );
    String::from_str(alloc, kind).expect(rt, "memory for a word")
}

/// The message for wrong words.
fn message(rt: &impl Abort, alloc: Global, words: &[String]) -> String {
    let Err(error) = read_order(alloc, words) else {
        return String::new(alloc);
    };
    let mut out = Vec::new(alloc);
    let mut err = Vec::new(alloc);
    report_usage(&error, &mut out, &mut err).expect(rt, "lines");
    String::from_utf8(err).expect(rt, "text")
}

#[test]
fn command_lines(rt: HostRuntime) {
    for (line, order) in LINES.iter() {
        let words = words_of(&rt, rt.alloc(), line);
        assert_eq!(rt; read(&rt, rt.alloc(), &words).as_str(), *order, "{line}");
    }
}

#[test]
fn messages(rt: HostRuntime) {
    for (line, wanted) in MESSAGES.iter() {
        let words = words_of(&rt, rt.alloc(), line);
        let message = message(&rt, rt.alloc(), &words);
        assert!(rt;
            message.split('\n').any(|found| found == *wanted),
            "{line}: {message}"
        );
    }
}
