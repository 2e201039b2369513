// The usage text, which is shown where the words are no command. `clap` renders it, and reads no words: the grammar
// that `share_top` reads them by is the only one.
use clap::{Arg, Command};
use std::alloc::{AllocError, Global};

// How a word is given.
#[derive(Clone, Copy)]
enum Given {
    // It has to be there.
    Required,
    // It may be there.
    Optional,
    // It may be there, and else is this one.
    Default(&'static str),
    // It is there once or more.
    Repeated,
}

// A word that a command takes: an option, where it has a name before it.
#[derive(Clone, Copy)]
struct Word {
    option: Option<&'static str>,
    value: &'static str,
    given: Given,
    help: &'static str,
}

// A command.
#[derive(Clone, Copy)]
struct Usage {
    name: &'static str,
    line: &'static str,
    about: &'static str,
    example: &'static str,
    words: &'static [Word],
}

const FOLDER: Word = Word {
    option: Some("dir"),
    value: "FOLDER",
    given: Given::Required,
    help: "The folder of the broker's files, which is made where it is missing",
};

const LISTEN: Word = Word {
    option: Some("listen"),
    value: "HOST:PORT",
    given: Given::Required,
    help: "The address to listen at; port 0 is any free one, and needs --advertise",
};

const ADVERTISE: Word = Word {
    option: Some("advertise"),
    value: "HOST:PORT",
    given: Given::Optional,
    help: "The address that clients are told, port 1 to 65535 [default: that of --listen]",
};

const RESET: Word = Word {
    option: Some("reset"),
    value: "latest|earliest",
    given: Given::Default("latest"),
    help: "A group new to a partition begins at its end, or at its first record",
};

const LOCK_MS: Word = Word {
    option: Some("lock-ms"),
    value: "N",
    given: Given::Default("30000"),
    help: "How long a record is locked for its worker, 1 to 3600000 milliseconds",
};

const LIMIT: Word = Word {
    option: Some("limit"),
    value: "N",
    given: Given::Default("5"),
    help: "How often a record is delivered before it is archived, 2 to 10 times",
};

const WORKERS: Word = Word {
    option: Some("workers"),
    value: "N",
    given: Given::Default("16"),
    help: "Connections answered at once, 1 to 256; a consumer takes two, others wait",
};

const ACCEPT: Word = Word {
    option: Some("accept"),
    value: "N",
    given: Given::Default("4294967295"),
    help: "How many connections it serves before it ends, 1 to 4294967295",
};

const VERSIONS: Word = Word {
    option: Some("versions"),
    value: "exact|wide|all",
    given: Given::Default("exact"),
    help: "Which versions of the calls are served: wide and all also those that stock producers speak",
};

const IDLE_MS: Word = Word {
    option: Some("idle-ms"),
    value: "N",
    given: Given::Default("600000"),
    help: "How long a connection may be silent, 0 to 86400000 milliseconds",
};

const OUTPUT: Word = Word {
    option: Some("output"),
    value: "lines|summary",
    given: Given::Default("lines"),
    help: "A line for each outcome, or one line of their numbers at the end",
};

const NAME: Word = Word {
    option: None,
    value: "NAME",
    given: Given::Required,
    help: "The name of one of the topics",
};

const PART: Word = Word {
    option: None,
    value: "PART",
    given: Given::Required,
    help: "The number of one of its partitions, from 0 on",
};

const ROUNDS: Word = Word {
    option: None,
    value: "N",
    given: Given::Required,
    help: "How many rounds the script has, 1 to 100000",
};

const TOPICS: Word = Word {
    option: None,
    value: "TOPIC",
    given: Given::Repeated,
    help: "A topic, as NAME:N:ID: its name, its number of partitions, and its id, a UUID",
};

const CONNECT: Word = Word {
    option: Some("connect"),
    value: "HOST:PORT",
    given: Given::Required,
    help: "The address of a broker that serves share groups",
};

const GROUP: Word = Word {
    option: Some("group"),
    value: "GROUP",
    given: Given::Required,
    help: "The share group, 1 to 255 bytes",
};

const MEMBER: Word = Word {
    option: Some("member"),
    value: "MEMBER",
    given: Given::Required,
    help: "The id of this member, 1 to 255 bytes; no other member of the group has it",
};

const OF_TOPIC: Word = Word {
    option: Some("topic"),
    value: "NAME",
    given: Given::Required,
    help: "The name of the topic whose records are taken",
};

const COUNT: Word = Word {
    option: Some("count"),
    value: "N",
    given: Given::Required,
    help: "How many records are taken before it ends, 1 to 4294967295",
};

// The commands, in the order in which they are shown.
const COMMANDS: [Usage; 6] = [
    Usage {
        name: "serve",
        line: "sharebroker serve",
        about: "Serves producers and share consumers over TCP until it is stopped, and keeps what it answered in a folder",
        example: "Example:
  sharebroker serve --dir data --listen 127.0.0.1:9092 --reset earliest jobs:1:6ba7b810-9dad-11d1-80b4-00c04fd430c8",
        words: &[
            FOLDER, LISTEN, ADVERTISE, RESET, LOCK_MS, LIMIT, WORKERS, ACCEPT, VERSIONS, IDLE_MS,
            TOPICS,
        ],
    },
    Usage {
        name: "consume",
        line: "sharebroker consume",
        about: "Takes records of a topic as a member of a share group, writes a line for each, and accepts it then",
        example: "Example:
  sharebroker consume --connect 127.0.0.1:9092 --group workers --member w1 --topic jobs --count 3",
        words: &[CONNECT, GROUP, MEMBER, OF_TOPIC, COUNT],
    },
    Usage {
        name: "replay",
        line: "sharebroker replay",
        about: "Replays a recorded session from standard input over disks in memory, and writes its outcomes to standard output",
        example: "Example:
  sharebroker replay --reset earliest orders:1:22222222-2222-2222-2222-222222222222 < examples/queue",
        words: &[RESET, LOCK_MS, LIMIT, OUTPUT, VERSIONS, TOPICS],
    },
    Usage {
        name: "load",
        line: "sharebroker load",
        about: "Adds record batches from standard input, as a Kafka segment has them, to the log of a partition",
        example: "Example:
  sharebroker load --dir data jobs 0 jobs:1:6ba7b810-9dad-11d1-80b4-00c04fd430c8 < 00000000000000000000.log",
        words: &[FOLDER, NAME, PART, TOPICS],
    },
    Usage {
        name: "dump-state",
        line: "sharebroker dump-state",
        about: "Writes each group's stored start offsets, states and delivery counts, also of partitions that aren't hosted",
        example: "Example:
  sharebroker dump-state --dir data jobs:1:6ba7b810-9dad-11d1-80b4-00c04fd430c8",
        words: &[FOLDER, TOPICS],
    },
    Usage {
        name: "gen",
        line: "sharebroker gen",
        about: "Writes a script of a producer and two share consumers, which `replay` reads",
        example: "Example:
  sharebroker gen 1000 |
      sharebroker replay --output summary --reset earliest orders:1:22222222-2222-2222-2222-222222222222",
        words: &[ROUNDS],
    },
];

// What stands behind all commands.
const ABOUT_TOPICS: &str = "\
A topic's name has 1 to 249 ASCII letters, digits, '.', '_' and '-', and is neither '.' nor '..'. Its id is any UUID but
the one of zeros, such as uuidgen gives; it stays the same at each start. Names differ, and so do ids. There are at most
64 partitions in all.
";

// A word as `clap` has it.
fn arg(alloc: Global, word: &Word) -> Arg<'static> {
    let id = word.option.unwrap_or(word.value);
    let arg = Arg::new(alloc, id).value_name(word.value).help(word.help);
    let arg = match word.option {
        Some(option) => arg.long(option),
        None => arg,
    };
    match word.given {
        Given::Required => arg.required(true),
        Given::Optional => arg,
        Given::Default(value) => arg.default_value(value),
        Given::Repeated => arg.required(true).num_args(1..),
    }
}

// A command as `clap` has it.
fn command(alloc: Global, usage: &Usage) -> Result<Command<'static>, AllocError> {
    let mut command = Command::new(alloc, usage.name)
        .about(usage.about)
        .after_help(usage.example)
        .disable_help_flag(true)
        .bin_name(usage.line)?;
    for word in usage.words {
        command = command.arg(arg(alloc, word))?;
    }
    Ok(command)
}

// Puts what is told of a command behind a text, and an empty line.
fn add(alloc: Global, text: &mut String, usage: &Usage) -> Result<(), AllocError> {
    let help = command(alloc, usage)?.render_help()?;
    text.push_str(help.as_str())?;
    text.push_str("\n")
}

/// Whether there is a command of this name.
pub fn is_command(name: &str) -> bool {
    COMMANDS.iter().any(|usage| usage.name == name)
}

/// The options of a command, without the dashes before them.
pub fn options_of(alloc: Global, name: &str) -> Result<Vec<&'static str>, AllocError> {
    let mut options = Vec::new(alloc);
    for usage in &COMMANDS {
        if usage.name == name {
            for word in usage.words {
                if let Some(option) = word.option {
                    options.push(option)?;
                }
            }
        }
    }
    Ok(options)
}

/// The usage text: each command, or the one of this name where there is one, with its options, the words behind them
/// and an example, and what topics are.
pub fn usage_text(alloc: Global, name: &str) -> Result<String, AllocError> {
    let mut text = String::new(alloc);
    let one = is_command(name);
    for usage in &COMMANDS {
        if !one || usage.name == name {
            add(alloc, &mut text, usage)?;
        }
    }
    if name != "gen" && name != "consume" {
        text.push_str(ABOUT_TOPICS)?;
    }
    Ok(text)
}
