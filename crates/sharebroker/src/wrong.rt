// Which of the words of the command line is wrong, where they are no command. The grammar that `share_top` reads them by
// is the only one: this looks for the first reason that a person would name, and may find none.
use crate::usage::{is_command, options_of};
use edge_io::is_topic_name;
use std::alloc::{AllocError, Global};
use strsim::levenshtein;

// What an option takes.
#[derive(Drop)]
enum Takes {
    Number { least: u64, most: u64 },
    One(&'static [&'static str]),
    Address,
    Topic,
    Name,
    Text,
}

// What the option of this name takes.
fn takes_of(option: &str) -> Takes {
    match option {
        "workers" => Takes::Number {
            least: 1,
            most: 256,
        },
        "accept" | "count" => Takes::Number {
            least: 1,
            most: 4294967295,
        },
        "lock-ms" => Takes::Number {
            least: 1,
            most: 3600000,
        },
        "limit" => Takes::Number { least: 2, most: 10 },
        "idle-ms" => Takes::Number {
            least: 0,
            most: 86400000,
        },
        "reset" => Takes::One(&["latest", "earliest"]),
        "output" => Takes::One(&["lines", "summary"]),
        "versions" => Takes::One(&["exact", "wide", "all"]),
        "listen" | "advertise" | "connect" => Takes::Address,
        "topic" => Takes::Topic,
        "group" | "member" => Takes::Name,
        _ => Takes::Text,
    }
}

// Whether a text is a number from one to another, with no sign and no leading zero.
fn is_number(text: &str, least: u64, most: u64) -> bool {
    let is_plain = text == "0" || !text.starts_with('0');
    let are_digits = !text.is_empty() && text.as_bytes().iter().all(|byte| byte.is_ascii_digit());
    match text.parse::<u64>() {
        Ok(number) => is_plain && are_digits && least <= number && number <= most,
        Err(_) => false,
    }
}

// Whether a text is an address: a host of letters, digits, dots and dashes, and a port.
fn is_address(text: &str) -> bool {
    let Some((host, port)) = text.split_once(':') else {
        return false;
    };
    let is_host = host.as_bytes().iter().all(|&byte| byte.is_ascii_alphanumeric()
        || byte == b'.'
        || byte == b'-');
    is_host && !host.is_empty() && host.len() <= 255 && is_number(port, 0, 65535)
}

// What is wrong of the value of an option, if anything is.
fn wrong_value(alloc: Global, option: &str, value: &str) -> Result<Option<String>, AllocError> {
    let text = match takes_of(option) {
        Takes::Number { least, most } if !is_number(value, least, most) => {
            format!(in alloc; "--{option} takes {least} to {most}, not {value}")?
        }
        Takes::One(choices) if !choices.iter().any(|&choice| choice == value) => {
            let mut text = format!(in alloc; "--{option} takes")?;
            for (number, choice) in choices.iter().enumerate() {
                text.push_str(if number == 0 { " " } else { " or " })?;
                text.push_str(choice)?;
            }
            text.push_str(", not ")?;
            text.push_str(value)?;
            text
        }
        Takes::Address if !is_address(value) => {
            format!(in alloc;
                "--{option} takes HOST:PORT, a name or an IPv4 address and a port, not {value}"
            )?
        }
        Takes::Topic if !is_topic_name(value.as_bytes()) => {
            format!(in alloc; "{value} is no name of a topic")?
        }
        Takes::Name if value.is_empty() || value.len() > 255 => {
            format!(in alloc; "--{option} takes 1 to 255 bytes")?
        }
        Takes::Text if value.is_empty() => format!(in alloc;
            "--{option} takes a word that isn't empty"
        )?,
        _ => return Ok(None),
    };
    Ok(Some(text))
}

// The option that is nearest to a word, where one is near.
fn nearest<'a>(
    alloc: Global,
    word: &str,
    options: &[&'a str],
) -> Result<Option<&'a str>, AllocError> {
    let mut best = None;
    let mut least = 4;
    for &option in options {
        let distance = levenshtein(alloc, word, option)?;
        if distance < least {
            least = distance;
            best = Some(option);
        }
    }
    Ok(best)
}

// What is wrong of an option that the command hasn't.
fn wrong_option(
    alloc: Global,
    command: &str,
    word: &str,
    options: &[&'static str],
) -> Result<String, AllocError> {
    if let Some((option, _)) = word.split_once('=') {
        if options.iter().any(|&known| known == option) {
            return format!(in alloc; "--{word} has to be two words, with no =");
        }
    }
    match nearest(alloc, word, options)? {
        Some(option) => format!(in alloc; "{command} has no option --{word}; is it --{option}?"),
        None => format!(in alloc; "{command} has no option --{word}"),
    }
}

// What is wrong of a topic, if anything is.
fn wrong_topic(alloc: Global, word: &str) -> Result<Option<String>, AllocError> {
    if word.starts_with("--") {
        return Ok(Some(format!(in alloc;
            "{word} stands behind a topic; options come before all topics"
        )?));
    }
    let Some((name, rest)) = word.split_once(':') else {
        return Ok(Some(format!(in alloc; "{word} is no topic: it takes NAME:N:ID")?));
    };
    let Some((parts, id)) = rest.split_once(':') else {
        return Ok(Some(format!(in alloc; "{word} is no topic: it takes NAME:N:ID")?));
    };
    if !is_topic_name(name.as_bytes()) {
        return Ok(Some(format!(in alloc; "{name} is no name of a topic")?));
    }
    if !is_number(parts, 1, 64) {
        return Ok(Some(format!(in alloc;
            "the topic {name} takes 1 to 64 partitions, not {parts}"
        )?));
    }
    if !id
        .as_bytes()
        .iter()
        .any(|&byte| byte.is_ascii_hexdigit() && byte != b'0')
        || id.len() < 32
    {
        return Ok(Some(format!(in alloc;
            "the topic {name} takes a UUID that isn't zero, not {id}"
        )?));
    }
    Ok(None)
}

// What is wrong of the topics, if anything is.
fn wrong_topics(alloc: Global, words: &[String]) -> Result<Option<String>, AllocError> {
    if words.is_empty() {
        return Ok(Some(format!(in alloc; "a topic is missing")?));
    }
    for word in words {
        if let Some(text) = wrong_topic(alloc, word.as_str())? {
            return Ok(Some(text));
        }
    }
    Ok(None)
}

// What is wrong of a script's number of rounds.
fn wrong_rounds(alloc: Global, words: &[String]) -> Result<Option<String>, AllocError> {
    match words.first() {
        Some(word) if is_number(word.as_str(), 1, 100_000) => Ok(None),
        Some(word) => Ok(Some(format!(in alloc; "gen takes 1 to 100000 rounds, not {word}")?)),
        None => Ok(Some(format!(in alloc; "the number of rounds is missing")?)),
    }
}

// What is wrong of the words behind the options, if anything is.
fn wrong_rest(alloc: Global, command: &str, rest: &[String]) -> Result<Option<String>, AllocError> {
    match command {
        "gen" => wrong_rounds(alloc, rest),
        "consume" => match rest.first() {
            Some(word) => Ok(Some(format!(in alloc; "consume takes options alone, not {word}")?)),
            None => Ok(None),
        },
        "load" => match rest.split_at_checked(2) {
            Some((_, topics)) => wrong_topics(alloc, topics),
            None => Ok(Some(format!(in alloc;
                "the name of a topic and the number of a partition are missing"
            )?)),
        },
        _ => wrong_topics(alloc, rest),
    }
}

// What is wrong of the first option of these words, or how many words it has: none, where there is no further option.
fn option_at(
    alloc: Global,
    command: &str,
    words: &[String],
    options: &[&'static str],
) -> Result<Result<usize, String>, AllocError> {
    let Some((word, behind)) = words.split_first() else {
        return Ok(Ok(0));
    };
    let Some(option) = word.strip_prefix("--") else {
        return Ok(Ok(0));
    };
    if !options.iter().any(|&known| known == option) {
        return Ok(Err(wrong_option(alloc, command, option, options)?));
    }
    let Some(value) = behind.first() else {
        return Ok(Err(format!(in alloc; "--{option} lacks its value")?));
    };
    match wrong_value(alloc, option, value.as_str())? {
        Some(text) => Ok(Err(text)),
        None => Ok(Ok(2)),
    }
}

// Whether words name the port 0 to listen at, and no address that clients are told.
fn lacks_advertise(words: &[String]) -> bool {
    let listens = words.windows(2).any(|pair| match pair {
        [option, value] => option.as_str() == "--listen" && value.ends_with(":0"),
        _ => false,
    });
    listens && !words.iter().any(|word| word.as_str() == "--advertise")
}

// The options that have to be given where a command has them.
const NEEDED: [&str; 7] = [
    "dir", "listen", "connect", "group", "member", "topic", "count",
];

// What is wrong of a command's words, if anything is.
fn wrong_of(alloc: Global, command: &str, words: &[String]) -> Result<Option<String>, AllocError> {
    let options = options_of(alloc, command)?;
    let mut rest = words;
    for _ in 0..words.len() {
        match option_at(alloc, command, rest, options.as_slice())? {
            Ok(0) => break,
            Ok(count) => rest = rest.get(count..).unwrap_or(&[]),
            Err(text) => return Ok(Some(text)),
        }
    }
    for needed in NEEDED {
        let word = format!(in alloc; "--{needed}")?;
        if options.iter().any(|&known| known == needed)
            && !words.iter().any(|given| given.as_str() == word.as_str())
        {
            return Ok(Some(format!(in alloc; "{word} is missing")?));
        }
    }
    if lacks_advertise(words) {
        return Ok(Some(format!(in alloc; "--listen with the port 0 needs --advertise")?));
    }
    wrong_rest(alloc, command, rest)
}

/// What is wrong of these words, in a line, where it is found.
pub fn wrong(alloc: Global, words: &[String]) -> Result<Option<String>, AllocError> {
    let Some((command, rest)) = words.split_first() else {
        return Ok(None);
    };
    if is_command(command.as_str()) {
        return wrong_of(alloc, command.as_str(), rest);
    }
    Ok(Some(format!(in alloc; "{command} is no command")?))
}
