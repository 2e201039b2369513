// Texts: words, bytes in hexadecimal, faults, and values without the names of the structs that hold them.
use std::alloc::Global;
use std::fmt::Debug;
use std::io;

/// A text of its own.
pub fn word(alloc: Global, text: &str) -> io::Result<String> {
    Ok(String::from_str(alloc, text)?)
}

/// Bytes in hexadecimal.
pub fn hex_text(alloc: Global, bytes: &[u8]) -> io::Result<String> {
    Ok(hex::encode(alloc, bytes)?)
}

/// What `Debug` writes of a value.
pub fn debug_text<V: Debug>(alloc: Global, value: &V) -> io::Result<String> {
    Ok(format!(in alloc; "{value:?}")?)
}

/// What words are.
pub fn is_text(alloc: Global, words: &str, told: &str) -> io::Result<String> {
    Ok(format!(in alloc; "{words} is {told}")?)
}

/// A text with other words in place of some, one pair after another.
fn replaced(alloc: Global, text: String, changes: &[(&str, &str)]) -> io::Result<String> {
    let mut text = text;
    for (from, to) in changes {
        text = text.as_str().replace(alloc, *from, to)?;
    }
    Ok(text)
}

/// A fault by its name, and behind it its place or its index.
pub fn fault_text<F: Debug>(alloc: Global, fault: &F) -> io::Result<String> {
    let text = debug_text(alloc, fault)?;
    replaced(
        alloc,
        text,
        &[(" { place:", " at"), (" { index:", ""), (" }", "")],
    )
}

/// Adds what stands before the name of a struct, and a brace.
fn push_before_name(out: &mut String, text: &str) -> io::Result<()> {
    let (front, name) = text.rsplit_once(' ').unwrap_or(("", text));
    out.push_str(front)?;
    if name.starts_with('[') {
        out.push_str(" [")?;
    }
    Ok(out.push_str(" {")?)
}

/// A text in which each word before a `{` is gone.
fn without_names(alloc: Global, text: &str) -> io::Result<String> {
    let mut out = String::new(alloc);
    let Some((front, behind)) = text.rsplit_once(" {") else {
        return word(alloc, text);
    };
    for piece in front.split(" {") {
        push_before_name(&mut out, piece)?;
    }
    out.push_str(behind)?;
    word(alloc, out.as_str().trim_start())
}

/// What `Debug` writes of a value, as plain text: `{ group_id: "g1", topics: [{ partition: 0 }] }`.
pub fn plain<V: Debug>(alloc: Global, value: &V) -> io::Result<String> {
    let text = debug_text(alloc, value)?;
    let text = replaced(alloc, text, &[("Some(", ""), (")", ""), ("None", "null")])?;
    let text = without_names(alloc, text.as_str())?;
    replaced(
        alloc,
        text,
        &[
            ("[ {", "[{"),
            // A list of texts that are kept as they are spelled stands in no `Items`.
            ("\"] }", "\"] ;"),
            ("{ list: [", "["),
            ("{ bytes: [", "["),
            ("] }", "]"),
            ("{ string: ", ""),
            ("\" }", "\""),
            ("\"] ;", "\"] }"),
        ],
    )
}
