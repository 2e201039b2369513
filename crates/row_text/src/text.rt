// Pieces of text.
ghost use Rattle.std.specs.Prelude.{◌≡◌, ◌↔◌, IfOk, is_some, false};

use std::alloc::Global;
use std::io;

/// Adds a text some times over.
fn push_times(out: &mut String, count: u64, text: &str) -> io::Result<()> {
    for _ in 0..count {
        out.push_str(text)?;
    }
    Ok(())
}

/// Adds what stands behind a `{`.
fn push_piece(out: &mut String, piece: &str) -> io::Result<()> {
    let (inner, behind) = piece.split_once('}').unwrap_or(("", piece));
    match inner.split_once('*') {
        Some((count, text)) => {
            push_times(out, count.parse().unwrap_or(0), text)?;
            out.push_str(behind)?;
        }
        None => {
            out.push_str("{")?;
            out.push_str(piece)?;
        }
    }
    Ok(())
}

/// A text in which each `{N*TEXT}` has become N times TEXT. Other braces stand as they are.
pub fn expanded(alloc: Global, text: &str) -> io::Result<String> {
    let (front, behind) = text.split_once('{').unwrap_or((text, ""));
    let mut out = String::from_str(alloc, front)?;
    if front.len() < text.len() {
        for piece in behind.split('{') {
            push_piece(&mut out, piece)?;
        }
    }
    Ok(out)
}

/// A text in which each `{#}` has become a number, in sixteen hexadecimal digits.
pub fn numbered(alloc: Global, text: &str, number: u64) -> io::Result<String> {
    let digits = hex::encode(alloc, &number.to_be_bytes())?;
    Ok(text.replace(alloc, "{#}", digits.as_str())?)
}

/// A text without its blanks.
pub fn without_blanks(alloc: Global, text: &str) -> io::Result<String> {
    let mut out = String::new(alloc);
    for piece in text.split(' ') {
        out.push_str(piece)?;
    }
    Ok(out)
}

/// The bytes whose hexadecimal digits a text has, with blanks between them. `None` where it has none such.
pub fn bytes_of(alloc: Global, text: &str) -> io::Result<Option<Vec<u8>>> {
    let digits = without_blanks(alloc, text)?;
    Ok(hex::decode(alloc, digits.as_str()).ok())
}

/// The front of a text that is long.
pub fn shortened(text: &str) -> &str {
    match text.split_at_checked(400) {
        Some((front, _)) => front,
        None => text,
    }
}

fn differs(alloc: Global, line: &str, want: &str) -> io::Result<String> {
    let (line, want) = (shortened(line), shortened(want));
    Ok(format!(in alloc; "there is `{line}`, and `{want}` is wanted")?)
}

/// What differs between a text and the one that is wanted: the first line, or the number of lines. `None` where they
/// are equal.
pub fn compared(alloc: Global, got: &str, wanted: &str) -> io::Result<Option<String>>
    ensures { IfOk result (λ why. is_some why ≡ false ↔ got.now ≡ wanted.now) }
{
    if got == wanted {
        return Ok(None);
    }
    for (line, want) in got.lines().zip(wanted.lines()) {
        if line != want {
            return Ok(Some(differs(alloc, line, want)?));
        }
    }
    let (have, want) = (got.lines().count(), wanted.lines().count());
    let why = format!(in alloc; "there are {have} lines, and {want} are wanted")?;
    Ok(Some(why))
}
