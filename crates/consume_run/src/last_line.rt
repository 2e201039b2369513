// The last line of a consumer.
ghost use Rattle.std.specs.Prelude.{◌≡◌, ◌⊎◌, ◌++◌, List, ℕ, Option, OnOk, OnErr, codes, string_bytes};
ghost use Rattle.std.specs.Fmt.{decimal, signed_decimal};
ghost use Rattle.std.specs.Io.KnownBytes.{Appends};
ghost use Rattle.edge_io.specs.Causes.{HasCause};
ghost use Rattle.edge_io.specs.Streams.{AppendsFront};
ghost use Rattle.share_client.specs.declared.conf.ClientConf.{ClientConf};
ghost use Rattle.consume_run.specs.Consuming.{ComesByOutput, Consumes};
ghost use Rattle.consume_run.specs.Ends.{HasLine, last_line};
ghost use Rattle.consume_run.specs.Turns.{Stops};

use crate::end::ConsumeEnd;
use edge_io::{Failed, Sink, write_all};
use itoa::Buffer;

// Writes a word, a number and a line feed.
fn write_numbered<O: Sink>(output: &mut O, word: &str, number: &str) -> Result<(), Failed>
    ensures ok { OnOk result (Appends (O.held output.old) (O.held output.new) (word.now ++ (number.now ++ codes "\n"))) }
    ensures front { (rest : List ℕ) × AppendsFront (O.held output.old) (O.held output.new) (word.now ++ (number.now ++ codes "\n")) rest }
    ensures cause { HasCause (O.faults output.old) (O.faults output.new) result }
    ensures counted { OnOk result (O.faults output.new ≡ O.faults output.old) }
{
    write_all(output, word.as_bytes())?;
    write_all(output, number.as_bytes())?;
    write_all(output, b"\n")
}

// Writes the last line of an end, where it has one. It takes no memory.
fn write_last<O: Sink>(output: &mut O, end: ConsumeEnd) -> Result<(), Failed>
    ensures ok { OnOk result (Appends (O.held output.old) (O.held output.new) (last_line end)) }
    ensures front { (rest : List ℕ) × AppendsFront (O.held output.old) (O.held output.new) (last_line end) rest }
    ensures cause { HasCause (O.faults output.old) (O.faults output.new) result }
    ensures counted { OnOk result (O.faults output.new ≡ O.faults output.old) }
    ensures line { OnErr result (HasLine end) }
{
    let mut digits = Buffer::new();
    match end {
        ConsumeEnd::Refused { code } => {
            return write_numbered(output, "refused ", digits.format(code));
        }
        ConsumeEnd::Strange { place } => {
            return write_numbered(output, "strange ", digits.format(place));
        }
        ConsumeEnd::Unacknowledged => return write_all(output, b"unacknowledged\n"),
        ConsumeEnd::Done => return Ok(()),
        ConsumeEnd::NoLink => return Ok(()),
        ConsumeEnd::Output => return Ok(()),
        ConsumeEnd::Listener => return Ok(()),
        ConsumeEnd::Spawner => return Ok(()),
        ConsumeEnd::NoMemory => return Ok(()),
    }
}

/// Writes the last line of a program that ended so.
pub fn finish<O: Sink>(output: &mut O, end: ConsumeEnd) -> ConsumeEnd
    ensures consumes { (conf : ClientConf) (start : Option (List ℕ)) → Stops conf start (O.held output.old) end
        → Consumes conf start (O.held output.new) result }
    ensures same { (result ≡ end) ⊎ (result ≡ ConsumeEnd.Output) }
    ensures output { (before : ℕ) → ComesByOutput end before (O.faults output.old) → ComesByOutput result before (O.faults output.new) }
{
    match write_last(output, end) {
        Ok(()) => end,
        Err(_) => ConsumeEnd::Output,
    }
}
