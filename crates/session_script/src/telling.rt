// What is told of the outcomes of a session, as they come.
ghost use Rattle.std.specs.Prelude.{◌≡◌, ◌≢◌, ◌++◌, [], All, Err, List, ℕ, OnErr, OnOk};
ghost use Rattle.std.specs.Io.KnownBytes.{Appends};
ghost use Rattle.edge_io.specs.Causes.{Rose};
ghost use Rattle.topic_conf.specs.declared.topic.Topic.{Topic};
ghost use Rattle.session_script.specs.declared.event.Outcome.{Outcome};
ghost use Rattle.session_script.specs.Output.{IsTold, output_of};
ghost use Rattle.session_script.specs.Summary.{joined, summary_of};
ghost use Rattle.session_script.specs.Writing.{WritesText};
ghost use Rattle.text_pieces.specs.Pieces.{HandsFull};
ghost use Rattle.session_script.specs.Telling.{Held, Tells, TellsFront, TellsMore, TellsPart, TellsSome, TellsSomeOf, TellsStill, is_summary, last_line, told_so_far};

use crate::event::Outcome;
use crate::putting::put_outcome;
use crate::summary::{Summary, write_summary};
use crate::writer::LineFault;
use edge_io::Sink;
use flex_fields::NoMemory;
use std::alloc::Global;
use text_pieces::{GenFault, Pieces};
use topic_conf::Config;

/// What is told of outcomes.
#[derive(Drop)]
pub enum Telling {
    /// A line for each; these wait to be handed on.
    Lines { text: Pieces },
    /// Their numbers, in one line behind the end.
    Numbers { numbers: Summary },
}

// Adds the lines of outcomes to a text that waits.
fn put_outcomes(
    alloc: Global,
    text: &mut Pieces,
    outcomes: &[Outcome],
    conf: &Config,
) -> Result<(), NoMemory>
    requires { All (IsTold conf.now.topics) outcomes.now }
    ensures ok { OnOk result (text.new ≡ text.old ++ output_of conf.now.topics outcomes.now) }
    ensures err { OnErr result ((missing : List ℕ) × (text.new ++ missing ≡ text.old ++ output_of conf.now.topics outcomes.now)) }
{
    for outcome in outcomes {
        match put_outcome(alloc, text, outcome, conf) {
            Ok(()) => {}
            Err(NoMemory) => return Err(NoMemory),
        }
    }
    Ok(())
}

// Adds the lines of outcomes, and hands all to the output where that is a piece.
fn tell_lines<O: Sink>(
    alloc: Global,
    text: &mut Pieces,
    outcomes: &[Outcome],
    conf: &Config,
    output: &mut O,
) -> Result<(), GenFault>
    requires { All (IsTold conf.now.topics) outcomes.now }
    ensures handed { result ≢ Err GenFault.NoMemory → HandsFull (O.held output.old) (O.held output.new) (O.faults output.old) (O.faults output.new)
        (text.old ++ output_of conf.now.topics outcomes.now) text.new result }
    ensures memory { result ≡ Err GenFault.NoMemory → (output.new ≡ output.old)
        × ((missing : List ℕ) × (text.new ++ missing ≡ text.old ++ output_of conf.now.topics outcomes.now)) }
{
    match put_outcomes(alloc, text, outcomes, conf) {
        Ok(()) => text.hand_full(output),
        Err(NoMemory) => Err(GenFault::NoMemory),
    }
}

// Counts outcomes.
fn tell_numbers(numbers: &mut Summary, outcomes: &[Outcome]) -> Result<(), GenFault>
    ensures ok { OnOk result (numbers.new ≡ joined numbers.old (summary_of outcomes.now)) }
    ensures memory { result ≢ Err GenFault.Write }
{
    match numbers.with(outcomes) {
        Ok(all) => {
            *numbers = all;
            Ok(())
        }
        Err(NoMemory) => Err(GenFault::NoMemory),
    }
}

impl Telling {
    /// Nothing was told yet. It takes no memory.
    pub fn new(alloc: Global, summary: bool) -> Telling
        ensures is { is_summary result ≡ summary }
        ensures none { (topics : List Topic) (start : Held) → Tells topics result start start [] }
    {
        if summary {
            Telling::Numbers {
                numbers: Summary::none(),
            }
        } else {
            Telling::Lines {
                text: Pieces::new(alloc),
            }
        }
    }

    /// Tells of outcomes. Lines are handed on where 65536 bytes and more wait.
    pub fn tell<O: Sink>(
        &mut self,
        alloc: Global,
        outcomes: &[Outcome],
        conf: &Config,
        output: &mut O,
    ) -> Result<(), GenFault>
        requires { All (IsTold conf.now.topics) outcomes.now }
        ensures told { OnOk result (TellsMore conf.now.topics self.old self.new (O.held output.old) (O.held output.new) outcomes.now) }
        ensures memory { result ≡ Err GenFault.NoMemory →
            TellsSome conf.now.topics self.old self.new (O.held output.old) (O.held output.new) outcomes.now }
        ensures write { result ≡ Err GenFault.Write → Rose (O.faults output.old) (O.faults output.new)
            × TellsSomeOf conf.now.topics self.old (O.held output.old) (O.held output.new) outcomes.now }
        ensures counted { result ≢ Err GenFault.Write → O.faults output.new ≡ O.faults output.old }
        ensures same { is_summary self.new ≡ is_summary self.old }
    {
        match self {
            Telling::Lines { text } => tell_lines(alloc, text, outcomes, conf, output),
            Telling::Numbers { numbers } => tell_numbers(numbers, outcomes),
        }
    }

    /// Hands on what waits. At an `Err` the output has taken a front of it.
    pub fn hand_on<O: Sink>(&mut self, output: &mut O) -> Result<(), GenFault>
        ensures still { OnOk result ((topics : List Topic) → TellsStill topics self.old self.new (O.held output.old) (O.held output.new)) }
        ensures all { OnOk result ((topics : List Topic) (start : Held) (outcomes : List Outcome) → Tells topics self.old start (O.held output.old) outcomes
            → Appends start (O.held output.new) (told_so_far topics (is_summary self.old) outcomes)) }
        ensures front { (topics : List Topic) (start : Held) (outcomes : List Outcome) → TellsPart topics self.old start (O.held output.old) outcomes
            → TellsFront topics (is_summary self.old) start (O.held output.new) outcomes }
        ensures write { OnErr result (Rose (O.faults output.old) (O.faults output.new)) }
        ensures counted { OnOk result (O.faults output.new ≡ O.faults output.old) }
        ensures same { is_summary self.new ≡ is_summary self.old }
        ensures last { OnOk result (last_line self.new ≡ last_line self.old) }
    {
        match self {
            Telling::Lines { text } => text.hand_on(output),
            Telling::Numbers { .. } => Ok(()),
        }
    }

    /// Hands on what waits, unless the input needn't be read.
    pub fn hand_before_read<O: Sink>(
        &mut self,
        is_ready: bool,
        output: &mut O,
    ) -> Result<(), GenFault>
        ensures still { OnOk result ((topics : List Topic) → TellsStill topics self.old self.new (O.held output.old) (O.held output.new)) }
        ensures front { OnErr result ((topics : List Topic) (start : Held) (outcomes : List Outcome) → TellsPart topics self.old start (O.held output.old) outcomes
            → TellsFront topics (is_summary self.old) start (O.held output.new) outcomes) }
        ensures write { OnErr result (Rose (O.faults output.old) (O.faults output.new)) }
        ensures counted { OnOk result (O.faults output.new ≡ O.faults output.old) }
        ensures same { is_summary self.new ≡ is_summary self.old }
    {
        if is_ready {
            return Ok(());
        }
        self.hand_on(output)
    }

    /// Writes what is told behind the end of a script: the line of the numbers.
    pub fn write_last<O: Sink>(&self, alloc: Global, output: &mut O) -> Result<(), LineFault>
        ensures { WritesText (O.held output.old) (O.held output.new) (O.faults output.old) (O.faults output.new) (last_line self.now) result }
    {
        match self {
            Telling::Lines { .. } => Ok(()),
            Telling::Numbers { numbers } => write_summary(alloc, *numbers, output),
        }
    }
}
