//! What an engine keeps of the texts that it read.

ghost use Rattle.std.specs.Prelude.{◌≡◌, ◌≤◌, IfOk, OnOk, Option, drop};
ghost use Rattle.txt_core.specs.Names.{Bytes};
ghost use Rattle.parse_cache.specs.Readings.{IsReading};
ghost use Rattle.tcl_eval.specs.Eval.{arg, run_script, unread};
ghost use Rattle.tcl_eval.specs.Engine.{Holds, Enters, Opens, Lower, credit};
ghost use Rattle.tcl_eval.specs.Parameters.{bound};
ghost use Rattle.tcl_eval.specs.ParametersSeen.{ValuesAre};
ghost use Rattle.tcl_eval.specs.Short.{IsShort};
ghost use Rattle.tcl_eval.specs.Clauses.{ActsAs};

use crate::engine::Engine;
use crate::expression_cache::{Expressions, MOST_KEPT, is_short};
use crate::latest::{Latest, find_latest, put_latest};
use crate::message::script_fault;
use crate::parameter::bound_by;
use crate::read_expr::ReadExpr;
use crate::read_parameters::{ReadParameters, find_parameters};
use crate::stack::{Acted, Frame};
use crate::value::{done, error};
use crate::words::copy_word;
use natives::Places;
use parse_cache::{Cache, ReadScript, Reading};
use std::alloc::Global;
use std::marker::Model;
use std::rc::Rc;
use tcl_host::Host;
use txt_core::{NoMemory, Pairs, Text, Words};

/// The scripts, the expressions and the parameters that an engine keeps by their texts, scripts from its
/// first start on. Contracts see nothing of them, as what is kept changes no run.
#[derive(Drop)]
pub(crate) struct Readings {
    scripts: Option<Cache>,
    latest: Latest,
    found: u64,
    expressions: Expressions,
    parameters: Places<ReadParameters>,
}

impl Model for Readings {
    ghost use Rattle.std.specs.Prelude.{⊤};

    ghost Value = { ⊤ };

    ghost view = { λ _. tt };
}

impl Readings {
    /// Nothing is kept yet. It takes no memory.
    pub(crate) fn new(alloc: Global) -> Readings {
        Readings {
            scripts: None,
            latest: Latest::new(alloc),
            found: 0,
            expressions: Expressions::new(alloc),
            parameters: Places::new(alloc),
        }
    }

    /// Begins to keep scripts, where that hasn't begun. The only error is want of memory.
    pub(crate) fn begin(&mut self, alloc: Global) -> Result<(), NoMemory> {
        if self.scripts.is_none() {
            let scripts = Cache::new(alloc, MOST_KEPT)?;
            self.scripts = Some(scripts);
        }
        Ok(())
    }

    /// What a text is as a script; that of a short one is kept. Where memory wants for that, what was
    /// kept is let go, and the text is read with what this frees. The only error is want of memory.
    pub(crate) fn read(&mut self, alloc: Global, text: &Text) -> Result<Reading, NoMemory>
        ensures { IfOk result (λ read. IsReading text.now read) }
    {
        match self.read_kept(alloc, text) {
            Ok(reading) => Ok(reading),
            Err(NoMemory) => {
                self.let_go();
                Reading::of(alloc, text)
            }
        }
    }

    /// What a text is as a script, by what is kept and room for more. The only error is want of memory.
    fn read_kept(&mut self, alloc: Global, text: &Text) -> Result<Reading, NoMemory>
        ensures { IfOk result (λ read. IsReading text.now read) }
    {
        let found = find_latest(&self.latest, text)?;
        if let Some(reading) = found {
            self.found = self.found.saturating_add(1);
            return Ok(reading);
        }
        let Some(scripts) = &mut self.scripts else {
            return Reading::of(alloc, text);
        };
        let reading = read_by(scripts, alloc, text)?;
        self.put_latest(alloc, text, &reading)?;
        Ok(reading)
    }

    /// Puts the script of a short text among those that were run most lately.
    fn put_latest(&mut self, alloc: Global, text: &Text, reading: &Reading) -> Result<(), NoMemory>
        requires { IsReading text.now reading.now }
    {
        if !is_short(text) {
            return Ok(());
        }
        match reading {
            Reading::Fault { .. } => Ok(()),
            Reading::Script(_) => {
                let again = reading.share()?;
                put_latest(alloc, &mut self.latest, text, again)
            }
        }
    }

    /// The word at a place with what it is as a script; the empty text where there is none. The only
    /// error is want of memory.
    pub(crate) fn read_word(
        &mut self,
        alloc: Global,
        words: &Words,
        place: usize,
    ) -> Result<ReadScript, NoMemory>
        ensures { IfOk result (λ read. read ≡ arg words.now place) }
    {
        let text = copy_word(alloc, words, place)?;
        let reading = self.read(alloc, &text)?;
        Ok(ReadScript::with(text, reading))
    }

    /// A text with what it is as an expression, which is read where it isn't kept. Where memory wants,
    /// what was kept is let go, and the text is read with what this frees. The only error is want of
    /// memory.
    pub(crate) fn read_expression(
        &mut self,
        alloc: Global,
        text: &Text,
    ) -> Result<Rc<ReadExpr>, NoMemory>
        ensures { IfOk result (λ read. read.value ≡ text.now) }
    {
        match self.expressions.read(alloc, text) {
            Ok(read) => Ok(read),
            Err(NoMemory) => {
                self.let_go();
                self.expressions.read(alloc, text)
            }
        }
    }

    /// The values of a procedure's parameters, which this text lists, for the words of a call, or the text
    /// of the error. The only other error is want of memory.
    #[tactic(auto, using(crate::proofs::Parameters::bound_read, crate::proofs::Parameters::bound_wrong))]
    pub(crate) fn bind(
        &mut self,
        alloc: Global,
        params: &Text,
        words: &Words,
    ) -> Result<Result<Pairs, Text>, NoMemory>
        ensures { IfOk result (λ found.
            ValuesAre found (bound params.now (arg words.now 0) (drop 1 words.now))) }
    {
        if let Some(all) = find_parameters(&self.parameters, params) {
            let values = bound_by(alloc, all, words)?;
            return Ok(values);
        }
        match ReadParameters::new(alloc, params)? {
            Err(message) => Ok(Err(message)),
            Ok(read) => {
                let values = bound_by(alloc, read.all(), words)?;
                self.keep_parameters(params, read);
                Ok(values)
            }
        }
    }

    /// Keeps the parameters of a short text. Where memory wants, they aren't kept.
    fn keep_parameters(&mut self, text: &Text, read: ReadParameters) {
        if !is_short(text) {
            return;
        }
        let _kept = self.parameters.put(text.bytes(), read);
    }

    /// Lets go all that is kept, as where memory wants. It takes no memory.
    #[cold]
    #[inline(never)]
    pub(crate) fn let_go(&mut self) {
        self.scripts = None;
        self.latest.clear();
        self.found = 0;
        self.expressions.clear();
        self.parameters.clear();
    }

    /// How often a text was read whose script was kept. It takes no memory.
    pub(crate) fn hits(&self) -> u64 {
        match &self.scripts {
            Some(scripts) => scripts.hits().saturating_add(self.found),
            None => 0,
        }
    }
}

/// What a text is as a script, by a cache where it is short enough for one.
fn read_by(scripts: &mut Cache, alloc: Global, text: &Text) -> Result<Reading, NoMemory>
    ensures { IfOk result (λ read. IsReading text.now read) }
{
    if is_short(text) {
        read_short(scripts, text)
    } else {
        Reading::of(alloc, text)
    }
}

/// What a text is as a script, by a cache. The condition is that it is short enough for one.
fn read_short(scripts: &mut Cache, text: &Text) -> Result<Reading, NoMemory>
    requires { IsShort text.now }
    ensures { IfOk result (λ read. IsReading text.now read) }
{
    scripts.read(text)
}

#[tactic(auto, using(crate::proofs::Stacks::frees_push))]
impl<H: Host> Engine<H> {
    /// Runs what a text is as a script.
    fn enter_reading(&mut self, reading: Reading, levels: u32) -> Result<Acted, NoMemory>
        ensures means { IfOk result (λ acted.
            (text : Bytes)
            → IsReading text reading
            → ActsAs H.table acted self.new self.old
            (λ names. run_script names H.table levels (unread text))) }
        ensures lower { OnOk result (Lower self.new self.old 0) }
        ensures enters { IfOk result (λ acted. Enters acted (credit self.new ≤ credit self.old)) }
        ensures opens { IfOk result (λ acted. Opens acted self.new self.old) }
        ensures holds { Holds self.new self.old }
    {
        if levels == 0 {
            return Ok(Acted::TooDeep);
        }
        match reading {
            Reading::Fault { at, kind } => {
                let message = script_fault(self.alloc, kind, at)?;
                Ok(Acted::Gives(error(self.alloc, message)?))
            }
            Reading::Script(script) => {
                self.stack.push(Frame::Script {
                    script,
                    next: 0,
                    levels: levels - 1,
                })?;
                Ok(Acted::Gives(done(self.alloc)))
            }
        }
    }

    /// Runs a text as a script.
    pub(crate) fn enter_text(&mut self, text: &Text, levels: u32) -> Result<Acted, NoMemory>
        ensures means { IfOk result (λ acted.
            ActsAs H.table acted self.new self.old
            (λ names. run_script names H.table levels (unread text.now))) }
        ensures lower { OnOk result (Lower self.new self.old 0) }
        ensures enters { IfOk result (λ acted. Enters acted (credit self.new ≤ credit self.old)) }
        ensures opens { IfOk result (λ acted. Opens acted self.new self.old) }
        ensures holds { Holds self.new self.old }
    {
        let reading = self.readings.read(self.alloc, text)?;
        let acted = self.enter_reading(reading, levels)?;
        Ok(acted)
    }
}
