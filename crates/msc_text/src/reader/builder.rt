//! What the lines of a chart's text build. All names are known then, and no line has a fault by itself. So the only
//! possible fault is a partner that is no instance.
ghost use Rattle.std.specs.Prelude.{◌≡◌, ◌⊎◌, Ok, IfOk, OnOk, OnErr};
ghost use Rattle.chart.specs.Charts.{IsNumbered};
ghost use Rattle.chart.specs.Events.{region_of, MayHaveRegion};
ghost use Rattle.texts.specs.Faults.{Gives, in_line};
ghost use Rattle.msc_text.specs.Reader.Builders.{blank, pushed, next_region, with_event, with_head, with_foot};
ghost use Rattle.msc_text.specs.Reader.Builders.{with_coregion, with_send, with_receive, built, IsRight};

use crate::reader::state::Saying;
use chart::{Event, InstanceNo, Line, LineError, MAX_EVENTS, Name, Names};
use std::alloc::{AllocError, Global};
use std::marker::Model;
use texts::{TextError, at_line, known_in};

/// A chart that is being built: the lines that are complete, and the line that is being built. A contract sees a record
/// of its fields.
#[derive(Debug, Drop)]
pub(crate) struct Builder {
    lines: Vec<Line>,
    /// The line that is being built, inside an instance.
    line: Option<Line>,
    /// The open coregion of that line, or 0 if none is open.
    open_region: u32,
}

impl Model for Builder {
    ghost use Rattle.msc_text.specs.Reader.Builders.{BuilderView, IsBuilder};

    ghost Value = { BuilderView };

    ghost view = { λ d. record { lines = d.lines.items; line = d.line; open_region = d.open_region } };

    ghost invariant = { λ d. IsBuilder (record { lines = d.lines.items; line = d.line; open_region = d.open_region }) };
}

/// Adds an event to a line that accepts it: its partner is another instance, and there is room. It fails only if there
/// is no memory.
#[tactic(auto, unfolding(crate::specs::Reader::Builders::pushed))]
fn push(line: &mut Line, event: Event) -> Result<(), AllocError>
    requires region { MayHaveRegion line.old.events (region_of event) }
    requires right { IsRight (pushed line.old event) }
    ensures ok { OnOk result (pushed line.old event ≡ Ok line.new) }
    ensures err { OnErr result (line.new ≡ line.old) }
{
    match line.push(event) {
        Ok(()) => Ok(()),
        Err(LineError::Memory) => Err(AllocError),
        Err(LineError::ToItself | LineError::LineFull) => unreachable!(),
    }
}

/// The number of a line's next coregion.
fn next_region(line: &Line) -> u32
    ensures { result ≡ next_region line.now }
{
    prove!(line.len() <= MAX_EVENTS);
    line.greatest_region() + 1
}

impl Builder {
    /// Makes a builder with no lines. It takes no memory.
    pub(crate) fn new(alloc: Global) -> Builder
        ensures { result ≡ blank }
    {
        Builder {
            lines: Vec::new(alloc),
            line: None,
            open_region: 0,
        }
    }

    /// The lines that are complete.
    pub(crate) fn into_lines(self) -> Vec<Line>
        ensures lines { result.items ≡ self.lines }
        ensures numbered { IsNumbered result.items }
    {
        let Builder { lines, .. } = self;
        lines
    }

    /// The open coregion, or 0 if none is open.
    pub(crate) fn open_region(&self) -> u32
        ensures { result ≡ self.now.open_region }
    {
        self.open_region
    }

    /// Begins the line of the next instance.
    fn with_head(self, alloc: Global) -> Builder
        requires { IsRight (with_head self) }
        ensures { with_head self ≡ Ok result }
    {
        let Builder { lines, .. } = self;
        let instance = InstanceNo::at_place(lines.len());
        Builder {
            lines,
            line: Some(Line::new(alloc, instance)),
            open_region: 0,
        }
    }

    /// Completes the line that is being built. It fails only if there is no memory.
    fn with_foot(self) -> Result<Builder, AllocError>
        requires { IsRight (with_foot self self.line) }
        ensures { IfOk result (λ d. with_foot self self.line ≡ Ok d) }
    {
        let Builder {
            mut lines,
            line,
            ..
        } = self;
        let Some(line) = line else { unreachable!() };
        lines.push(line)?;
        Ok(Builder {
            lines,
            line: None,
            open_region: 0,
        })
    }

    /// Adds an event to the line that is being built, in the open coregion or in none. It fails only if there is no
    /// memory.
    pub(crate) fn add_event(&mut self, event: Event) -> Result<(), AllocError>
        requires region { (region_of event ≡ 0) ⊎ (region_of event ≡ self.old.open_region) }
        requires right { IsRight (with_event self.old self.old.line event) }
        ensures { IfOk result (λ _. with_event self.old self.old.line event ≡ Ok self.new) }
    {
        let Some(line) = &mut self.line else {
            unreachable!()
        };
        push(line, event)?;
        self.open_region = event.region();
        Ok(())
    }

    /// Begins the next coregion of the line that is being built.
    fn with_coregion(self) -> Builder
        requires { IsRight (with_coregion self self.line) }
        ensures { with_coregion self self.line ≡ Ok result }
    {
        let Builder { lines, line, .. } = self;
        let Some(line) = line else { unreachable!() };
        let open_region = next_region(&line);
        Builder {
            lines,
            line: Some(line),
            open_region,
        }
    }

    /// Ends the open coregion.
    fn without_coregion(mut self) -> Builder
        ensures { result ≡ record self { open_region = 0 } }
    {
        self.open_region = 0;
        self
    }

    /// Adds a send. F23 refuses a receiver that is no instance.
    #[tactic(auto, unfolding(crate::specs::Reader::Builders::with_send))]
    fn with_send(
        mut self,
        names: &Names,
        number: u64,
        to: Name,
        name: Name,
    ) -> Result<Builder, TextError>
        requires { IsRight (with_send names.now self to name) }
        ensures { Gives (λ d. d) result (in_line number (with_send names.now self to name)) }
    {
        let to = at_line(number, known_in(names, to))?;
        self.add_event(Event::Send { to, name })?;
        Ok(self)
    }

    /// Adds a receive, in the open coregion. F23 refuses a sender that is no instance.
    #[tactic(auto, unfolding(crate::specs::Reader::Builders::with_receive))]
    fn with_receive(
        mut self,
        names: &Names,
        number: u64,
        from: Name,
        name: Name,
    ) -> Result<Builder, TextError>
        requires { IsRight (with_receive names.now self from name) }
        ensures { Gives (λ d. d) result (in_line number (with_receive names.now self from name)) }
    {
        let from = at_line(number, known_in(names, from))?;
        let region = self.open_region;
        self.add_event(Event::Receive { from, name, region })?;
        Ok(self)
    }

    /// Adds what a line means. The line has this number.
    pub(crate) fn with(
        self,
        alloc: Global,
        names: &Names,
        number: u64,
        saying: Saying,
    ) -> Result<Builder, TextError>
        requires { IsRight (built names.now self saying) }
        ensures { Gives (λ d. d) result (in_line number (built names.now self saying)) }
    {
        match saying {
            Saying::Begin | Saying::End => Ok(self),
            Saying::Head(_) => Ok(self.with_head(alloc)),
            Saying::Send { to, name } => self.with_send(names, number, to, name),
            Saying::Receive { from, name } => self.with_receive(names, number, from, name),
            Saying::Open => Ok(self.with_coregion()),
            Saying::Shut => Ok(self.without_coregion()),
            Saying::Foot => Ok(self.with_foot()?),
        }
    }
}
