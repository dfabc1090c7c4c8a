//! Where a request stands.

ghost use Rattle.std.specs.Prelude.{◌≡◌, ◌<◌, ◌+◌, Some, None, IsSome};
ghost use Rattle.stages.specs.Order.{cleanup_from, trace_from, postauth_from, authorisation, preauth_from, filters_from, behind_filters, cut_short, following};
ghost use Rattle.stages.specs.States.{filters_at, IsWithin};

use crate::event::{Counts, Do, Event};
use cmd_table::When;
use std::marker::Model;

impl Counts {
    /// The cleanup script at this place, or else the end.
    fn cleanup_from(&self, index: u32) -> Do
        ensures next { result ≡ cleanup_from self.now index }
        ensures within { IsWithin self.now (Some result) }
    {
        if index < self.cleanup {
            Do::Cleanup { index }
        } else {
            Do::End
        }
    }

    /// The trace filter at this place, or else what comes behind them.
    fn trace_from(&self, index: u32) -> Do
        ensures next { result ≡ trace_from self.now index }
        ensures within { IsWithin self.now (Some result) }
    {
        if index < self.trace {
            Do::Filter {
                when: When::Trace,
                index,
            }
        } else {
            self.cleanup_from(0)
        }
    }

    /// The postauth filter at this place, or else what comes behind them.
    fn postauth_from(&self, index: u32) -> Do
        ensures next { result ≡ postauth_from self.now index }
        ensures within { IsWithin self.now (Some result) }
    {
        if index < self.postauth {
            Do::Filter {
                when: When::Postauth,
                index,
            }
        } else {
            Do::Serve
        }
    }

    /// The authorisation, or else what comes behind it.
    fn authorisation(&self) -> Do
        ensures next { result ≡ authorisation self.now }
        ensures within { IsWithin self.now (Some result) }
    {
        if self.authorise {
            Do::Authorise
        } else {
            self.postauth_from(0)
        }
    }

    /// The preauth filter at this place, or else what comes behind them.
    fn preauth_from(&self, index: u32) -> Do
        ensures next { result ≡ preauth_from self.now index }
        ensures within { IsWithin self.now (Some result) }
    {
        if index < self.preauth {
            Do::Filter {
                when: When::Preauth,
                index,
            }
        } else {
            self.authorisation()
        }
    }

    /// The filter of a stage behind this place, or else what comes behind them.
    fn next_filter(&self, when: When, index: u32) -> Do
        requires { index < filters_at self.now when }
        ensures next { result ≡ filters_from self.now when (index + 1) }
        ensures within { IsWithin self.now (Some result) }
    {
        match when {
            When::Preauth => self.preauth_from(index + 1),
            When::Postauth => self.postauth_from(index + 1),
            When::Trace => self.trace_from(index + 1),
        }
    }

    /// What comes behind the filters of a stage.
    fn behind_filters(&self, when: When) -> Do
        ensures next { result ≡ behind_filters self.now when }
        ensures within { IsWithin self.now (Some result) }
    {
        match when {
            When::Preauth => self.authorisation(),
            When::Postauth => Do::Serve,
            When::Trace => self.cleanup_from(0),
        }
    }

    /// What comes of a filter that has the response written, or fails.
    fn cut_short(&self, when: When, index: u32) -> Do
        requires { index < filters_at self.now when }
        ensures next { result ≡ cut_short self.now when index }
        ensures within { IsWithin self.now (Some result) }
    {
        match when {
            When::Preauth | When::Postauth => Do::Write,
            When::Trace => self.trace_from(index + 1),
        }
    }

    /// What follows a filter.
    fn after_filter(&self, when: When, index: u32, event: Event) -> Do
        requires within { index < filters_at self.now when }
        requires fits { IsSome (following self.now event (Some (Do.Filter when index))) }
        ensures next { Some result ≡ following self.now event (Some (Do.Filter when index)) }
        ensures within { IsWithin self.now (Some result) }
    {
        match event {
            Event::FilterOk => self.next_filter(when, index),
            Event::FilterBreak => self.behind_filters(when),
            _ => self.cut_short(when, index),
        }
    }

    /// What follows the writing of the response.
    fn after_writing(&self, event: Event) -> Do
        requires fits { IsSome (following self.now event (Some Do.Write)) }
        ensures next { Some result ≡ following self.now event (Some Do.Write) }
        ensures within { IsWithin self.now (Some result) }
    {
        match event {
            Event::Written => self.trace_from(0),
            _ => Do::End,
        }
    }

    /// What follows the authorisation.
    fn after_authorisation(&self, event: Event) -> Do
        requires fits { IsSome (following self.now event (Some Do.Authorise)) }
        ensures next { Some result ≡ following self.now event (Some Do.Authorise) }
        ensures within { IsWithin self.now (Some result) }
    {
        match event {
            Event::Allowed => self.postauth_from(0),
            _ => Do::Write,
        }
    }

    /// What follows, by what was asked and what came of it.
    fn following(&self, event: Event, asked: Option<Do>) -> Do
        requires within { IsWithin self.now asked }
        requires fits { IsSome (following self.now event asked) }
        ensures next { Some result ≡ following self.now event asked }
        ensures within { IsWithin self.now (Some result) }
    {
        match asked {
            None => self.preauth_from(0),
            Some(Do::Filter { when, index }) => self.after_filter(when, index, event),
            Some(Do::Authorise) => self.after_authorisation(event),
            Some(Do::Serve) => Do::Write,
            Some(Do::Write) => self.after_writing(event),
            Some(Do::Cleanup { index }) => self.cleanup_from(index + 1),
            Some(Do::End) => unreachable!(),
        }
    }
}

/// Where a request stands. Contracts see what it has at each stage, and what was asked last, if
/// anything.
#[derive(Debug, Drop)]
pub struct Stage {
    counts: Counts,
    asked: Option<Do>,
}

impl Model for Stage {
    ghost use Rattle.stages.specs.States.{State, IsWithin};

    ghost Value = { State };

    ghost view = { λ s. record { counts = s.counts; asked = s.asked } };

    ghost invariant = { λ s. IsWithin s.counts s.asked };
}

impl Stage {
    /// A request of which nothing was asked yet. Its first event is `Begin`.
    pub fn new(counts: Counts) -> Stage
        ensures { result ≡ record { counts = counts; asked = None } }
    {
        Stage {
            counts,
            asked: None,
        }
    }

    /// What is to be done next, by what came of what was asked last.
    ///
    /// The condition is that the event fits that: `Begin` where nothing was asked yet; `FilterOk`,
    /// `FilterBreak`, `FilterReturn` or `Failed` after a filter; `Allowed`, `Denied` or `Failed` after
    /// the authorisation; `Served` or `Failed` after the procedure or page; `Written` or `NotWritten`
    /// after the writing; `Ran` after a cleanup script; and nothing after the end. It takes no memory.
    pub fn next(&mut self, event: Event) -> Do
        requires { IsSome (following self.old.counts event self.old.asked) }
        ensures next { Some result ≡ following self.old.counts event self.old.asked }
        ensures after { self.new ≡ record { counts = self.old.counts; asked = Some result } }
    {
        let next = self.counts.following(event, self.asked);
        self.asked = Some(next);
        next
    }
}
