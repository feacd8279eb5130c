// The calendar of a network.
ghost use Rattle.std.specs.Prelude.{◌≡◌, ◌^◌, ◌<◌, length, None, IfOk, IfErr, OnOk};
ghost use Rattle.network_model.specs.declared.network.Pause.TheVariants.{Orders, Shipments, Receipts};
ghost use Rattle.network_model.specs.Pauses.{is_paused, overlapping_span};
ghost use Rattle.disruption.specs.Calendars.{PausesAlike, IsRefusal};

use crate::table::{is_held, put};
use fraction128::Memory;
use network_model::{Pause, Span, overlapping_span};
use std::alloc::Global;
use std::marker::Model;
use thiserror::Error;

/// Why spans make no calendar.
#[derive(Clone, Copy, Debug, PartialEq, Eq, Error)]
pub enum CalendarErr {
    /// The first pause, from 1, that shares node, kind and a period with an earlier one.
    #[error("pause {0} shares a period with an earlier one")]
    Overlap(u32),
    /// There was no memory for the calendar.
    #[error("out of memory")]
    Memory,
}

impl From<Memory> for CalendarErr {
    ghost use Rattle.disruption.specs.declared.calendar.CalendarErr.TheVariants.{Memory};

    ghost from_gives = { λ _ e. e ≡ Memory };

    fn from(_refused: Memory) -> CalendarErr {
        CalendarErr::Memory
    }
}

/// What is paused at which node in which period. Contracts see it as spans that say so.
#[derive(Drop)]
pub struct Calendar {
    // Spans that hold a period, by node, kind and period. A question looks up the last that begins in time.
    spans: Vec<Span>,
}

impl Model for Calendar {
    ghost use Rattle.std.specs.Prelude.{List};
    ghost use Rattle.network_model.specs.declared.network.Span.{Span};
    ghost use Rattle.disruption.specs.Tables.{IsTable};

    ghost Value = { List Span };

    ghost view = { λ c. c.spans.items };

    ghost invariant = { λ c. IsTable c.spans.items };
}

impl Calendar {
    /// The calendar of these spans.
    pub fn new(alloc: Global, spans: &[Span]) -> Result<Calendar, CalendarErr>
        requires { length spans.now < 2 ^ 32 }
        ensures ok { IfOk result (λ calendar. PausesAlike calendar spans.now) }
        ensures apart { OnOk result (overlapping_span spans.now ≡ None) }
        ensures refused { IfErr result (IsRefusal spans.now) }
    {
        if let Some(place) = overlapping_span(spans) {
            return Err(CalendarErr::Overlap(place));
        }
        let mut table = Vec::new(alloc);
        for span in spans {
            if span.from <= span.to {
                put(&mut table, *span)?;
            }
        }
        Ok(Calendar { spans: table })
    }

    /// Whether the node orders nothing in period t.
    pub fn orders_paused(&self, node: u32, t: u32) -> bool
        ensures { result ≡ is_paused self.now Orders node t }
    {
        self.is_paused(Pause::Orders, node, t)
    }

    /// Whether the node serves nobody in period t.
    pub fn shipments_paused(&self, node: u32, t: u32) -> bool
        ensures { result ≡ is_paused self.now Shipments node t }
    {
        self.is_paused(Pause::Shipments, node, t)
    }

    /// Whether the node takes nothing in in period t.
    pub fn receipts_paused(&self, node: u32, t: u32) -> bool
        ensures { result ≡ is_paused self.now Receipts node t }
    {
        self.is_paused(Pause::Receipts, node, t)
    }

    fn is_paused(&self, what: Pause, node: u32, t: u32) -> bool
        ensures { result ≡ is_paused self.now what node t }
    {
        is_held(&self.spans, what, node, t)
    }
}
