// Views: their records, and the table of these by slot.
#![tactic(auto, unfolding(lists::specs::Tables::packed))]

ghost use Rattle.std.specs.Prelude.{◌≡◌};
ghost use Rattle.records.specs.declared.error.CompositionError.TheVariants.{InvalidView, StaleView};
ghost use Rattle.records.specs.Views.{fresh_view, no_view, with_metrics, with_layers, with_focus, with_pointer_capture, with_pointer_captures, with_ime, input_state};

use crate::error::CompositionError;
use crate::layers::Layers;
use crate::slot_table::{SlotRecord, SlotTable};
use geometry::metrics::ViewMetrics;
use handles::GenerationalHandle;
use lists::table::{Blank, Table};
use maps::captures::{Capture, PointerCaptures};

#[derive(Clone, Copy)]
pub struct ViewRecord {
    pub window: GenerationalHandle,
    pub metrics: ViewMetrics,
    pub surfaces: Layers,
    pub focus: Option<GenerationalHandle>,
    pub pointer_capture: Option<GenerationalHandle>,
    pub pointer_captures: PointerCaptures,
    pub ime: Option<GenerationalHandle>,
}

#[derive(Clone, Copy)]
pub struct ViewInputState {
    pub focused: Option<GenerationalHandle>,
    pub pointer_capture: Option<GenerationalHandle>,
    pub ime: Option<GenerationalHandle>,
}

// The slots of the views, and a record for each slot.
pub type ViewTable = SlotTable<ViewRecord, 16>;

impl Blank for ViewRecord {
    ghost BLANK = { no_view };

    const BLANK: Self = ViewRecord {
        window: GenerationalHandle::ZERO,
        metrics: ViewMetrics::DEFAULT,
        surfaces: Table {
            items: [GenerationalHandle::ZERO; 16],
            len: 0,
        },
        focus: None,
        pointer_capture: None,
        pointer_captures: PointerCaptures {
            table: Table {
                items: [Capture::ZERO; 32],
                len: 0,
            },
        },
        ime: None,
    };
}

impl SlotRecord for ViewRecord {
    ghost INVALID = { InvalidView };

    const INVALID: CompositionError = CompositionError::InvalidView;

    ghost STALE = { StaleView };

    const STALE: CompositionError = CompositionError::StaleView;
}

impl ViewRecord {
    // A view of a window with no panel, focus, capture or composition.
    pub fn new(window: GenerationalHandle) -> Self
        ensures { result ≡ fresh_view window }
    {
        ViewRecord {
            window,
            ..ViewRecord::BLANK
        }
    }

    pub fn with_metrics(self, metrics: ViewMetrics) -> Self
        ensures { result ≡ with_metrics metrics self }
    {
        Self { metrics, ..self }
    }

    pub fn with_surfaces(self, surfaces: Layers) -> Self
        ensures { result ≡ with_layers surfaces self }
    {
        Self { surfaces, ..self }
    }

    pub fn with_pointer_captures(self, pointer_captures: PointerCaptures) -> Self
        ensures { result ≡ with_pointer_captures pointer_captures self }
    {
        Self {
            pointer_captures,
            ..self
        }
    }

    pub fn with_focus(self, focus: Option<GenerationalHandle>) -> Self
        ensures { result ≡ with_focus focus self }
    {
        Self { focus, ..self }
    }

    pub fn with_pointer_capture(self, pointer_capture: Option<GenerationalHandle>) -> Self
        ensures { result ≡ with_pointer_capture pointer_capture self }
    {
        Self {
            pointer_capture,
            ..self
        }
    }

    pub fn with_ime(self, ime: Option<GenerationalHandle>) -> Self
        ensures { result ≡ with_ime ime self }
    {
        Self { ime, ..self }
    }

    pub fn input_state(self) -> ViewInputState
        ensures { result ≡ input_state self }
    {
        ViewInputState {
            focused: self.focus,
            pointer_capture: self.pointer_capture,
            ime: self.ime,
        }
    }
}
