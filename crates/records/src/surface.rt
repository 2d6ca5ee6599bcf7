// Panels (the Rust's surfaces): what describes them, and the table of their records by slot.
ghost use Rattle.std.specs.Prelude.{◌≡◌};
ghost use Rattle.records.specs.declared.error.CompositionError.TheVariants.{InvalidSurface, StaleSurface};
ghost use Rattle.records.specs.Surfaces.{no_surface, is_interactive, descriptor_of, with_geometry, with_input};

use crate::error::CompositionError;
use crate::slot_table::{SlotRecord, SlotTable};
use geometry::surface::SurfaceGeometry;
use geometry::transform::SurfaceTransform;
use handles::GenerationalHandle;
use lists::table::Blank;

#[derive(Clone, Copy)]
pub enum SurfaceKind {
    Game,
    Ui,
    Diagnostics,
}

#[derive(Clone, Copy)]
pub enum SurfaceInputPolicy {
    Observe,
    Passthrough,
    Interactive,
    Exclusive,
}

#[derive(Clone, Copy)]
pub struct SurfaceDescriptor {
    pub view: GenerationalHandle,
    pub kind: SurfaceKind,
    pub z_order: i32,
    pub input: SurfaceInputPolicy,
    pub accepts_text: bool,
    pub geometry: SurfaceGeometry,
}

#[derive(Clone, Copy)]
pub struct SurfaceRecord {
    pub descriptor: SurfaceDescriptor,
}

// The slots of the panels, and a record for each slot.
pub type SurfaceTable = SlotTable<SurfaceRecord, 64>;

impl SurfaceDescriptor {
    // What stands in an unused place.
    pub const ZERO: Self = SurfaceDescriptor {
        view: GenerationalHandle::ZERO,
        kind: SurfaceKind::Game,
        z_order: 0,
        input: SurfaceInputPolicy::Observe,
        accepts_text: false,
        geometry: SurfaceGeometry {
            bounds: None,
            clip: None,
            transform: SurfaceTransform {
                m11_q16: 0,
                m12_q16: 0,
                m21_q16: 0,
                m22_q16: 0,
                translate_x_milli: 0,
                translate_y_milli: 0,
            },
            opacity_q16: 0,
            hit_test_enabled: false,
        },
    };
}

impl Blank for SurfaceDescriptor {
    ghost BLANK = { no_surface.descriptor };

    const BLANK: Self = Self::ZERO;
}

impl Blank for SurfaceRecord {
    ghost BLANK = { no_surface };

    const BLANK: Self = SurfaceRecord {
        descriptor: SurfaceDescriptor::ZERO,
    };
}

impl SlotRecord for SurfaceRecord {
    ghost INVALID = { InvalidSurface };

    const INVALID: CompositionError = CompositionError::InvalidSurface;

    ghost STALE = { StaleSurface };

    const STALE: CompositionError = CompositionError::StaleSurface;
}

// Whether a policy takes focus, captures and shortcuts.
pub fn is_interactive(input: SurfaceInputPolicy) -> bool
    ensures { result ≡ is_interactive input }
{
    matches!(
        input,
        SurfaceInputPolicy::Interactive | SurfaceInputPolicy::Exclusive
    )
}

impl SurfaceRecord {
    pub fn with_geometry(self, geometry: SurfaceGeometry) -> Self
        ensures { result ≡ with_geometry geometry self }
    {
        SurfaceRecord {
            descriptor: SurfaceDescriptor {
                geometry,
                ..self.descriptor
            },
        }
    }

    pub fn with_input(self, input: SurfaceInputPolicy) -> Self
        ensures { result ≡ with_input input self }
    {
        SurfaceRecord {
            descriptor: SurfaceDescriptor {
                input,
                ..self.descriptor
            },
        }
    }
}

impl SlotTable<SurfaceRecord, 64> {
    pub fn descriptor(&self, surface: GenerationalHandle) -> SurfaceDescriptor
        ensures { result ≡ descriptor_of self.now surface }
    {
        self.record(surface).descriptor
    }
}
