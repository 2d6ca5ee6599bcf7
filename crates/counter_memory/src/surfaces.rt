// Panels (the Rust's surfaces): their geometry, their records, and the table of these by slot.
ghost use Rattle.std.specs.Prelude.{◌≡◌};
ghost use Rattle.counter_memory.specs.Surfaces.{geometry_memory, geometry_of, surface_memory, surface_of, surfaces_memory, surfaces_of};

use crate::arrays::converted;
use crate::optionals::OptionalRectMemory;
use call_fields::numbered::Numbered;
use geometry::surface::SurfaceGeometry;
use geometry::transform::SurfaceTransform;
use handles::GenerationalHandle;
use handles::arena::Arena;
use records::surface::{
    SurfaceDescriptor, SurfaceInputPolicy, SurfaceKind, SurfaceRecord, SurfaceTable,
};

#[repr(C)]
#[derive(Clone, Copy)]
pub struct SurfaceGeometryMemory {
    pub bounds: OptionalRectMemory,
    pub clip: OptionalRectMemory,
    pub transform: SurfaceTransform,
    pub opacity_q16: u16,
    pub hit_test_enabled: bool,
}

// A record's only field is its descriptor, so the descriptor's fields stand here.
#[repr(C)]
#[derive(Clone, Copy)]
pub struct SurfaceRecordMemory {
    pub view: GenerationalHandle,
    pub kind: u8,
    pub z_order: i32,
    pub input: u8,
    pub accepts_text: bool,
    pub geometry: SurfaceGeometryMemory,
}

// A struct of its own, since C hands in no table with parameters.
#[repr(C)]
#[derive(Clone, Copy)]
pub struct SurfaceTableMemory {
    pub arena: Arena,
    pub records: [SurfaceRecordMemory; 64],
}

impl From<SurfaceGeometry> for SurfaceGeometryMemory {
    ghost from_gives = { λ geometry memory. memory ≡ geometry_memory geometry };

    fn from(geometry: SurfaceGeometry) -> Self {
        Self {
            bounds: geometry.bounds.into(),
            clip: geometry.clip.into(),
            transform: geometry.transform,
            opacity_q16: geometry.opacity_q16,
            hit_test_enabled: geometry.hit_test_enabled,
        }
    }
}

impl From<SurfaceGeometryMemory> for SurfaceGeometry {
    ghost from_gives = { λ memory geometry. geometry ≡ geometry_of memory };

    fn from(memory: SurfaceGeometryMemory) -> Self {
        Self {
            bounds: memory.bounds.into(),
            clip: memory.clip.into(),
            transform: memory.transform,
            opacity_q16: memory.opacity_q16,
            hit_test_enabled: memory.hit_test_enabled,
        }
    }
}

impl From<SurfaceRecord> for SurfaceRecordMemory {
    ghost from_gives = { λ surface memory. memory ≡ surface_memory surface };

    fn from(surface: SurfaceRecord) -> Self {
        let descriptor = surface.descriptor;
        Self {
            view: descriptor.view,
            kind: descriptor.kind as u8,
            z_order: descriptor.z_order,
            input: descriptor.input as u8,
            accepts_text: descriptor.accepts_text,
            geometry: SurfaceGeometryMemory::from(descriptor.geometry),
        }
    }
}

impl From<SurfaceRecordMemory> for SurfaceRecord {
    ghost from_gives = { λ memory surface. surface ≡ surface_of memory };

    fn from(memory: SurfaceRecordMemory) -> Self {
        Self {
            descriptor: SurfaceDescriptor {
                view: memory.view,
                kind: SurfaceKind::from_number(u64::from(memory.kind)),
                z_order: memory.z_order,
                input: SurfaceInputPolicy::from_number(u64::from(memory.input)),
                accepts_text: memory.accepts_text,
                geometry: SurfaceGeometry::from(memory.geometry),
            },
        }
    }
}

impl From<SurfaceTable> for SurfaceTableMemory {
    ghost from_gives = { λ surfaces memory. memory ≡ surfaces_memory surfaces };

    fn from(surfaces: SurfaceTable) -> Self {
        Self {
            arena: surfaces.arena,
            records: converted(&surfaces.records),
        }
    }
}

impl From<SurfaceTableMemory> for SurfaceTable {
    ghost from_gives = { λ memory surfaces. surfaces ≡ surfaces_of memory };

    fn from(memory: SurfaceTableMemory) -> Self {
        Self {
            arena: memory.arena,
            records: converted(&memory.records),
        }
    }
}
