// Optional handles and rectangles: a flag and the value, which is all zeros where there is none. Beside a false flag
// the value is not read.
// Each is a struct of its own, since C hands in none with a type parameter.
ghost use Rattle.std.specs.Prelude.{◌≡◌};
ghost use Rattle.counter_memory.specs.Optionals.{optional_handle_memory, optional_handle_of, optional_rect_memory, optional_rect_of};

use geometry::rect::SurfaceRect;
use handles::GenerationalHandle;

#[repr(C)]
#[derive(Clone, Copy)]
pub struct OptionalHandleMemory {
    pub is_some: bool,
    pub handle: GenerationalHandle,
}

#[repr(C)]
#[derive(Clone, Copy)]
pub struct OptionalRectMemory {
    pub is_some: bool,
    pub rect: SurfaceRect,
}

impl From<Option<GenerationalHandle>> for OptionalHandleMemory {
    ghost from_gives = { λ value memory. memory ≡ optional_handle_memory value };

    fn from(value: Option<GenerationalHandle>) -> Self {
        Self {
            is_some: value.is_some(),
            handle: value.unwrap_or(GenerationalHandle::ZERO),
        }
    }
}

impl From<OptionalHandleMemory> for Option<GenerationalHandle> {
    ghost from_gives = { λ memory value. value ≡ optional_handle_of memory };

    fn from(memory: OptionalHandleMemory) -> Self {
        memory.is_some.then_some(memory.handle)
    }
}

impl From<Option<SurfaceRect>> for OptionalRectMemory {
    ghost from_gives = { λ value memory. memory ≡ optional_rect_memory value };

    fn from(value: Option<SurfaceRect>) -> Self {
        Self {
            is_some: value.is_some(),
            rect: value.unwrap_or(SurfaceRect {
                x_milli: 0,
                y_milli: 0,
                width_milli: 0,
                height_milli: 0,
            }),
        }
    }
}

impl From<OptionalRectMemory> for Option<SurfaceRect> {
    ghost from_gives = { λ memory value. value ≡ optional_rect_of memory };

    fn from(memory: OptionalRectMemory) -> Self {
        memory.is_some.then_some(memory.rect)
    }
}
