// The groups of fields that stand in a line from an index on; none where a field is out of its range.
ghost use Rattle.std.specs.Prelude.{◌≡◌};
ghost use Rattle.script_calls.specs.Groups.{number_at, handle_at, limits_at};

use composition_state::registry::CompositionLimits;
use handles::GenerationalHandle;
use script::fields::{FieldType, field};
use script::line::Fields;

pub fn read_field<T: FieldType>(fields: Fields, i: usize) -> Option<T>
    ensures { result ≡ T.value_of (number_at fields i) }
{
    T::from_field(field(fields, i))
}

// H: index, generation.
pub fn handle_field(fields: Fields, i: u32) -> Option<GenerationalHandle>
    ensures { result ≡ handle_at fields i }
{
    let at = i as usize;
    Some(GenerationalHandle {
        index: read_field(fields, at)?,
        generation: read_field(fields, at + 1)?,
    })
}

// The five limits of a start.
pub fn limits_field(fields: Fields, i: u32) -> Option<CompositionLimits>
    ensures { result ≡ limits_at fields i }
{
    let at = i as usize;
    Some(CompositionLimits {
        max_windows: read_field(fields, at)?,
        max_views: read_field(fields, at + 1)?,
        max_surfaces: read_field(fields, at + 2)?,
        max_surfaces_per_view: read_field(fields, at + 3)?,
        max_trace_entries: read_field(fields, at + 4)?,
    })
}
