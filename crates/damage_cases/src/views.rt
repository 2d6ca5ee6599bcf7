// A view whose window, layers or captures are damaged.
use composition_state::registry::CompositionRegistry;
use maps::captures::PointerCaptures;
use records::layers::Layers;
use records::view::ViewRecord;
use std::io;

// View 0 with another record.
fn ask(
    rt: &impl Print,
    name: &[u8],
    mut registry: CompositionRegistry,
    record: ViewRecord,
) -> io::Result<()> {
    registry.views = registry.views.with_record(crate::first(0), record);
    crate::ask(rt, name, registry)
}

fn with_layers(layers: Layers, low: u32, high: u32, len: usize) -> Layers {
    let mut next = layers;
    next.items[0] = crate::first(low);
    next.items[1] = crate::first(high);
    next.len = len;
    next
}

fn with_equal_keys(captures: PointerCaptures) -> PointerCaptures {
    let mut next = captures;
    let entry = next.table.items[0];
    next.table.items[1] = entry;
    next
}

fn ask_window(
    rt: &impl Print,
    name: &[u8],
    registry: CompositionRegistry,
    mut record: ViewRecord,
) -> io::Result<()> {
    record.window = crate::first(1);
    ask(rt, name, registry, record)
}

fn ask_layers(
    rt: &impl Print,
    name: &[u8],
    registry: CompositionRegistry,
    mut record: ViewRecord,
    low: u32,
    high: u32,
    len: usize,
) -> io::Result<()> {
    record.surfaces = with_layers(record.surfaces, low, high, len);
    ask(rt, name, registry, record)
}

fn ask_capture_count(
    rt: &impl Print,
    name: &[u8],
    registry: CompositionRegistry,
    mut record: ViewRecord,
) -> io::Result<()> {
    record.pointer_captures.table.len = 33;
    ask(rt, name, registry, record)
}

fn ask_capture_keys(
    rt: &impl Print,
    name: &[u8],
    registry: CompositionRegistry,
    mut record: ViewRecord,
) -> io::Result<()> {
    record.pointer_captures = with_equal_keys(record.pointer_captures);
    ask(rt, name, registry, record)
}

pub fn ask_all(rt: &impl Print, registry: CompositionRegistry) -> io::Result<()> {
    let record = registry.views.record(crate::first(0));
    ask_window(rt, b"view: its window not live", registry, record)?;
    ask_layers(
        rt,
        b"layers: a count over the limit",
        registry,
        record,
        0,
        1,
        5,
    )?;
    ask_layers(rt, b"layers: a panel twice", registry, record, 1, 1, 2)?;
    ask_layers(rt, b"layers: a panel not live", registry, record, 0, 5, 2)?;
    ask_layers(
        rt,
        b"layers: a panel of another view",
        registry,
        record,
        0,
        2,
        2,
    )?;
    ask_layers(rt, b"layers: not in layer order", registry, record, 1, 0, 2)?;
    ask_capture_count(rt, b"captures: a count over the table", registry, record)?;
    ask_capture_keys(rt, b"captures: keys that do not rise", registry, record)
}
