// Routers damaged in each way of the list in RULES.md, Damage, and odd ones that are not on it. Each is handed to
// route, release_surface and release_all, and the line has the three answers.
use composition_state::registry::CompositionRegistry;
use handles::GenerationalHandle;
use input_events::error::RouterOutcome;
use input_events::event::{
    InputDeviceKind, InputModifiers, KeyInput, KeyPhase, PlatformInputEvent, PlatformInputHeader,
    PlatformInputPayload,
};
use input_router::router::PlatformInputRouter;
use maps::bindings::{Binding, Bindings};
use maps::keys::{BindingKey, DeviceKey, InputDeviceId};
use maps::sequences::{DeviceSequence, DeviceSequences};
use std::io;

fn device(value: u64) -> InputDeviceId {
    InputDeviceId {
        value,
        generation: 1,
    }
}

// Key 30 of device 9 goes up in view 0: a call that every sound router with a place left for the device accepts.
fn key_up() -> PlatformInputEvent {
    let modifiers = InputModifiers {
        shift: false,
        control: false,
        alt: false,
        meta: false,
        caps_lock: false,
        num_lock: false,
    };
    let header = PlatformInputHeader {
        sequence: 1,
        timestamp_micros: 1,
        metrics_revision: 1,
        window: crate::first(0),
        view: crate::first(0),
        device: device(9),
        device_kind: InputDeviceKind::Keyboard,
        modifiers,
    };
    let key = KeyInput {
        phase: KeyPhase::Up,
        physical_key: 30,
        repeat: false,
    };
    PlatformInputEvent {
        header,
        payload: PlatformInputPayload::Key(key),
    }
}

fn route(registry: CompositionRegistry, router: PlatformInputRouter) -> RouterOutcome {
    input_route::route::route(registry, router, key_up()).refusal()
}

fn release_panel(router: PlatformInputRouter) -> RouterOutcome {
    router.release_surface(crate::first(0)).refusal()
}

fn release_all(router: PlatformInputRouter) -> RouterOutcome {
    router.release_all().refusal()
}

// A name and the three answers, each behind a space.
fn ask(
    rt: &impl Print,
    name: &[u8],
    registry: CompositionRegistry,
    router: PlatformInputRouter,
) -> io::Result<()> {
    report(
        rt,
        name,
        route(registry, router),
        release_panel(router),
        release_all(router),
    )
}

fn report(
    rt: &impl Print,
    name: &[u8],
    route: RouterOutcome,
    panel: RouterOutcome,
    all: RouterOutcome,
) -> io::Result<()> {
    let mut line = [0u8; 80];
    let named = answer_text::put::put_bytes(&mut line, 0, name);
    let routed = put_answer(&mut line, named, route);
    let of_panel = put_answer(&mut line, routed, panel);
    let of_all = put_answer(&mut line, of_panel, all);
    let ended = answer_text::put::put_byte(&mut line, of_all, b'\n');
    crate::write_front(rt, &line, ended)
}

fn put_answer(line: &mut [u8], at: usize, outcome: RouterOutcome) -> usize {
    let spaced = answer_text::put::put_byte(line, at, b' ');
    answer_text::put::put_u64(line, spaced, records::error::number(outcome))
}

fn key_press(value: u64, physical_key: u32, surface: GenerationalHandle) -> Binding {
    let key = DeviceKey {
        device: device(value),
        physical_key,
    };
    Binding {
        key: BindingKey::Key(key),
        surface,
    }
}

fn with_presses(
    router: PlatformInputRouter,
    first: Binding,
    second: Binding,
    len: usize,
) -> PlatformInputRouter {
    let mut presses = router.bindings;
    presses.table.items[0] = first;
    presses.table.items[1] = second;
    presses.table.len = len;
    router.with_bindings(presses)
}

fn with_devices(
    router: PlatformInputRouter,
    first: u64,
    second: u64,
    len: usize,
) -> PlatformInputRouter {
    let mut sequences = router.device_sequences;
    sequences.table.items[0] = DeviceSequence {
        device: device(first),
        sequence: 5,
    };
    sequences.table.items[1] = DeviceSequence {
        device: device(second),
        sequence: 5,
    };
    sequences.table.len = len;
    router.with_sequences(sequences)
}

fn with_limit(router: PlatformInputRouter, limit: u64) -> PlatformInputRouter {
    let mut next = router;
    next.max_active_bindings = limit;
    next
}

// Two devices are known, and each of two panels holds a key of the first.
pub fn base() -> PlatformInputRouter {
    let started = PlatformInputRouter::new(4);
    let low = key_press(7, 30, crate::first(0));
    let high = key_press(7, 31, crate::first(1));
    with_devices(with_presses(started.router, low, high, 2), 7, 8, 2)
}

// Two presses whose keys fall.
pub fn with_falling_keys() -> PlatformInputRouter {
    let high = key_press(7, 31, crate::first(0));
    let low = key_press(7, 30, crate::first(1));
    with_presses(base(), high, low, 2)
}

fn ask_with_presses(
    rt: &impl Print,
    name: &[u8],
    registry: CompositionRegistry,
    low: u32,
    high: u32,
    len: usize,
) -> io::Result<()> {
    let first = key_press(7, low, crate::first(0));
    let second = key_press(7, high, crate::first(1));
    ask(rt, name, registry, with_presses(base(), first, second, len))
}

fn ask_with_devices(
    rt: &impl Print,
    name: &[u8],
    registry: CompositionRegistry,
    low: u64,
    high: u64,
    len: usize,
) -> io::Result<()> {
    ask(rt, name, registry, with_devices(base(), low, high, len))
}

fn ask_with_limit(
    rt: &impl Print,
    name: &[u8],
    registry: CompositionRegistry,
    limit: u64,
    presses: usize,
) -> io::Result<()> {
    let low = key_press(7, 30, crate::first(0));
    let high = key_press(7, 31, crate::first(1));
    let counted = with_presses(base(), low, high, presses);
    ask(rt, name, registry, with_limit(counted, limit))
}

fn ask_limits(rt: &impl Print, registry: CompositionRegistry) -> io::Result<()> {
    ask_with_limit(rt, b"router: a limit of 0, no presses", registry, 0, 0)?;
    ask_with_limit(rt, b"router: a limit over the port's", registry, 129, 2)?;
    ask_with_limit(rt, b"presses: a count over the table", registry, 128, 129)?;
    ask_with_limit(rt, b"presses: a count over the limit", registry, 1, 2)
}

fn ask_keys(rt: &impl Print, registry: CompositionRegistry) -> io::Result<()> {
    ask_with_presses(rt, b"presses: equal keys", registry, 30, 30, 2)?;
    ask_with_presses(rt, b"presses: falling keys", registry, 31, 30, 2)?;
    ask_with_devices(
        rt,
        b"device sequences: a count over the table",
        registry,
        7,
        8,
        33,
    )?;
    ask_with_devices(rt, b"device sequences: equal keys", registry, 7, 7, 2)?;
    ask_with_devices(rt, b"device sequences: falling keys", registry, 8, 7, 2)
}

// A press of a panel that never was, held by a device that is not known.
fn ask_strange_press(
    rt: &impl Print,
    name: &[u8],
    registry: CompositionRegistry,
) -> io::Result<()> {
    let first = key_press(5, 30, crate::first(60));
    let second = key_press(6, 30, crate::first(60));
    ask(rt, name, registry, with_presses(base(), first, second, 2))
}

// Keys that fall and repeat behind the counts.
fn with_garbage(bindings: Bindings, sequences: DeviceSequences) -> PlatformInputRouter {
    let mut presses = bindings;
    presses.table.items[100] = key_press(0, 0, crate::first(0));
    let mut known = sequences;
    known.table.items[20] = DeviceSequence {
        device: device(0),
        sequence: 0,
    };
    base().with_bindings(presses).with_sequences(known)
}

fn ask_garbage(rt: &impl Print, name: &[u8], registry: CompositionRegistry) -> io::Result<()> {
    let router = base();
    ask(
        rt,
        name,
        registry,
        with_garbage(router.bindings, router.device_sequences),
    )
}

fn ask_odd(rt: &impl Print, registry: CompositionRegistry) -> io::Result<()> {
    ask_with_limit(rt, b"odd: as many presses as the limit", registry, 2, 2)?;
    ask_with_limit(rt, b"odd: a limit of 128", registry, 128, 2)?;
    ask_strange_press(
        rt,
        b"odd: a press of no panel by an unknown device",
        registry,
    )?;
    ask_with_devices(rt, b"odd: a known device 0", registry, 0, 8, 2)?;
    ask_garbage(rt, b"odd: garbage in a router's unused places", registry)
}

pub fn ask_all(rt: &impl Print, registry: CompositionRegistry) -> io::Result<()> {
    ask(rt, b"router: sound", registry, base())?;
    ask_limits(rt, registry)?;
    ask_keys(rt, registry)?;
    ask_odd(rt, registry)
}
