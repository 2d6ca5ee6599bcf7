// The verbs of a script, by name. Those of windows, input, closing and reads have the numbers of their calls.
ghost use Rattle.std.specs.Prelude.{◌≡◌, map};
ghost use Rattle.script.specs.Verbs.{verb_of, verb_named};

// The script's own: digests, a new registry, a new router, dumps.
#[derive(Clone, Copy)]
pub enum SessionVerb {
    Digest,
    New,
    NewAt,
    Router,
    State,
    RouterState,
}

// Windows, views and panels.
#[derive(Clone, Copy)]
pub enum PanelVerb {
    CreateWindow = 0,
    CloseWindow,
    CreateView,
    UpdateViewMetrics,
    CloseView,
    AttachSurface,
    UpdateSurfaceGeometry,
    UpdateSurfaceInputPolicy,
}

// Focus, captures and the input method.
#[derive(Clone, Copy)]
pub enum InputVerb {
    SetFocus = 8,
    CapturePointer,
    CapturePointerFor,
    ReleasePointer,
    ReleasePointerFor,
    BeginIme,
    EndIme,
    SuspendViewInput,
}

#[derive(Clone, Copy)]
pub enum CloseVerb {
    CloseSurface = 21,
    Shutdown,
}

#[derive(Clone, Copy)]
pub enum RouterVerb {
    Route,
    ReleaseSurface,
    ReleaseAll,
}

// The calls that alter nothing.
#[derive(Clone, Copy)]
pub enum ReadVerb {
    HitTestStack = 35,
    InversePoint,
    ViewWindow = 26,
    ViewMetrics,
    ViewInputState,
    ViewPointerCaptures,
    SurfaceDescriptor,
    ViewLayers,
    Traces,
    Counts,
    ActiveBindingCount,
}

// The calls on the registry and the router that stand.
#[derive(Clone, Copy)]
pub enum StepVerb {
    Panel(PanelVerb),
    Input(InputVerb),
    ReleaseDevicePointerCaptures,
    RegisterSurfaceSystemShortcutSet,
    Arbitrate,
    Close(CloseVerb),
    Router(RouterVerb),
    Read(ReadVerb),
}

// What a line asks for.
#[derive(Clone, Copy)]
pub enum Verb {
    Session(SessionVerb),
    Step(StepVerb),
}

// Each verb with its name.
const VERBS: [(&str, Verb); 41] = [
    ("digest", Verb::Session(SessionVerb::Digest)),
    ("new", Verb::Session(SessionVerb::New)),
    ("new_at", Verb::Session(SessionVerb::NewAt)),
    ("router", Verb::Session(SessionVerb::Router)),
    (
        "create_window",
        Verb::Step(StepVerb::Panel(PanelVerb::CreateWindow)),
    ),
    (
        "close_window",
        Verb::Step(StepVerb::Panel(PanelVerb::CloseWindow)),
    ),
    (
        "create_view",
        Verb::Step(StepVerb::Panel(PanelVerb::CreateView)),
    ),
    (
        "update_view_metrics",
        Verb::Step(StepVerb::Panel(PanelVerb::UpdateViewMetrics)),
    ),
    (
        "close_view",
        Verb::Step(StepVerb::Panel(PanelVerb::CloseView)),
    ),
    (
        "attach_surface",
        Verb::Step(StepVerb::Panel(PanelVerb::AttachSurface)),
    ),
    (
        "update_surface_geometry",
        Verb::Step(StepVerb::Panel(PanelVerb::UpdateSurfaceGeometry)),
    ),
    (
        "update_surface_input_policy",
        Verb::Step(StepVerb::Panel(PanelVerb::UpdateSurfaceInputPolicy)),
    ),
    (
        "register_surface_system_shortcut_set",
        Verb::Step(StepVerb::RegisterSurfaceSystemShortcutSet),
    ),
    (
        "set_focus",
        Verb::Step(StepVerb::Input(InputVerb::SetFocus)),
    ),
    (
        "capture_pointer",
        Verb::Step(StepVerb::Input(InputVerb::CapturePointer)),
    ),
    (
        "capture_pointer_for",
        Verb::Step(StepVerb::Input(InputVerb::CapturePointerFor)),
    ),
    (
        "release_pointer",
        Verb::Step(StepVerb::Input(InputVerb::ReleasePointer)),
    ),
    (
        "release_pointer_for",
        Verb::Step(StepVerb::Input(InputVerb::ReleasePointerFor)),
    ),
    (
        "release_device_pointer_captures",
        Verb::Step(StepVerb::ReleaseDevicePointerCaptures),
    ),
    (
        "begin_ime",
        Verb::Step(StepVerb::Input(InputVerb::BeginIme)),
    ),
    ("end_ime", Verb::Step(StepVerb::Input(InputVerb::EndIme))),
    (
        "suspend_view_input",
        Verb::Step(StepVerb::Input(InputVerb::SuspendViewInput)),
    ),
    ("arbitrate", Verb::Step(StepVerb::Arbitrate)),
    (
        "close_surface",
        Verb::Step(StepVerb::Close(CloseVerb::CloseSurface)),
    ),
    ("shutdown", Verb::Step(StepVerb::Close(CloseVerb::Shutdown))),
    (
        "hit_test_stack",
        Verb::Step(StepVerb::Read(ReadVerb::HitTestStack)),
    ),
    (
        "inverse_point",
        Verb::Step(StepVerb::Read(ReadVerb::InversePoint)),
    ),
    ("route", Verb::Step(StepVerb::Router(RouterVerb::Route))),
    (
        "release_surface",
        Verb::Step(StepVerb::Router(RouterVerb::ReleaseSurface)),
    ),
    (
        "release_all",
        Verb::Step(StepVerb::Router(RouterVerb::ReleaseAll)),
    ),
    (
        "view_window",
        Verb::Step(StepVerb::Read(ReadVerb::ViewWindow)),
    ),
    (
        "view_metrics",
        Verb::Step(StepVerb::Read(ReadVerb::ViewMetrics)),
    ),
    (
        "view_input_state",
        Verb::Step(StepVerb::Read(ReadVerb::ViewInputState)),
    ),
    (
        "view_pointer_captures",
        Verb::Step(StepVerb::Read(ReadVerb::ViewPointerCaptures)),
    ),
    (
        "surface_descriptor",
        Verb::Step(StepVerb::Read(ReadVerb::SurfaceDescriptor)),
    ),
    (
        "view_layers",
        Verb::Step(StepVerb::Read(ReadVerb::ViewLayers)),
    ),
    ("traces", Verb::Step(StepVerb::Read(ReadVerb::Traces))),
    ("counts", Verb::Step(StepVerb::Read(ReadVerb::Counts))),
    (
        "active_binding_count",
        Verb::Step(StepVerb::Read(ReadVerb::ActiveBindingCount)),
    ),
    ("state", Verb::Session(SessionVerb::State)),
    ("router_state", Verb::Session(SessionVerb::RouterState)),
];

// The verb beside a name in a table.
fn verb_in(table: &[(&str, Verb)], word: &[u8]) -> Option<Verb>
    ensures { result ≡ verb_of (map (λ e. (e.0.now, e.1)) table.now) word.now }
{
    table
        .iter()
        .find(|(name, _)| name.as_bytes() == word)
        .map(|(_, verb)| *verb)
}

// The verb that a word names.
pub fn verb_named(word: &[u8]) -> Option<Verb>
    ensures { result ≡ verb_named word.now }
{
    verb_in(&VERBS, word)
}
