// The events of the platform. Key names and texts are left out: of a text its length counts. So are a gamepad's axes
// and buttons.
use handles::GenerationalHandle;
use maps::keys::InputDeviceId;

#[derive(Clone, Copy, PartialEq, Eq)]
pub enum InputDeviceKind {
    Mouse,
    Touch,
    Pen,
    Keyboard,
    Gamepad,
}

#[derive(Clone, Copy, PartialEq, Eq)]
pub struct InputModifiers {
    pub shift: bool,
    pub control: bool,
    pub alt: bool,
    pub meta: bool,
    pub caps_lock: bool,
    pub num_lock: bool,
}

#[derive(Clone, Copy, PartialEq, Eq)]
pub enum KeyPhase {
    Down,
    Up,
}

#[derive(Clone, Copy, PartialEq, Eq)]
pub enum PointerPhase {
    Down,
    Move,
    Up,
    Cancel,
}

#[derive(Clone, Copy, PartialEq, Eq)]
pub enum WheelUnit {
    Pixel,
    Line,
    Page,
}

#[derive(Clone, Copy, PartialEq, Eq)]
pub enum CompositionPhase {
    Start,
    Update,
    End,
    Cancel,
}

#[derive(Clone, Copy, PartialEq, Eq)]
pub enum GamepadMapping {
    Standard,
    Raw,
}

#[derive(Clone, Copy, PartialEq, Eq)]
pub struct PlatformInputHeader {
    pub sequence: u64,
    pub timestamp_micros: u64,
    pub metrics_revision: u64,
    pub window: GenerationalHandle,
    pub view: GenerationalHandle,
    pub device: InputDeviceId,
    pub device_kind: InputDeviceKind,
    pub modifiers: InputModifiers,
}

#[derive(Clone, Copy, PartialEq, Eq)]
pub struct PointerInput {
    pub contact: u32,
    pub phase: PointerPhase,
    pub x_milli: i32,
    pub y_milli: i32,
    pub delta_x_milli: i32,
    pub delta_y_milli: i32,
    pub pressure_q15: u16,
    pub tilt_x_degrees: i16,
    pub tilt_y_degrees: i16,
    pub buttons: u32,
    pub changed_button: Option<u8>,
}

#[derive(Clone, Copy, PartialEq, Eq)]
pub struct WheelInput {
    pub contact: u32,
    pub x_milli: i32,
    pub y_milli: i32,
    pub delta_x_milli: i32,
    pub delta_y_milli: i32,
    pub unit: WheelUnit,
}

#[derive(Clone, Copy, PartialEq, Eq)]
pub struct KeyInput {
    pub phase: KeyPhase,
    pub physical_key: u32,
    pub repeat: bool,
}

#[derive(Clone, Copy, PartialEq, Eq)]
pub struct ShortcutInput {
    pub class_mask: u64,
    pub system: bool,
}

// A text, by its length in bytes.
#[derive(Clone, Copy, PartialEq, Eq)]
pub struct TextInput {
    pub length: u32,
}

// The text of an input method, by its length in bytes, and what is selected of it.
#[derive(Clone, Copy, PartialEq, Eq)]
pub struct CompositionInput {
    pub phase: CompositionPhase,
    pub length: u32,
    pub selection_start: u32,
    pub selection_end: u32,
}

#[derive(Clone, Copy, PartialEq, Eq)]
pub struct GamepadInput {
    pub connected: bool,
    pub mapping: GamepadMapping,
}

#[derive(Clone, Copy, PartialEq, Eq)]
pub enum PlatformInputPayload {
    Pointer(PointerInput),
    Wheel(WheelInput),
    Key(KeyInput),
    Shortcut(ShortcutInput),
    Text(TextInput),
    Composition(CompositionInput),
    GamepadSnapshot(GamepadInput),
    FocusChanged(bool),
    VisibilityChanged(bool),
    DeviceDisconnected,
}

#[derive(Clone, Copy, PartialEq, Eq)]
pub struct PlatformInputEvent {
    pub header: PlatformInputHeader,
    pub payload: PlatformInputPayload,
}
