// A routed event: its header, then the payload's kind and fields.

#![tactic(auto, unfolding(call_numbers::specs::Payloads::payload_numbers))]

ghost use Rattle.std.specs.Prelude.{◌≡◌, [], ◌∷◌, ◌++◌};
ghost use Rattle.lists.specs.Lists.{pad};
ghost use Rattle.input_events.specs.declared.event.PlatformInputPayload.TheVariants.{Pointer, Wheel, Key, Shortcut, Composition, GamepadSnapshot};
ghost use Rattle.call_numbers.specs.Events.{header_numbers};
ghost use Rattle.call_numbers.specs.Payloads.{payload_numbers};

use crate::headers::header_form;
use crate::shared::put;
use call_fields::groups::button_numbers;
use call_fields::numbered::Numbered;
use input_events::event::{
    CompositionInput, GamepadInput, KeyInput, PlatformInputEvent, PlatformInputHeader,
    PlatformInputPayload, PointerInput, ShortcutInput, WheelInput,
};

fn pointer_form(header: PlatformInputHeader, p: PointerInput) -> [u64; 32]
    ensures { result ≡ pad 32 0 (23 ∷ header_numbers header ++ payload_numbers (Pointer p)) }
{
    let button = button_numbers(p.changed_button);
    put(
        header_form(header),
        17,
        &[
            0,
            p.contact.number(),
            p.phase.number(),
            p.x_milli.number(),
            p.y_milli.number(),
            p.delta_x_milli.number(),
            p.delta_y_milli.number(),
            p.pressure_q15.number(),
            p.tilt_x_degrees.number(),
            p.tilt_y_degrees.number(),
            p.buttons.number(),
            button.present,
            button.button,
        ],
    )
}

fn wheel_form(header: PlatformInputHeader, p: WheelInput) -> [u64; 32]
    ensures { result ≡ pad 32 0 (23 ∷ header_numbers header ++ payload_numbers (Wheel p)) }
{
    put(
        header_form(header),
        17,
        &[
            1,
            p.contact.number(),
            p.x_milli.number(),
            p.y_milli.number(),
            p.delta_x_milli.number(),
            p.delta_y_milli.number(),
            p.unit.number(),
        ],
    )
}

fn key_form(header: PlatformInputHeader, p: KeyInput) -> [u64; 32]
    ensures { result ≡ pad 32 0 (23 ∷ header_numbers header ++ payload_numbers (Key p)) }
{
    put(
        header_form(header),
        17,
        &[
            2,
            p.phase.number(),
            p.physical_key.number(),
            p.repeat.number(),
        ],
    )
}

fn shortcut_form(header: PlatformInputHeader, p: ShortcutInput) -> [u64; 32]
    ensures { result ≡ pad 32 0 (23 ∷ header_numbers header ++ payload_numbers (Shortcut p)) }
{
    put(
        header_form(header),
        17,
        &[3, p.class_mask, p.system.number()],
    )
}

fn composition_form(header: PlatformInputHeader, p: CompositionInput) -> [u64; 32]
    ensures { result ≡ pad 32 0 (23 ∷ header_numbers header ++ payload_numbers (Composition p)) }
{
    put(
        header_form(header),
        17,
        &[
            5,
            p.phase.number(),
            p.length.number(),
            p.selection_start.number(),
            p.selection_end.number(),
        ],
    )
}

fn gamepad_form(header: PlatformInputHeader, p: GamepadInput) -> [u64; 32]
    ensures { result ≡ pad 32 0 (23 ∷ header_numbers header ++ payload_numbers (GamepadSnapshot p)) }
{
    put(
        header_form(header),
        17,
        &[6, p.connected.number(), p.mapping.number()],
    )
}

// A payload of one number.
fn one_form(header: PlatformInputHeader, kind: u64, number: u64) -> [u64; 32]
    ensures { result ≡ pad 32 0 (23 ∷ header_numbers header ++ kind ∷ number ∷ []) }
{
    put(header_form(header), 17, &[kind, number])
}

fn disconnected_form(header: PlatformInputHeader) -> [u64; 32]
    ensures { result ≡ pad 32 0 (23 ∷ header_numbers header ++ 9 ∷ []) }
{
    put(header_form(header), 17, &[9])
}

pub fn event_form(event: PlatformInputEvent) -> [u64; 32]
    ensures { result ≡ pad 32 0 (23 ∷ header_numbers event.header ++ payload_numbers event.payload) }
{
    let header = event.header;
    match event.payload {
        PlatformInputPayload::Pointer(p) => pointer_form(header, p),
        PlatformInputPayload::Wheel(p) => wheel_form(header, p),
        PlatformInputPayload::Key(p) => key_form(header, p),
        PlatformInputPayload::Shortcut(p) => shortcut_form(header, p),
        PlatformInputPayload::Text(p) => one_form(header, 4, p.length.number()),
        PlatformInputPayload::Composition(p) => composition_form(header, p),
        PlatformInputPayload::GamepadSnapshot(p) => gamepad_form(header, p),
        PlatformInputPayload::FocusChanged(f) => one_form(header, 7, f.number()),
        PlatformInputPayload::VisibilityChanged(f) => one_form(header, 8, f.number()),
        PlatformInputPayload::DeviceDisconnected => disconnected_form(header),
    }
}
