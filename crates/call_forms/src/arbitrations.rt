// The call `arbitrate`: its view, the event's kind and its fields. The hits stand beside the call.

#![tactic(auto, unfolding(call_numbers::specs::Arbitrations::event_numbers))]

ghost use Rattle.std.specs.Prelude.{◌≡◌, [], ◌∷◌, ◌++◌};
ghost use Rattle.lists.specs.Lists.{pad};
ghost use Rattle.call_numbers.specs.Arbitrations.{arbitrate_numbers};
ghost use Rattle.call_numbers.specs.Words.{handle_numbers, optional_numbers, pointer_numbers};

use crate::shared::{handle_form, put};
use call_fields::groups::optional_numbers;
use call_fields::numbered::Numbered;
use calls::arguments::ArbitrateArguments;
use handles::GenerationalHandle;
use maps::keys::CompositionPointerId;
use records::trace::ArbitrationEvent;

fn kind_form(view: GenerationalHandle, kind: u64) -> [u64; 32]
    ensures { result ≡ pad 32 0 (20 ∷ handle_numbers view ++ kind ∷ []) }
{
    put(handle_form(20, view), 3, &[kind])
}

fn target_form(view: GenerationalHandle, kind: u64, target: Option<GenerationalHandle>) -> [u64; 32]
    ensures { result ≡ pad 32 0 (20 ∷ handle_numbers view ++ kind ∷ optional_numbers target) }
{
    let numbers = optional_numbers(target);
    put(
        kind_form(view, kind),
        4,
        &[numbers.present, numbers.index, numbers.generation],
    )
}

fn pointer_form(view: GenerationalHandle, kind: u64, pointer: CompositionPointerId) -> [u64; 32]
    ensures { result ≡ pad 32 0 (20 ∷ handle_numbers view ++ kind ∷ pointer_numbers pointer) }
{
    put(
        kind_form(view, kind),
        4,
        &[
            pointer.device,
            pointer.device_generation.number(),
            pointer.contact.number(),
        ],
    )
}

fn hit_form(
    view: GenerationalHandle,
    pointer: CompositionPointerId,
    hit: Option<GenerationalHandle>,
) -> [u64; 32]
    ensures { result ≡ pad 32 0 (20 ∷ handle_numbers view ++ 2 ∷ pointer_numbers pointer ++ optional_numbers hit) }
{
    let numbers = optional_numbers(hit);
    put(
        pointer_form(view, 2, pointer),
        7,
        &[numbers.present, numbers.index, numbers.generation],
    )
}

fn mask_form(view: GenerationalHandle, class_mask: u64) -> [u64; 32]
    ensures { result ≡ pad 32 0 (20 ∷ handle_numbers view ++ 10 ∷ class_mask ∷ []) }
{
    put(kind_form(view, 10), 4, &[class_mask])
}

pub fn arbitrate_form(given: ArbitrateArguments) -> [u64; 32]
    ensures { result ≡ pad 32 0 (arbitrate_numbers given) }
{
    let view = given.view;
    match given.event {
        ArbitrationEvent::Pointer { hit } => target_form(view, 0, hit),
        ArbitrationEvent::PointerStack => kind_form(view, 1),
        ArbitrationEvent::PointerFor { pointer, hit } => hit_form(view, pointer, hit),
        ArbitrationEvent::PointerStackFor { pointer } => pointer_form(view, 3, pointer),
        ArbitrationEvent::Keyboard => kind_form(view, 4),
        ArbitrationEvent::KeyboardFor { target } => target_form(view, 5, target),
        ArbitrationEvent::Gamepad => kind_form(view, 6),
        ArbitrationEvent::GamepadFor { target } => target_form(view, 7, target),
        ArbitrationEvent::Text => kind_form(view, 8),
        ArbitrationEvent::Shortcut => kind_form(view, 9),
        ArbitrationEvent::SystemShortcut { class_mask } => mask_form(view, class_mask),
    }
}
