// The calls that replace a panel's registrations of system shortcuts.
ghost use Rattle.std.specs.Prelude.{◌≡◌, map};
ghost use Rattle.std.specs.List.{fold, list_all as all};
ghost use Rattle.lists.specs.Tables.{entries_of, pushed_within};
ghost use Rattle.records.specs.Shortcuts.{shortcuts as stored};
ghost use Rattle.composition_shortcuts.specs.Register.{registrations as given, is_fit, with_slot, fits, registration_of, replaced, register_refusal, register_surface_system_shortcut_set, registration_list, of_mask};

use composition_state::registry::{Changed, CompositionRegistry, expect_revision};
use handles::GenerationalHandle;
use lists::table::Table;
use records::error::{CompositionError, Outcome, refuse_if};
use records::shortcut::{
    ShortcutScope, Shortcuts, SlotShortcut, SurfaceShortcutRegistration, shortcuts_without,
};
use records::surface::{SurfaceInputPolicy, is_interactive};

// The registrations handed in. A `len` over 64 stands for a list that is too long.
pub type Registrations = Table<SurfaceShortcutRegistration, 64>;

// What a plain mask registers.
fn registration_of(class_mask: u64) -> SurfaceShortcutRegistration
    ensures { result ≡ registration_of class_mask }
{
    SurfaceShortcutRegistration {
        class_mask,
        scope: ShortcutScope::View,
        priority: 0,
    }
}

// Whether a panel of a policy may have a registration.
fn is_fit(input: SurfaceInputPolicy, registration: SurfaceShortcutRegistration) -> bool
    ensures { result ≡ is_fit input registration }
{
    registration.class_mask != 0 && is_interactive(input)
}

fn are_fit(input: SurfaceInputPolicy, registrations: Registrations) -> bool
    ensures { result ≡ all (is_fit input) (entries_of given registrations) }
{
    registrations
        .entries()
        .iter()
        .all(|registration| is_fit(input, *registration))
}

// Whether the table holds the list beside the registrations of all other slots.
fn has_room(shortcuts: Shortcuts, slot: u32, registrations: Registrations) -> bool
    ensures { result ≡ fits slot registrations shortcuts }
{
    shortcuts_without(shortcuts, slot).count() + registrations.count() <= 256
}

// The table with a list put after its own entries, each with the slot.
fn with_each(
    shortcuts: Shortcuts,
    slot: u32,
    registrations: &[SurfaceShortcutRegistration],
) -> Shortcuts
    ensures { result ≡ fold (pushed_within stored) shortcuts (map (with_slot slot) registrations.now) }
{
    let mut next = shortcuts;
    for registration in registrations {
        next.push_in_place(SlotShortcut {
            slot,
            registration: *registration,
        });
    }
    next
}

// The table with the list instead of what the slot had; with no room it stays.
fn replace(shortcuts: Shortcuts, slot: u32, registrations: Registrations) -> Shortcuts
    ensures { result ≡ replaced slot registrations shortcuts }
{
    if !has_room(shortcuts, slot, registrations) {
        return shortcuts;
    }
    with_each(
        shortcuts_without(shortcuts, slot),
        slot,
        registrations.entries(),
    )
}

fn register_refusal(
    registry: CompositionRegistry,
    surface: GenerationalHandle,
    registrations: Registrations,
    expected: u64,
) -> Outcome
    ensures { result ≡ register_refusal registry surface registrations expected }
{
    registry.damage()?;
    expect_revision(registry.revision, expected)?;
    registry.surfaces.refusal(surface)?;
    refuse_if(registrations.len > 64, CompositionError::Capacity)?;
    let input = registry.surfaces.descriptor(surface).input;
    refuse_if(
        !are_fit(input, registrations),
        CompositionError::NotInteractive,
    )?;
    refuse_if(
        !has_room(registry.shortcuts, surface.index, registrations),
        CompositionError::PortLimit,
    )
}

// A panel registers a list of system shortcuts in place of those that it had.
#[tactic(auto, unfolding(crate::specs::Register::register_surface_system_shortcut_set))]
pub fn register_surface_system_shortcut_set(
    registry: CompositionRegistry,
    surface: GenerationalHandle,
    registrations: Registrations,
    expected_revision: u64,
) -> Changed
    ensures { result ≡ register_surface_system_shortcut_set registry surface registrations expected_revision }
{
    let refusal = register_refusal(registry, surface, registrations, expected_revision);
    let shortcuts = replace(registry.shortcuts, surface.index, registrations);
    registry.settle(refusal, registry.with_shortcuts(shortcuts))
}

// The list of an optional registration.
#[tactic(auto, unfolding(lists::specs::Tables::packed, lists::specs::Tables::pushed, lists::specs::Tables::pushed_within))]
fn list_of(registration: Option<SurfaceShortcutRegistration>) -> Registrations
    ensures { result ≡ registration_list registration }
{
    match registration {
        None => Registrations::new(),
        Some(one) => Registrations::new().push_within(one),
    }
}

// A panel registers one system shortcut, or none, in place of those that it had.
pub fn register_surface_system_shortcuts(
    registry: CompositionRegistry,
    surface: GenerationalHandle,
    registration: Option<SurfaceShortcutRegistration>,
    expected_revision: u64,
) -> Changed
    ensures { result ≡ register_surface_system_shortcut_set registry surface (registration_list registration)
        expected_revision }
{
    register_surface_system_shortcut_set(
        registry,
        surface,
        list_of(registration),
        expected_revision,
    )
}

// What a plain mask registers: nothing where it is 0.
fn of_mask(class_mask: u64) -> Option<SurfaceShortcutRegistration>
    ensures { result ≡ of_mask class_mask }
{
    if class_mask == 0 {
        None
    } else {
        Some(registration_of(class_mask))
    }
}

// A panel registers a class mask for its own view at priority 0, or nothing where the mask is 0.
pub fn set_surface_system_shortcuts(
    registry: CompositionRegistry,
    surface: GenerationalHandle,
    class_mask: u64,
    expected_revision: u64,
) -> Changed
    ensures { result ≡ register_surface_system_shortcut_set registry surface (registration_list (of_mask class_mask))
        expected_revision }
{
    register_surface_system_shortcuts(registry, surface, of_mask(class_mask), expected_revision)
}
