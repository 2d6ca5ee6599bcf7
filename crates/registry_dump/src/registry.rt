// The dump of a whole registry, and its digest.
ghost use Rattle.std.specs.Prelude.{◌≡◌};
ghost use Rattle.answer_numbers.specs.Numbers.{dump_digest};
ghost use Rattle.answer_numbers.specs.Writers.{written};
ghost use Rattle.registry_dump.specs.Claims.{RegistryClaims};
ghost use Rattle.registry_dump.specs.Registry.{limits_numbers, tables_numbers, registry_numbers, counts_numbers};

use answer_numbers::arenas::{NoValues, write_arena};
use answer_numbers::numbered::{Numbered, digest_of};
use answer_numbers::panels::Panels;
use answer_numbers::writer::Writer;
use composition_state::registry::{CompositionLimits, CompositionRegistry};

fn write_limits(limits: &CompositionLimits, to: &mut Writer<'_>)
    ensures { to.new ≡ written (limits_numbers limits.now) to.old }
{
    limits.max_windows.write(to);
    limits.max_views.write(to);
    limits.max_surfaces.write(to);
    limits.max_surfaces_per_view.write(to);
    limits.max_trace_entries.write(to);
}

// The arenas of the windows, the views and the panels.
fn write_tables(registry: &CompositionRegistry, to: &mut Writer<'_>)
    ensures { to.new ≡ written (tables_numbers registry.now.windows registry.now.views registry.now.surfaces
        registry.now.shortcuts) to.old }
{
    let panels = Panels {
        surfaces: &registry.surfaces,
        shortcuts: &registry.shortcuts,
    };
    write_arena(&registry.windows, &NoValues, to);
    write_arena(&registry.views.arena, &registry.views, to);
    write_arena(&registry.surfaces.arena, &panels, to);
}

// A registry whose numbers are all written.
#[derive(Clone, Copy)]
pub struct RegistryDump<'a>(pub &'a CompositionRegistry);

impl Numbered for RegistryDump<'_> {
    ghost numbers = { λ d. registry_numbers d.0.now };

    fn write(&self, to: &mut Writer<'_>) {
        let registry = self.0;
        registry.session.write(to);
        registry.session_epoch.write(to);
        write_limits(&registry.limits, to);
        registry.first_generation.write(to);
        registry.revision.write(to);
        write_tables(registry, to);
        registry.traces.write(to);
    }
}

// What `counts` shows.
pub fn write_counts(registry: &CompositionRegistry, to: &mut Writer<'_>)
    ensures { to.new ≡ written (counts_numbers registry.now) to.old }
{
    registry.session.write(to);
    registry.session_epoch.write(to);
    registry.revision.write(to);
    registry.windows.live.write(to);
    registry.views.arena.live.write(to);
    registry.surfaces.arena.live.write(to);
}

// The digest of a registry's dump.
pub fn registry_digest(registry: CompositionRegistry) -> u64
    ensures { result ≡ dump_digest (registry_numbers registry) }
{
    digest_of(&RegistryDump(&registry))
}

// The worked example of the format.
pub fn registry_claims()
    ensures { RegistryClaims }
{}
