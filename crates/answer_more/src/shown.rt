// What a call shows beside its handle, its lists and its report.
ghost use Rattle.std.specs.Prelude.{ℕ, List, ◌≡◌};
ghost use Rattle.answer_more.specs.Place.{more_placed};
ghost use Rattle.answer_more.specs.Shown.{shown_more};

use crate::counts::ShownCounts;
use crate::none::put_none;
use answer_numbers::numbered::put_numbers;
use answer_numbers::sink::SinkKind;
use answer_numbers::views::DescribedLayers;
use calls::shown::Shown;
use composition_hits::table::view_hits;
use composition_state::registry::CompositionRegistry;

// A window stands in column 7.
pub fn put_shown(
    out: &mut [u8],
    at: usize,
    kind: SinkKind,
    shown: Shown,
    registry: CompositionRegistry,
) -> usize
    ensures { ◌≡◌ {A = List ℕ × ℕ} (out.new, result)
        (more_placed kind (shown_more shown registry) (out.old, at)) }
{
    match shown {
        Shown::Nothing | Shown::Window(_) => put_none(out, at, kind),
        Shown::Metrics(metrics) => put_numbers(out, at, kind, &metrics),
        Shown::InputState(state) => put_numbers(out, at, kind, &state),
        Shown::Captures(view) => {
            let record = registry.views.record(view);
            put_numbers(out, at, kind, &record.pointer_captures)
        }
        Shown::Descriptor(descriptor) => put_numbers(out, at, kind, &descriptor),
        Shown::Layers(view) => {
            let record = registry.views.record(view);
            let described = DescribedLayers {
                layers: &record.surfaces,
                surfaces: &registry.surfaces,
            };
            put_numbers(out, at, kind, &described)
        }
        Shown::Traces => put_numbers(out, at, kind, &registry.traces),
        Shown::Counts(counts) => put_numbers(out, at, kind, &ShownCounts(&counts)),
        Shown::BindingCount(n) => put_numbers(out, at, kind, &n),
        Shown::Hits(given) => {
            let hits = view_hits(&registry, given.view, given.point);
            put_numbers(out, at, kind, &hits)
        }
        Shown::Local(local) => put_numbers(out, at, kind, &local),
    }
}
