// The metrics of a view.
ghost use Rattle.std.specs.Prelude.{◌≡◌, ◌+◌};
ghost use Rattle.composition_panels.specs.Metrics.{metrics_refusal, next_metrics, update_view_metrics};

use crate::answer::MetricsUpdated;
use composition_state::registry::{Answered, CompositionRegistry, expect_revision};
use geometry::metrics::{ViewMetrics, ViewMetricsUpdate, validate_view_metrics};
use handles::GenerationalHandle;
use records::error::{CompositionError, Outcome, refuse_if};

fn metrics_refusal(
    registry: CompositionRegistry,
    view: GenerationalHandle,
    update: ViewMetricsUpdate,
    expected: u64,
) -> Outcome
    ensures { result ≡ metrics_refusal registry view update expected }
{
    registry.damage()?;
    refuse_if(
        !validate_view_metrics(update),
        CompositionError::InvalidMetrics,
    )?;
    registry.views.refusal(view)?;
    let revision = registry.views.record(view).metrics.revision;
    expect_revision(revision, expected)?;
    refuse_if(revision == u64::MAX, CompositionError::RevisionExhausted)
}

// The metrics after the current ones. At the last revision the update is refused 21, so that case is never met.
fn next_metrics(current: ViewMetrics, update: ViewMetricsUpdate) -> ViewMetrics
    ensures { result ≡ next_metrics current update }
{
    update.at_revision(current.revision.checked_add(1).unwrap_or(0))
}

// The place, size, scale, safe area and visibility of a view change.
#[tactic(auto, unfolding(crate::specs::Metrics::update_view_metrics))]
pub fn update_view_metrics(
    registry: CompositionRegistry,
    view: GenerationalHandle,
    update: ViewMetricsUpdate,
    expected_metrics_revision: u64,
) -> MetricsUpdated
    ensures { result ≡ update_view_metrics registry view update expected_metrics_revision }
{
    let refusal = metrics_refusal(registry, view, update, expected_metrics_revision);
    let record = registry.views.record(view);
    let metrics = next_metrics(record.metrics, update);
    let views = registry
        .views
        .with_record(view, record.with_metrics(metrics));
    Answered::with(
        metrics,
        registry.settle(refusal, registry.with_views(views)),
    )
}
