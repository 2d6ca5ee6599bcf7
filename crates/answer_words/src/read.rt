// What a host reads of an answer's words.
ghost use Rattle.answer_words.specs.Claims.{WordClaims};
ghost use Rattle.answer_words.specs.Lengths.{All, ViewLengths, TraceLengths, Lengths};

use counter::step::Counter;
use records::trace::CompositionTrace;
use records::view::ViewRecord;

// Every answer fits a host's buffer, and its releases are read back from its words: a theorem that the check names.
pub fn word_claims()
    ensures { WordClaims }
{}

// A view's layers and captures are as many as its type says.
fn view_lengths(view: ViewRecord)
    ensures { ViewLengths view }
{}

fn trace_lengths(trace: CompositionTrace)
    ensures { TraceLengths trace }
{}

fn views_lengths(views: &[ViewRecord])
    ensures { All ViewLengths views.now }
{
    for view in views {
        view_lengths(*view);
    }
}

fn traces_lengths(traces: &[CompositionTrace])
    ensures { All TraceLengths traces.now }
{
    for trace in traces {
        trace_lengths(*trace);
    }
}

// A counter that a program holds is one that these claims are about: its arrays have the length of their types.
pub fn lengths_held(counter: Counter)
    ensures { Lengths counter }
{
    views_lengths(&counter.registry.views.records);
    traces_lengths(&counter.registry.traces.items);
}
