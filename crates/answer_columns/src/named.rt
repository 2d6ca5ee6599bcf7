// Column 7: the handle that an answer names.
ghost use Rattle.std.specs.Prelude.{◌≡◌};
ghost use Rattle.answer_columns.specs.Lines.{extended};
ghost use Rattle.answer_columns.specs.Named.{input_handle, close_handle, lost_view, router_handle, shown_handle, accepted_handle, named_handle, named_pieces};

use crate::line::Line;
use crate::pieces::Pieces;
use calls::call::{Call, CloseCall, InputCall, RouterCall};
use calls::shown::Shown;
use handles::GenerationalHandle;
use input_events::error::RouterOutcome;
use input_releases::answer::RouteKind;

// A suspend names its view.
fn input_handle(call: InputCall) -> Option<GenerationalHandle>
    ensures { result ≡ input_handle call }
{
    match call {
        InputCall::SuspendViewInput(given) => Some(given.handle),
        _ => None,
    }
}

// A close names its panel.
fn close_handle(call: CloseCall) -> Option<GenerationalHandle>
    ensures { result ≡ close_handle call }
{
    match call {
        CloseCall::CloseSurface(surface) => Some(surface),
        CloseCall::Shutdown => None,
    }
}

fn lost_view(kind: RouteKind, view: GenerationalHandle) -> Option<GenerationalHandle>
    ensures { result ≡ lost_view kind view }
{
    match kind {
        RouteKind::ViewReleased => Some(view),
        _ => None,
    }
}

// A loss names its view.
fn router_handle(call: RouterCall, kind: RouteKind) -> Option<GenerationalHandle>
    ensures { result ≡ router_handle call kind }
{
    match call {
        RouterCall::Route(event) => lost_view(kind, event.header.view),
        RouterCall::ReleaseSurface(_) | RouterCall::ReleaseAll => None,
    }
}

// A view's window is named where it is shown.
fn shown_handle(shown: Shown) -> Option<GenerationalHandle>
    ensures { result ≡ shown_handle shown }
{
    match shown {
        Shown::Window(window) => Some(window),
        _ => None,
    }
}

fn accepted_handle(
    call: Call,
    made: Option<GenerationalHandle>,
    kind: RouteKind,
    shown: Shown,
) -> Option<GenerationalHandle>
    ensures { result ≡ accepted_handle call made kind shown }
{
    match call {
        Call::Panel(_) => made,
        Call::Input(which) => input_handle(which),
        Call::Close(which) => close_handle(which),
        Call::Router(which) => router_handle(which, kind),
        Call::Read(_) => shown_handle(shown),
        Call::ReleaseDevice(_) | Call::Shortcut(_) | Call::Arbitrate(_) => None,
    }
}

// A refused call names no handle.
pub fn named_handle(
    outcome: RouterOutcome,
    call: Call,
    made: Option<GenerationalHandle>,
    kind: RouteKind,
    shown: Shown,
) -> Option<GenerationalHandle>
    ensures { result ≡ named_handle outcome call made kind shown }
{
    match outcome {
        Ok(()) => accepted_handle(call, made, kind, shown),
        Err(_) => None,
    }
}

// Column 7, with the spaces around it.
pub fn put_named(handle: Option<GenerationalHandle>, line: &mut Line<'_>)
    ensures { line.new ≡ extended (named_pieces handle) line.old }
{
    line.space();
    handle.put(line);
    line.space();
}
