// What these calls answer beside the registry.
use composition_state::registry::Answered;
use records::view::ViewInputState;
use release_lists::captures::CaptureList;

// A suspend answers what was let go.
pub type Suspended = Answered<ViewInputState>;

// A release by device answers the captures that end.
pub type CapturesReleased = Answered<CaptureList>;
