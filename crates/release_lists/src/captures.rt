// The list of captures that a device's loss ends.
use lists::table::Table;
use maps::captures::Capture;

// Captures by view slot, then pointer: up to 32 in each of 16 views.
pub type CaptureList = Table<Capture, 512>;
