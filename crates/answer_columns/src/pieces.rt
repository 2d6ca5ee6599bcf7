// What is put into a line as pieces: handles, deliveries, releases, and lists of them.
ghost use Rattle.std.specs.Prelude.{ℕ, List, ◌≡◌};
ghost use Rattle.answer_columns.specs.Columns.{delivery_pieces, key_pieces, release_pieces, capture_pieces};
ghost use Rattle.answer_columns.specs.Lines.{extended};
ghost use Rattle.answer_columns.specs.Pieces.{triple_pieces, handle_pieces, optional_pieces, later_pieces, list_pieces};
ghost use Rattle.release_lists.specs.Releases.{capture_release};

use crate::line::Line;
use handles::GenerationalHandle;
use maps::bindings::Binding;
use maps::captures::Capture;
use maps::keys::BindingKey;
use records::trace::InputDelivery;

// A value with its pieces.
pub trait Pieces {
    ghost pieces: { Self → List (List ℕ) };

    fn put(&self, line: &mut Line<'_>)
        ensures { line.new ≡ extended (pieces self.now) line.old };
}

impl Pieces for GenerationalHandle {
    ghost pieces = { handle_pieces };

    fn put(&self, line: &mut Line<'_>) {
        line.pair(self.index as u64, self.generation as u64);
    }
}

impl Pieces for Option<GenerationalHandle> {
    ghost pieces = { optional_pieces };

    fn put(&self, line: &mut Line<'_>) {
        match self {
            None => line.none(),
            Some(handle) => handle.put(line),
        }
    }
}

// An observed delivery has an `o` behind it.
impl Pieces for InputDelivery {
    ghost pieces = { delivery_pieces };

    fn put(&self, line: &mut Line<'_>) {
        self.surface.put(line);
        if self.observed {
            line.byte(b'o');
        }
    }
}

// Three numbers with dots between.
fn put_triple(m: u64, n: u64, k: u64, line: &mut Line<'_>)
    ensures { line.new ≡ extended (triple_pieces m n k) line.old }
{
    line.pair(m, n);
    line.byte(b'.');
    line.number(k);
}

// The letter of what is released, and its device with its contact or key.
impl Pieces for BindingKey {
    ghost pieces = { key_pieces };

    fn put(&self, line: &mut Line<'_>) {
        match self {
            BindingKey::Pointer(pointer) => {
                line.byte(b'P');
                put_triple(
                    pointer.device,
                    pointer.device_generation as u64,
                    pointer.contact as u64,
                    line,
                );
            }
            BindingKey::Key(key) => {
                line.byte(b'K');
                put_triple(
                    key.device.value,
                    key.device.generation as u64,
                    key.physical_key as u64,
                    line,
                );
            }
            BindingKey::Gamepad(device) => {
                line.byte(b'G');
                line.pair(device.value, device.generation as u64);
            }
        }
    }
}

impl Pieces for Binding {
    ghost pieces = { release_pieces };

    fn put(&self, line: &mut Line<'_>) {
        self.key.put(line);
        line.byte(b'@');
        self.surface.put(line);
    }
}

// A capture's release is a pointer's cancel.
fn capture_release(capture: Capture) -> Binding
    ensures { result ≡ capture_release capture }
{
    Binding {
        key: BindingKey::Pointer(capture.pointer),
        surface: capture.surface,
    }
}

impl Pieces for Capture {
    ghost pieces = { capture_pieces };

    fn put(&self, line: &mut Line<'_>) {
        capture_release(*self).put(line);
    }
}

// The entries that stand behind another, each behind a comma.
fn put_later<E: Pieces>(entries: &[E], line: &mut Line<'_>)
    ensures { line.new ≡ extended (later_pieces E.pieces entries.now) line.old }
{
    for entry in entries {
        line.byte(b',');
        entry.put(line);
    }
}

// The entries with commas between, or `-` where there is none.
#[tactic(auto, using(crate::proofs::LineLaws::extended_both), unfolding(crate::specs::Pieces::list_pieces, crate::specs::Pieces::entry_pieces,))]
pub fn put_list<E: Pieces>(entries: &[E], line: &mut Line<'_>)
    ensures { line.new ≡ extended (list_pieces E.pieces entries.now) line.old }
{
    match entries.split_first() {
        None => line.none(),
        Some((first, rest)) => {
            first.put(line);
            put_later(rest, line);
        }
    }
}
