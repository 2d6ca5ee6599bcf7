// What stands where a call shows nothing.
ghost use Rattle.std.specs.Prelude.{ℕ, List, ◌≡◌};
ghost use Rattle.answer_more.specs.Place.{none_placed};

use answer_numbers::sink::SinkKind;
use answer_text::put::put_byte;

pub fn put_none(out: &mut [u8], at: usize, kind: SinkKind) -> usize
    ensures { ◌≡◌ {A = List ℕ × ℕ} (out.new, result) (none_placed kind (out.old, at)) }
{
    match kind {
        SinkKind::Column | SinkKind::Dump | SinkKind::Digest => put_byte(out, at, b'-'),
        SinkKind::Words => at,
    }
}
