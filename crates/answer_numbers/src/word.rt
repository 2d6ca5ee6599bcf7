// A number as eight bytes.
ghost use Rattle.std.specs.Prelude.{ℕ, List, ◌≡◌};
ghost use Rattle.answer_text.specs.Put.{put};
ghost use Rattle.answer_numbers.specs.Numbers.{word};

use answer_text::put::put_bytes;

// The low byte stands first.
pub fn put_word(out: &mut [u8], at: usize, n: u64) -> usize
    ensures { ◌≡◌ {A = List ℕ × ℕ} (out.new, result) (put (word n) (out.old, at)) }
{
    put_bytes(out, at, &n.to_le_bytes())
}
