// Handles as numbers in a lent buffer: the index, then the generation.
ghost use Rattle.std.specs.Prelude.{◌≡◌, [], ◌∷◌, ◌+◌, ◌≤◌, length};
ghost use Rattle.composition_hits.specs.Buffer.{over, numbers_of, numbers_if};

use handles::GenerationalHandle;

// A handle's two numbers at a place of the buffer.
#[tactic(auto, unfolding(crate::specs::Buffer::over))]
fn put_handle(buffer: &mut [u64], at: usize, surface: GenerationalHandle)
    requires { at + 2 ≤ length buffer.old }
    ensures { buffer.new ≡ over buffer.old at (numbers_of (surface ∷ [])) }
{
    buffer[at] = surface.index as u64;
    buffer[at + 1] = surface.generation as u64;
}

// The handle at a place of the buffer, if it is hit. Answers the place after it.
#[tactic(auto, unfolding(crate::specs::Buffer::over))]
pub fn put_if(buffer: &mut [u64], at: usize, surface: GenerationalHandle, is_hit: bool) -> usize
    requires { at + 2 ≤ length buffer.old }
    ensures place { result ≡ at + length (numbers_if is_hit surface) }
    ensures written { buffer.new ≡ over buffer.old at (numbers_if is_hit surface) }
{
    if is_hit {
        put_handle(buffer, at, surface);
        return at + 2;
    }
    at
}
