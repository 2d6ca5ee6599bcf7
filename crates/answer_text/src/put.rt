// Pieces of an answer line, each put into a lent buffer at a place. Each answers the place after it.
//
// A piece that has no room for all its bytes is not put, and the place stays as it was. A signed number is two pieces,
// and a pair three.
ghost use Rattle.std.specs.Prelude.{◌≡◌, List, [], ◌∷◌, ◌++◌, ℕ, ◌+◌, ◌-◌, ◌≤◌, leb, length, take, drop};
ghost use Rattle.answer_text.specs.Claims.{TextClaims};
ghost use Rattle.answer_text.specs.Decimal.{decimal, last_digits};
ghost use Rattle.answer_text.specs.Put.{over, put, put_integer, put_pair};

fn has_room(size: usize, at: usize, n: usize) -> bool
    ensures { result ≡ leb (at + n) size }
{
    at <= size && n <= size - at
}

pub fn put_bytes(buf: &mut [u8], at: usize, s: &[u8]) -> usize
    ensures { ◌≡◌ {A = List ℕ × ℕ} (buf.new, result) (put s.now (buf.old, at)) }
{
    if !has_room(buf.len(), at, s.len()) {
        return at;
    }
    let end = at + s.len();
    buf[at..end].copy_from_slice(s);
    end
}

pub fn put_byte(buf: &mut [u8], at: usize, b: u8) -> usize
    ensures { ◌≡◌ {A = List ℕ × ℕ} (buf.new, result) (put (b ∷ []) (buf.old, at)) }
{
    put_bytes(buf, at, &[b])
}

// As many of the first bytes as there is room for.
pub fn put_clipped(buf: &mut [u8], at: usize, s: &[u8]) -> usize
    ensures { ◌≡◌ {A = List ℕ × ℕ} (buf.new, result)
        (put (take (length buf.old - at) s.now) (buf.old, at)) }
{
    let room = buf.len().saturating_sub(at);
    put_bytes(buf, at, &s[..room.min(s.len())])
}

// How many digits a number has. The turns are as many as are counted, so no range stands for them.
fn places(n: u64) -> usize
    ensures { result ≡ length (decimal n) }
{
    let mut k = 1;
    let mut rest = n;
    while rest >= 10 {
        rest /= 10;
        k += 1;
    }
    k
}

fn put_digits(buf: &mut [u8], at: usize, n: u64, k: usize)
    requires { at + k ≤ length buf.old }
    ensures { buf.new
        ≡ take at buf.old ++ last_digits k n ++ drop (at + k) buf.old }
{
    let mut rest = n;
    for j in (0..k).rev() {
        buf[at + j] = b'0' + (rest % 10) as u8;
        rest /= 10;
    }
}

// A number in decimal.
pub fn put_u64(buf: &mut [u8], at: usize, n: u64) -> usize
    ensures { ◌≡◌ {A = List ℕ × ℕ} (buf.new, result) (put (decimal n) (buf.old, at)) }
{
    let k = places(n);
    if !has_room(buf.len(), at, k) {
        return at;
    }
    put_digits(buf, at, n, k);
    at + k
}

// A signed number in decimal.
pub fn put_i32(buf: &mut [u8], at: usize, n: i32) -> usize
    ensures { ◌≡◌ {A = List ℕ × ℕ} (buf.new, result) (put_integer n (buf.old, at)) }
{
    let start = if n < 0 { put_byte(buf, at, b'-') } else { at };
    put_u64(buf, start, n.unsigned_abs() as u64)
}

// Two numbers with a dot between, as a handle's index and generation.
pub fn put_pair(buf: &mut [u8], at: usize, m: u64, n: u64) -> usize
    ensures { ◌≡◌ {A = List ℕ × ℕ} (buf.new, result) (put_pair m n (buf.old, at)) }
{
    let dot = put_u64(buf, at, m);
    let next = put_byte(buf, dot, b'.');
    put_u64(buf, next, n)
}

// What holds of all text that is put.
pub fn text_claims()
    ensures { TextClaims }
{}
