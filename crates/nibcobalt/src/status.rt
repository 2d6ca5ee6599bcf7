// What a function of the library answers: 0 or the number of why nothing was done, and how many bytes of the lent
// buffer are the answer.
ghost use Rattle.std.specs.Prelude.{◌≡◌};
ghost use Rattle.nibcobalt.specs.Status.{status_of, refusal_of};

#[repr(C)]
#[derive(Clone, Copy)]
pub struct Status {
    pub number: u64,
    pub length: usize,
}

impl Status {
    pub fn without_answer(number: u64) -> Self
        ensures { result ≡ status_of number }
    {
        Self { number, length: 0 }
    }
}

// Why a message and a buffer of so many bytes are refused, 0 if they are not: the number that C is handed. The longest
// answer fits into 36,864 bytes.
pub fn refusal_of(is_form: bool, length: usize) -> u64
    ensures { result ≡ refusal_of is_form length }
{
    if !is_form {
        1000
    } else if length < 36864 {
        1001
    } else {
        0
    }
}
