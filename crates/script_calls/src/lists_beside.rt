// The lists that stand beside the call of a line.

ghost use Rattle.std.specs.Prelude.{◌≡◌};
ghost use Rattle.script_calls.specs.LineLists.{no_lists, with_hits, with_registrations};

use calls::call::Lists;
use composition_shortcuts::register::Registrations;
use records::trace::Hits;

pub fn no_lists() -> Lists
    ensures { result ≡ no_lists }
{
    with_hits(Hits::new())
}

pub fn with_hits(hits: Hits) -> Lists
    ensures { result ≡ with_hits hits }
{
    Lists {
        hits,
        registrations: Registrations::new(),
    }
}

pub fn with_registrations(registrations: Registrations) -> Lists
    ensures { result ≡ with_registrations registrations }
{
    Lists {
        hits: Hits::new(),
        registrations,
    }
}
